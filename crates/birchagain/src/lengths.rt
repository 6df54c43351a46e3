//! What documents of a length count as.

ghost use Rattle.std.specs.Prelude.{◌≡◌, ◌≢◌, ◌↔◌, IfErr, IsErrOf, OnErr, OnOk, length};
ghost use Rattle.qm_index.specs.Indexed.{indexed, statistics};
ghost use Rattle.qm_postings.specs.Statistics.{with_norms};
ghost use Rattle.birchagain.specs.Lengths.{IsNormsRefusal};

use crate::refusal::Refusal;
use qm_index::Index;

/// From now on a document counts as so many words as the norm of its length id says: a document of one word has the id
/// 1, one of 255 words or more the id 255. So a length may count by its quotient to the mean, which changes as documents
/// come. Takes no memory; costs a copy of the norms.
///
/// Refused with [`Refusal::UnevenRows`] exactly where these are not 256 norms, and else with
/// [`QueryError::BadNorms`](qm_schema::QueryError::BadNorms) where one is less than the one before it.
pub fn set_norms(index: &mut Index, norms: &[u32]) -> Result<(), Refusal>
    ensures set { OnOk result (statistics index.new ≡ with_norms (statistics index.old) norms.now) }
    ensures uneven { IsErrOf result Refusal.UnevenRows ↔ (length norms.now ≢ 256) }
    ensures unchanged { OnErr result (statistics index.new ≡ statistics index.old) }
    ensures documents { indexed index.new ≡ indexed index.old }
    ensures refused { IfErr result (IsNormsRefusal norms.now) }
{
    let Ok(norms) = <&[u32; 256]>::try_from(norms) else {
        return Err(Refusal::UnevenRows);
    };
    index.set_norms(norms)?;
    Ok(())
}
