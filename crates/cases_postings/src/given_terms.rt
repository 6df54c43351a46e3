//! The terms of a phrase, some of which share their postings, as words spell them.

ghost use Rattle.std.specs.Prelude.{◌≡◌, ◌≤◌, ◌++◌, ◌∷◌, [], All, IfOk, length};
ghost use Rattle.cases_postings.specs.GivenTerms.{IsGiven};
ghost use Rattle.qm_phrase.specs.PhraseTerms.{members_of, offsets_of};

use crate::member::read_places;
use crate::own_postings::OwnPostings;
use crate::spelled::read_number;
use cases::Fault;
use qm_docset::DocSet;
use qm_phrase::PhraseTerms;
use std::alloc::Global;

/// A term with its offset: postings of its own, or the number of those that it shares.
#[derive(Drop)]
pub enum GivenTerm {
    Own(usize, OwnPostings),
    Equal(usize, usize),
}

/// The terms that words `OFFSET:POSITIONS` and `OFFSET~NUMBER` spell.
pub fn read_given(alloc: Global, words: &[&str]) -> Result<Vec<GivenTerm>, Fault>
    ensures { IfOk result (λ given. All IsGiven given.items) }
{
    let mut given = Vec::new(alloc);
    // all so far are cursors, at offsets of 32 bits
    for spelled in words {
        given.push(read_term(alloc, spelled)?)?;
    }
    Ok(given)
}

fn read_term(alloc: Global, spelled: &str) -> Result<GivenTerm, Fault>
    ensures { IfOk result IsGiven }
{
    if let Some((offset, number)) = spelled.split_once('~') {
        let offset = read_number(offset)? as usize;
        return Ok(GivenTerm::Equal(offset, read_number(number)? as usize));
    }
    let (offset, places) = spelled.split_once(':').ok_or(Fault::NotUnderstood)?;
    let offset = read_number(offset)? as usize;
    Ok(GivenTerm::Own(offset, read_places(alloc, places)?))
}

/// These terms, as a phrase takes them.
pub fn share(alloc: Global, given: Vec<GivenTerm>) -> Result<PhraseTerms<OwnPostings>, Fault>
    requires { All IsGiven given.items }
    ensures valid { IfOk result (λ made. All ⟦<OwnPostings as DocSet>⟧.valid (members_of made)) }
    ensures offsets { IfOk result (λ made. All (λ offset. offset ≤ 4294967295) (offsets_of made)) }
    ensures count { IfOk result (λ made. length (offsets_of made) ≡ length given.items) }
{
    let mut made = PhraseTerms::with_capacity(alloc, given.len())?;
    // those so far are there
    for term in given {
        made = match term {
            GivenTerm::Own(offset, postings) => made.with_term(offset, postings)?,
            GivenTerm::Equal(offset, number) => share_one(made, offset, number)?,
        };
    }
    Ok(made)
}

// One more term, which shares the postings of this number, where there are some.
fn share_one(
    made: PhraseTerms<OwnPostings>,
    offset: usize,
    number: usize,
) -> Result<PhraseTerms<OwnPostings>, Fault>
    ensures members { IfOk result (λ more. members_of more ≡ members_of made) }
    ensures offsets { IfOk result (λ more. offsets_of more ≡ offsets_of made ++ offset ∷ []) }
{
    if number >= made.member_count() {
        return Err(Fault::NotAllowed);
    }
    Ok(made.with_equal(offset, number)?)
}
