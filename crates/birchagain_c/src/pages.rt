//! The documents that a query finds, a page at a time.
//!
//! Nothing is kept between two calls, so no iterator has to be freed; the buffer is the caller's.

ghost use Rattle.std.specs.Prelude.{◌≡◌, ◌≢◌, ◌↔◌, IfErr, None, OnErr, OnOk, length};
ghost use Rattle.birchagain.specs.Changes.{IsSame};
ghost use Rattle.birchagain_bytes.specs.Fills.{Fills};
ghost use Rattle.birchagain_c.specs.Held.{Holds, content};
ghost use Rattle.birchagain_c.specs.Statuses.{IsQueryStatus};
ghost use Rattle.birchagain_queries.specs.Found.{IsPageOf, IsQueryRefusal};

use crate::queries::understood;
use crate::query_statuses::status_after_query;
use crate::statuses::EMPTY;
use birchagain_handle::Handle;
use birchagain_queries::QueryRefusal;
use qm_index::Index;
use qm_script::page_hits;
use std::alloc::Global;

/// Fills the front of `out` with the documents that match and weren't deleted, ascending, from the number `from` on,
/// and writes at `filled` how many these are. The next page begins one past the last of them.
#[unsafe(no_mangle)]
pub extern "C" fn birchagain_page(
    alloc: Global,
    index: &mut Handle,
    language: u32,
    query: &[u8],
    from: u64,
    out: &mut [u64],
    filled: &mut usize,
) -> u32
    ensures same { content index.new.held ≡ content index.old.held }
    ensures page { result ≡ 0 → Holds (λ i. Fills (IsPageOf language query.now from (length out.old) i) out.old out.new filled.new) index.old.held }
    ensures untouched { result ≢ 0 → (out.new ≡ out.old) × (filled.new ≡ filled.old) }
    ensures empty { result ≡ 64 ↔ (index.old.held ≡ None) }
    ensures status { IsQueryStatus (IsQueryRefusal language query.now) index.old.held result }
{
    match index.take(alloc) {
        None => EMPTY,
        Some(mut held) => {
            let done = write_page(alloc, &mut held, language, query, from, out, filled);
            index.put(alloc, held);
            status_after_query(done)
        }
    }
}

// Writes those of its documents that match from a number on.
fn write_page(
    alloc: Global,
    index: &mut Index,
    language: u32,
    text: &[u8],
    from: u64,
    out: &mut [u64],
    filled: &mut usize,
) -> Result<(), QueryRefusal>
    ensures same { IsSame index.old index.new }
    ensures page { OnOk result (Fills (IsPageOf language text.now from (length out.old) index.old) out.old out.new filled.new) }
    ensures untouched { OnErr result ((out.new ≡ out.old) × (filled.new ≡ filled.old)) }
    ensures refused { IfErr result (IsQueryRefusal language text.now) }
{
    let query = understood(alloc, language, text)?;
    let documents = page_hits(alloc, index, &query, from, out.len())?;
    let count = documents.len();
    out[..count].copy_from_slice(&documents);
    *filled = count;
    Ok(())
}
