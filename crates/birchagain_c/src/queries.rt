//! What a query finds, by its text in the language that people type or in that of scripts.
//!
//! Answers are made before the first is written, so that a refused call leaves the buffer as it was.

ghost use Rattle.std.specs.Prelude.{◌≡◌, ◌≢◌, ◌↔◌, IfErr, IfOk, None, OnErr, OnOk, length};
ghost use Rattle.birchagain.specs.Changes.{IsSame};
ghost use Rattle.birchagain_bytes.specs.Fills.{Fills};
ghost use Rattle.birchagain_c.specs.Held.{Holds, content};
ghost use Rattle.birchagain_c.specs.Statuses.{IsQueryStatus};
ghost use Rattle.birchagain_queries.specs.Found.{AreBestOf, IsCountOf, IsQueryRefusal, SaysBy};
ghost use Rattle.qm_script.specs.Spelled.{query_of};

use crate::query_statuses::status_after_query;
use crate::statuses::EMPTY;
use birchagain_handle::Handle;
use birchagain_queries::{Language, QueryRefusal, query_of_text};
use qm_index::Index;
use qm_script::{Hit, SpelledQuery, best_hits, count_hits};
use std::alloc::Global;

/// Writes at `out` how many documents match that weren't deleted.
#[unsafe(no_mangle)]
pub extern "C" fn birchagain_count(
    alloc: Global,
    index: &mut Handle,
    language: u32,
    query: &[u8],
    out: &mut u64,
) -> u32
    ensures same { content index.new.held ≡ content index.old.held }
    ensures counted { result ≡ 0 → Holds (λ i. IsCountOf language query.now i out.new) index.old.held }
    ensures untouched { result ≢ 0 → out.new ≡ out.old }
    ensures empty { result ≡ 64 ↔ (index.old.held ≡ None) }
    ensures status { IsQueryStatus (IsQueryRefusal language query.now) index.old.held result }
{
    match index.take(alloc) {
        None => EMPTY,
        Some(mut held) => {
            let done = write_count(alloc, &mut held, language, query, out);
            index.put(alloc, held);
            status_after_query(done)
        }
    }
}

/// Fills the front of `out` with the best documents that match and weren't deleted, and writes at `filled` how many these
/// are.
#[unsafe(no_mangle)]
pub extern "C" fn birchagain_top(
    alloc: Global,
    index: &mut Handle,
    language: u32,
    query: &[u8],
    out: &mut [Hit],
    filled: &mut usize,
) -> u32
    ensures same { content index.new.held ≡ content index.old.held }
    ensures best { result ≡ 0 → Holds (λ i. Fills (AreBestOf language query.now (length out.old) i) out.old out.new filled.new) index.old.held }
    ensures untouched { result ≢ 0 → (out.new ≡ out.old) × (filled.new ≡ filled.old) }
    ensures empty { result ≡ 64 ↔ (index.old.held ≡ None) }
    ensures status { IsQueryStatus (IsQueryRefusal language query.now) index.old.held result }
{
    match index.take(alloc) {
        None => EMPTY,
        Some(mut held) => {
            let done = write_best(alloc, &mut held, language, query, out, filled);
            index.put(alloc, held);
            status_after_query(done)
        }
    }
}

/// The query that a text says in the language of a number.
pub(crate) fn understood(
    alloc: Global,
    language: u32,
    text: &[u8],
) -> Result<SpelledQuery, QueryRefusal>
    ensures said { IfOk result (λ query. SaysBy language text.now (query_of query)) }
    ensures refused { IfErr result (IsQueryRefusal language text.now) }
{
    match Language::numbered(language) {
        Some(language) => query_of_text(alloc, language, text),
        None => Err(QueryRefusal::NoLanguage),
    }
}

// Writes how many documents of an index match.
fn write_count(
    alloc: Global,
    index: &mut Index,
    language: u32,
    text: &[u8],
    out: &mut u64,
) -> Result<(), QueryRefusal>
    ensures same { IsSame index.old index.new }
    ensures counted { OnOk result (IsCountOf language text.now index.old out.new) }
    ensures untouched { OnErr result (out.new ≡ out.old) }
    ensures refused { IfErr result (IsQueryRefusal language text.now) }
{
    let query = understood(alloc, language, text)?;
    *out = count_hits(alloc, index, &query)?;
    Ok(())
}

// Writes the best documents of an index.
fn write_best(
    alloc: Global,
    index: &mut Index,
    language: u32,
    text: &[u8],
    out: &mut [Hit],
    filled: &mut usize,
) -> Result<(), QueryRefusal>
    ensures same { IsSame index.old index.new }
    ensures best { OnOk result (Fills (AreBestOf language text.now (length out.old) index.old) out.old out.new filled.new) }
    ensures untouched { OnErr result ((out.new ≡ out.old) × (filled.new ≡ filled.old)) }
    ensures refused { IfErr result (IsQueryRefusal language text.now) }
{
    let query = understood(alloc, language, text)?;
    let hits = best_hits(alloc, index, &query, out.len())?;
    let count = hits.len();
    out[..count].copy_from_slice(&hits);
    *filled = count;
    Ok(())
}
