//! What is said of the text of a query, without an index.
//!
//! Where a query isn't understood is told by a call of its own, so that all others have a parameter fewer.

ghost use Rattle.std.specs.Prelude.{◌≡◌, ◌≢◌, ◌<◌, ◌≤◌, IfErr, IfOk, IsErrOf, OnErr, OnOk, length};
ghost use Rattle.birchagain_c.specs.QueryTexts.{AreTold, AreWordsOf, HaveLess, HaveWords, IsUnderstood, IsUntypedAt, IsWordsRefusal, TellsWords};
ghost use Rattle.birchagain_c.specs.Statuses.{IsTextStatus};
ghost use Rattle.birchagain_queries.specs.Found.{IsQueryRefusal};
ghost use Rattle.birchagain_queries.specs.declared.laid_words.LaidWords.{LaidWords};

use crate::queries::understood;
use crate::query_statuses::status_after_query;
use crate::statuses::DONE;
use birchagain_queries::{LaidWords, QueryRefusal, query_words};
use std::alloc::Global;

/// Fills the fronts of `bytes` and `ends` with the words of a query that weigh anything, one behind the other and where
/// each ends; writes at `bytes_filled` how many bytes these are, and at `words` how many words. Where there is less
/// room, both numbers are written, and the arrays are as they were.
#[unsafe(no_mangle)]
pub extern "C" fn birchagain_query_words(
    alloc: Global,
    language: u32,
    query: &[u8],
    bytes: &mut [u8],
    ends: &mut [usize],
    bytes_filled: &mut usize,
    words: &mut usize,
) -> u32
    ensures told { result ≡ 0 → (laid : LaidWords) × TellsWords language query.now bytes_filled.new words.new laid
        × HaveWords laid bytes.old bytes.new ends.old ends.new }
    ensures room { result ≡ 86 → (laid : LaidWords) × TellsWords language query.now bytes_filled.new words.new laid }
    ensures untouched { result ≢ 0 → (bytes.new ≡ bytes.old) × (ends.new ≡ ends.old) }
    ensures numbers { result ≢ 0 → result ≢ 86 → (bytes_filled.new ≡ bytes_filled.old) × (words.new ≡ words.old) }
    ensures status { IsTextStatus (IsWordsRefusal language query.now (length bytes.old) (length ends.old)) result }
{
    status_after_query(write_words(alloc, language, query, bytes, ends, bytes_filled, words))
}

// Writes the words of a query.
fn write_words(
    alloc: Global,
    language: u32,
    text: &[u8],
    bytes: &mut [u8],
    ends: &mut [usize],
    bytes_filled: &mut usize,
    words: &mut usize,
) -> Result<(), QueryRefusal>
    ensures told { OnOk result ((laid : LaidWords) × TellsWords language text.now bytes_filled.new words.new laid
        × HaveWords laid bytes.old bytes.new ends.old ends.new) }
    ensures room { IsErrOf result QueryRefusal.NoRoom
        → (laid : LaidWords) × TellsWords language text.now bytes_filled.new words.new laid }
    ensures untouched { OnErr result ((bytes.new ≡ bytes.old) × (ends.new ≡ ends.old)) }
    ensures numbers { IfErr result (λ why. why ≢ QueryRefusal.NoRoom → (bytes_filled.new ≡ bytes_filled.old) × (words.new ≡ words.old)) }
    ensures refused { IfErr result (IsWordsRefusal language text.now (length bytes.old) (length ends.old)) }
{
    let laid = laid_words(alloc, language, text)?;
    write_laid(&laid, bytes, ends, bytes_filled, words)
}

// Writes words that stand in bytes, and in any case how many bytes and words they are.
fn write_laid(
    laid: &LaidWords,
    bytes: &mut [u8],
    ends: &mut [usize],
    bytes_filled: &mut usize,
    words: &mut usize,
) -> Result<(), QueryRefusal>
    ensures told { AreTold laid.now bytes_filled.new words.new }
    ensures written { OnOk result (HaveWords laid.now bytes.old bytes.new ends.old ends.new) }
    ensures untouched { OnErr result ((bytes.new ≡ bytes.old) × (ends.new ≡ ends.old)) }
    ensures refused { IfErr result (λ why. (why ≡ QueryRefusal.NoRoom) × HaveLess (length bytes.old) (length ends.old) laid.now) }
{
    let (letters, places) = (laid.bytes.as_slice(), laid.ends.as_slice());
    *bytes_filled = letters.len();
    *words = places.len();
    if bytes.len() < letters.len() || ends.len() < places.len() {
        return Err(QueryRefusal::NoRoom);
    }
    bytes[..letters.len()].copy_from_slice(letters);
    ends[..places.len()].copy_from_slice(places);
    Ok(())
}

// The words of a query that weigh anything, one behind the other.
fn laid_words(alloc: Global, language: u32, text: &[u8]) -> Result<LaidWords, QueryRefusal>
    ensures words { IfOk result (AreWordsOf language text.now) }
    ensures refused { IfErr result (IsQueryRefusal language text.now) }
{
    let query = understood(alloc, language, text)?;
    let found = query_words(alloc, &query)?;
    Ok(LaidWords::new(alloc, &found)?)
}

/// Whether a query is understood, as all calls that take one take it. Where its text is none of the typed language,
/// writes at `place` how many bytes stand before what isn't understood.
#[unsafe(no_mangle)]
pub extern "C" fn birchagain_check_query(
    alloc: Global,
    language: u32,
    query: &[u8],
    place: &mut usize,
) -> u32
    ensures understood { result ≡ 0 → IsUnderstood language query.now }
    ensures placed { 101 ≤ result → IsUntypedAt language query.now result place.new }
    ensures untouched { result < 101 → place.new ≡ place.old }
    ensures status { IsTextStatus (IsQueryRefusal language query.now) result }
{
    match understood(alloc, language, query) {
        Ok(_) => DONE,
        Err(refusal) => {
            if let QueryRefusal::Untyped(untyped) = refusal {
                *place = untyped.at;
            }
            refusal.status()
        }
    }
}
