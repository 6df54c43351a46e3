//! Documents that are added and deleted.

ghost use Rattle.std.specs.Prelude.{◌≡◌, ◌≢◌, ◌↔◌, ◌⊎◌, IsUtf8, None};
ghost use Rattle.qm_index.specs.Indexed.{IsRefreshed, all_segments, indexed};
ghost use Rattle.qm_index.specs.Numbers.{count_of};
ghost use Rattle.birchagain.specs.Adding.{IsAddRefusal};
ghost use Rattle.birchagain.specs.Body.{text_draft, words_draft};
ghost use Rattle.birchagain.specs.Changes.{IsAdded, IsDeleted, IsEnded, IsSame};
ghost use Rattle.birchagain.specs.CutWords.{AreWords, words_from};
ghost use Rattle.birchagain.specs.Refusals.{IsDeleteRefusal, IsEndRefusal, IsMemory};
ghost use Rattle.birchagain_c.specs.Held.{Becomes, Holds, IsStatus, content};

use crate::statuses::{DONE, EMPTY, status_after};
use birchagain::{add_text, add_words, delete, end_segment, refresh};
use birchagain_handle::Handle;
use std::alloc::Global;

/// Adds a document with the words of a text, which spaces part.
#[unsafe(no_mangle)]
pub extern "C" fn birchagain_add_text(alloc: Global, index: &mut Handle, text: &[u8]) -> u32
    ensures added { result ≡ 0 → Becomes (IsAdded (text_draft text.now)) index.old.held index.new.held }
    ensures refused { result ≢ 0 → content index.new.held ≡ content index.old.held }
    ensures empty { result ≡ 64 ↔ (index.old.held ≡ None) }
    ensures status { IsStatus (λ i. IsAddRefusal (IsUtf8 text.now) (indexed i).current (text_draft text.now)) index.old.held result }
{
    match index.take(alloc) {
        None => EMPTY,
        Some(mut held) => {
            let done = add_text(alloc, &mut held, text);
            index.put(alloc, held);
            status_after(done)
        }
    }
}

/// Adds a document with these words, which stand in the bytes one behind the other; each ends where its number says.
#[unsafe(no_mangle)]
pub extern "C" fn birchagain_add_words(
    alloc: Global,
    index: &mut Handle,
    bytes: &[u8],
    ends: &[usize],
) -> u32
    ensures added { result ≡ 0 → Becomes (IsAdded (words_draft (words_from 0 ends.now bytes.now))) index.old.held index.new.held }
    ensures refused { result ≢ 0 → content index.new.held ≡ content index.old.held }
    ensures empty { result ≡ 64 ↔ (index.old.held ≡ None) }
    ensures status { IsStatus (λ i. IsAddRefusal (AreWords 0 ends.now bytes.now) (indexed i).current
        (words_draft (words_from 0 ends.now bytes.now))) index.old.held result }
{
    match index.take(alloc) {
        None => EMPTY,
        Some(mut held) => {
            let done = add_words(alloc, &mut held, bytes, ends);
            index.put(alloc, held);
            status_after(done)
        }
    }
}

/// Deletes the document of this number.
#[unsafe(no_mangle)]
pub extern "C" fn birchagain_delete(alloc: Global, index: &mut Handle, number: u64) -> u32
    ensures deleted { result ≡ 0 → Becomes (IsDeleted number) index.old.held index.new.held }
    ensures refused { result ≢ 0 → content index.new.held ≡ content index.old.held }
    ensures empty { result ≡ 64 ↔ (index.old.held ≡ None) }
    ensures status { IsStatus (λ i. IsDeleteRefusal number (indexed i)) index.old.held result }
{
    match index.take(alloc) {
        None => EMPTY,
        Some(mut held) => {
            let done = delete(alloc, &mut held, number);
            index.put(alloc, held);
            status_after(done)
        }
    }
}

/// Ends the open segment, and opens another.
#[unsafe(no_mangle)]
pub extern "C" fn birchagain_end_segment(alloc: Global, index: &mut Handle) -> u32
    ensures ended { result ≡ 0 → Becomes IsEnded index.old.held index.new.held }
    ensures refused { result ≢ 0 → content index.new.held ≡ content index.old.held }
    ensures empty { result ≡ 64 ↔ (index.old.held ≡ None) }
    ensures status { IsStatus (λ i. IsEndRefusal (indexed i)) index.old.held result }
{
    match index.take(alloc) {
        None => EMPTY,
        Some(mut held) => {
            let done = end_segment(alloc, &mut held);
            index.put(alloc, held);
            status_after(done)
        }
    }
}

/// Builds what was added, so that the next query need not.
#[unsafe(no_mangle)]
pub extern "C" fn birchagain_refresh(alloc: Global, index: &mut Handle) -> u32
    ensures same { content index.new.held ≡ content index.old.held }
    ensures refreshed { result ≡ 0 → Holds IsRefreshed index.new.held }
    ensures empty { result ≡ 64 ↔ (index.old.held ≡ None) }
    ensures status { IsStatus (λ _. IsMemory) index.old.held result }
{
    match index.take(alloc) {
        None => EMPTY,
        Some(mut held) => {
            let done = refresh(alloc, &mut held);
            index.put(alloc, held);
            status_after(done)
        }
    }
}

/// Writes at `out` how many documents were added, deleted ones too.
#[unsafe(no_mangle)]
pub extern "C" fn birchagain_documents(alloc: Global, index: &mut Handle, out: &mut u64) -> u32
    ensures same { index.new.held ≡ index.old.held }
    ensures counted { result ≡ 0 → Holds (λ i. out.new ≡ count_of (all_segments (indexed i))) index.old.held }
    ensures untouched { result ≢ 0 → out.new ≡ out.old }
    ensures empty { result ≡ 64 ↔ (index.old.held ≡ None) }
    ensures status { (result ≡ 0) ⊎ (result ≡ 64) }
{
    match index.take(alloc) {
        None => EMPTY,
        Some(held) => {
            *out = held.document_count();
            index.put(alloc, held);
            DONE
        }
    }
}
