//! The statuses of calls.

ghost use Rattle.std.specs.Prelude.{◌≡◌, ◌<◌, ◌≢◌, ◌++◌, ℕ, List, drop, length, min, take};
ghost use Rattle.birchagain.specs.Statuses.{status_of};
ghost use Rattle.birchagain_c.specs.Statuses.{status_after};

use birchagain::{Refusal, status_text};
use birchagain_bytes::status_text as bytes_status_text;
use birchagain_partitions::merge_status_text;
use birchagain_queries::query_status_text;

/// The call has done what it was asked.
pub(crate) const DONE: u32 = 0;

/// The handle was never opened, or was freed.
pub(crate) const EMPTY: u32 = 64;

/// The status of a call that was refused, or wasn't: never that of an empty handle.
pub(crate) fn status_after(done: Result<(), Refusal>) -> u32
    ensures { result ≡ status_after done }
{
    match done {
        Ok(()) => DONE,
        Err(refusal) => refusal.status(),
    }
}

/// Writes what a status says at the front of `out`, as far as there is room for it, and answers how many bytes all of
/// it has. There is no zero byte behind it.
#[unsafe(no_mangle)]
pub extern "C" fn birchagain_status_text(status: u32, out: &mut [u8]) -> usize
    ensures { (text : List ℕ) × (length text ≡ result) × (out.new ≡ take (length out.old) text ++ drop result out.old) }
{
    let text = text_of(status).as_bytes();
    let count = text.len().min(out.len());
    out[..count].copy_from_slice(&text[..count]);
    text.len()
}

// What a status says, whichever call answers it.
fn text_of(status: u32) -> &'static str {
    if let Some(text) = bytes_status_text(status) {
        return text;
    }
    if let Some(text) = merge_status_text(status) {
        return text;
    }
    if let Some(text) = query_status_text(status) {
        return text;
    }
    status_text(status)
}
