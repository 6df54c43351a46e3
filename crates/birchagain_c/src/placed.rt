//! Documents whose words are handed in with their places.

ghost use Rattle.std.specs.Prelude.{◌≡◌, ◌≢◌, ◌↔◌, None};
ghost use Rattle.qm_index.specs.Indexed.{indexed};
ghost use Rattle.birchagain.specs.Changes.{IsAdded};
ghost use Rattle.birchagain.specs.Placed.{IsPlacedRefusal, placed_draft};
ghost use Rattle.birchagain_c.specs.Held.{Becomes, IsStatus, content};

use crate::statuses::{EMPTY, status_after};
use birchagain::add_placed;
use birchagain_handle::Handle;
use std::alloc::Global;

/// Adds a document with these words, which stand in the bytes one behind the other and may have spaces; each ends where
/// its number says. The places of each stand one behind the other too, and `length` is the document's.
#[unsafe(no_mangle)]
pub extern "C" fn birchagain_add_placed(
    alloc: Global,
    index: &mut Handle,
    bytes: &[u8],
    ends: &[usize],
    places: &[u32],
    place_ends: &[usize],
    length: u8,
) -> u32
    ensures added { result ≡ 0 → Becomes (IsAdded (placed_draft ends.now place_ends.now bytes.now places.now length))
        index.old.held index.new.held }
    ensures refused { result ≢ 0 → content index.new.held ≡ content index.old.held }
    ensures empty { result ≡ 64 ↔ (index.old.held ≡ None) }
    ensures status { IsStatus (λ i. IsPlacedRefusal ends.now place_ends.now bytes.now places.now length (indexed i).current)
        index.old.held result }
{
    match index.take(alloc) {
        None => EMPTY,
        Some(mut held) => {
            let done = add_placed(alloc, &mut held, bytes, ends, places, place_ends, length);
            index.put(alloc, held);
            status_after(done)
        }
    }
}
