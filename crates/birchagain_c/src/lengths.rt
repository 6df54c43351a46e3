//! What documents of a length count as.

ghost use Rattle.std.specs.Prelude.{◌≡◌, ◌≢◌, ◌↔◌, None};
ghost use Rattle.birchagain.specs.Changes.{IsNormed};
ghost use Rattle.birchagain.specs.Lengths.{IsNormsRefusal};
ghost use Rattle.birchagain_c.specs.Held.{Becomes, IsStatus, content};

use crate::statuses::{EMPTY, status_after};
use birchagain::set_norms;
use birchagain_handle::Handle;
use std::alloc::Global;

/// From now on a document counts as so many words as the norm of its length says: 256 norms, of which the last is that of
/// 255 words and more.
#[unsafe(no_mangle)]
pub extern "C" fn birchagain_set_norms(alloc: Global, index: &mut Handle, norms: &[u32]) -> u32
    ensures set { result ≡ 0 → Becomes (IsNormed norms.now) index.old.held index.new.held }
    ensures refused { result ≢ 0 → content index.new.held ≡ content index.old.held }
    ensures empty { result ≡ 64 ↔ (index.old.held ≡ None) }
    ensures status { IsStatus (λ _. IsNormsRefusal norms.now) index.old.held result }
{
    match index.take(alloc) {
        None => EMPTY,
        Some(mut held) => {
            let done = set_norms(&mut held, norms);
            index.put(alloc, held);
            status_after(done)
        }
    }
}
