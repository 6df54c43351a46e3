//! An index that is made, and freed.

ghost use Rattle.std.specs.Prelude.{◌≡◌, ◌≢◌, IfOk, IsOkUnless, None};
ghost use Rattle.birchagain_c.specs.Held.{Holds, IsNew};

use crate::statuses::DONE;
use birchagain::new_index;
use birchagain_handle::Handle;
use qm_index::Index;
use qm_schema::QueryError;
use std::alloc::Global;

/// Puts an index without documents into the handle; what it held is freed. Refused for want of memory, and then it
/// holds what it held.
#[unsafe(no_mangle)]
pub extern "C" fn birchagain_open(alloc: Global, index: &mut Handle) -> u32
    ensures opened { result ≡ 0 → Holds IsNew index.new.held }
    ensures refused { result ≢ 0 → (result ≡ 13) × (index.new.held ≡ index.old.held) }
{
    match boxed_index(alloc) {
        Ok(opened) => {
            index.put(alloc, opened);
            DONE
        }
        Err(error) => u32::from(error.number()),
    }
}

// An index without documents, on the heap.
fn boxed_index(alloc: Global) -> Result<Box<Index, Global>, QueryError>
    ensures opened { IfOk result (λ b. IsNew b.value) }
    ensures refused { IsOkUnless result QueryError.Memory }
{
    Ok(Box::new(alloc, new_index(alloc)?)?)
}

/// Frees what the handle holds; it is empty then. Harmless where it is empty.
#[unsafe(no_mangle)]
pub extern "C" fn birchagain_free(alloc: Global, index: &mut Handle)
    ensures freed { index.new.held ≡ None }
{
    let _freed = index.take(alloc);
}
