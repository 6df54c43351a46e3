//! Memory that is refused. `tests/native/refuse_memory.c`, where it is preloaded, hears a request of an
//! impossible size; without it such a request just fails, and nothing is refused.

use std::alloc::Global;

/// Which requests for memory are refused as a call is made.
#[derive(Clone, Copy, PartialEq, Eq)]
pub enum Memory {
    Ample,
    /// The request of this number, counted from 1.
    Refused(u32),
    /// The first request, and all behind it.
    None,
    /// Each request of more than so many bytes.
    Over(u32),
}

impl Memory {
    /// From now on these requests are refused.
    pub fn begin(self, alloc: Global) {
        match self {
            Memory::Ample => refuse(alloc, 0),
            Memory::Refused(number) => refuse(alloc, number as usize),
            Memory::None => refuse(alloc, (1 << 60) + 1),
            Memory::Over(bytes) => refuse(alloc, (1 << 58) + bytes as usize),
        }
    }
}

/// From now on no request is refused.
pub fn end_refusals(alloc: Global) {
    refuse(alloc, 0);
}

/// Whether a refusal is heard.
pub fn is_heard(alloc: Global) -> bool {
    Memory::None.begin(alloc);
    is_next_refused(alloc)
}

/// Whether the request that was to be refused last, and it alone, never came. A call that succeeds where
/// it did come went on behind a refusal.
pub fn is_awaited(alloc: Global) -> bool {
    refuse(alloc, 1 << 59);
    is_next_refused(alloc)
}

// Whether the next request is refused; none behind it is.
fn is_next_refused(alloc: Global) -> bool {
    let is_refused = Vec::<u8>::with_capacity(alloc, 1).is_err();
    end_refusals(alloc);
    is_refused
}

fn refuse(alloc: Global, which: usize) {
    let _ = Vec::<u8>::with_capacity(alloc, (1usize << 61) | which);
}
