//! An index on the heap, as a handle that C can hold.
#![tactic(auto)]

mod handle;
mod raw_box;

pub use handle::Handle;
