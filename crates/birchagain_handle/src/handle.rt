//! An index on the heap, as the pointer that C holds.
//!
//! The handle is a struct in the caller's memory, which can say that it is empty. So a call after a free is refused.

ghost use Rattle.std.specs.Prelude.{◌≡◌, None, Option, Some};
ghost use Rattle.qm_index.specs.declared.index.Index.{Index};
ghost use Rattle.std.specs.Coded.{coded_option};
ghost use types.Logic.{sem};
ghost use Rattle.birchagain_handle.specs.Held.{handle_owns, box_held, raw_box_held};
ghost use Rattle.qm_index.specs.contracts.index.Index.{the_row as index_row};

use crate::raw_box::RawBox;
use qm_index::Index;
use std::alloc::Global;
use std::marker::{Model, Send};
use std::mem::replace;

/// A place for an index in the memory of C, which holds it, moves it and never looks in. It is one pointer, which is
/// null where there is no index: so all zero bytes are an empty handle.
#[repr(C)]
pub struct Handle {
    at: *mut u8,
    pub ghost held: { Option Index } by { coded_option index_row.coded },
}

impl Model for Handle {
    ghost also_owns = { λ h. handle_owns index_row h.at h.held };
}

// C may hand it to another thread.
unsafe impl Send for Handle {}

impl Handle {
    /// A handle that holds no index.
    pub fn empty() -> Handle
        ensures { result.held ≡ None }
    {
        Handle {
            at: std::ptr::null_mut(),
        }
    }

    // A handle of what was in a box.
    fn holding(content: RawBox<Index, Global>) -> Handle
        ensures { result.held ≡ Some content.value }
    {
        let RawBox { at, alloc: _ } = content;
        Handle { at: at as *mut u8 }
    }

    // The parts of the box that it holds, if there is one.
    fn into_raw_box(self, alloc: Global) -> Option<RawBox<Index, Global>>
        ensures { raw_box_held result ≡ self.held }
    {
        let Handle { at } = self;
        if at.is_null() {
            return None;
        }
        Some(RawBox {
            at: at as *mut Index,
            alloc,
        })
    }

    /// Takes the index out, if there is one. Takes no memory.
    pub fn take(&mut self, alloc: Global) -> Option<Box<Index, Global>>
        ensures { (box_held result ≡ self.old.held) × (self.new.held ≡ None) }
    {
        match replace(self, Handle::empty()).into_raw_box(alloc) {
            Some(content) => Some(content.into_box()),
            None => None,
        }
    }

    /// Puts an index in. What was there is freed. Takes no memory.
    pub fn put(&mut self, alloc: Global, content: Box<Index, Global>)
        ensures { self.new.held ≡ Some content.value }
    {
        match replace(self, Handle::holding(RawBox::from_box(content))).into_raw_box(alloc) {
            Some(old) => drop(old.into_box()),
            None => {}
        }
    }

    /// Ends the handle, and frees what it holds.
    pub fn close(self, alloc: Global) {
        match self.into_raw_box(alloc) {
            Some(old) => drop(old.into_box()),
            None => {}
        }
    }
}
