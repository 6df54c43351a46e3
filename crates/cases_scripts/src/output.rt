//! An output of the case's own.

use crate::turns::Turns;
use crate::watch::Watch;
use std::alloc::{AllocError, Global};
use std::io;
use std::io::Write;

// room for a text, so that taking it asks for no memory
const ROOM: usize = 16384;

/// An output that takes a text as its turns say.
#[derive(Drop)]
pub struct Output<'a> {
    text: Vec<u8>,
    pub writes: Turns,
    pub flushes: Turns,
    watch: &'a Watch,
}

impl<'a> Output<'a> {
    /// An output that has taken nothing.
    pub fn new(
        alloc: Global,
        writes: Turns,
        flushes: Turns,
        watch: &'a Watch,
    ) -> Result<Output<'a>, AllocError> {
        Ok(Output {
            text: Vec::with_capacity(alloc, ROOM)?,
            writes,
            flushes,
            watch,
        })
    }

    /// What was written.
    pub fn into_text(self) -> Vec<u8> {
        self.text
    }
}

impl<'a> Write for Output<'a> {
    fn write(&mut self, buf: &[u8]) -> io::Result<usize> {
        self.watch.begin_call();
        let turn = self.writes.next();
        let most = self.watch.answer(turn)?;
        let count = most.min(buf.len());
        if count == 0 && !buf.is_empty() {
            self.watch.fail();
        }
        self.text.extend_from_slice(&buf[..count])?;
        Ok(count)
    }

    fn flush(&mut self) -> io::Result<()> {
        self.watch.begin_call();
        match self.flushes.next() {
            Ok(_) => {
                self.watch.flushed.set(self.text.len());
                Ok(())
            }
            // a flush that was interrupted is not made again
            Err(kind) => {
                self.watch.fail();
                Err(io::Error::from(kind))
            }
        }
    }
}
