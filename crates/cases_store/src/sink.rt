//! What a segment is written into: bytes of the case's own.

use std::alloc::{AllocError, Global};
use std::io;
use std::io::{ErrorKind, Write};

// room for what is written, so that none need be asked for as it is
const ROOM: usize = 65536;

/// How writes are taken.
#[derive(Clone, Copy)]
pub struct Manner {
    /// so many bytes at once at most
    pub most: usize,
    /// whether each write is interrupted once before it is taken
    pub is_interrupted: bool,
    /// the number of the write that is refused, from 1 on; none where it is 0
    pub refused: u32,
}

impl Manner {
    /// All that is written is taken at once.
    pub fn whole() -> Manner {
        Manner {
            most: usize::MAX,
            is_interrupted: false,
            refused: 0,
        }
    }
}

/// The bytes that were taken.
#[derive(Drop)]
pub struct Sink {
    pub bytes: Vec<u8>,
    manner: Manner,
    writes: u32,
    was_interrupted: bool,
}

impl Sink {
    /// One that has taken none.
    pub fn new(alloc: Global, manner: Manner) -> Result<Sink, AllocError> {
        Ok(Sink {
            bytes: Vec::with_capacity(alloc, ROOM)?,
            manner,
            writes: 0,
            was_interrupted: false,
        })
    }

    /// Whether the write that was to be refused came, and no other behind it.
    pub fn was_refused_last(&self) -> bool {
        self.manner.refused > 0 && self.writes == self.manner.refused
    }
}

impl Write for Sink {
    fn write(&mut self, buf: &[u8]) -> io::Result<usize> {
        self.was_interrupted = self.manner.is_interrupted && !self.was_interrupted;
        if self.was_interrupted {
            return Err(io::Error::from(ErrorKind::Interrupted));
        }
        self.writes = self.writes.saturating_add(1);
        if self.writes == self.manner.refused {
            return Err(io::Error::from(ErrorKind::BrokenPipe));
        }
        let count = self.manner.most.min(buf.len());
        self.bytes.extend_from_slice(&buf[..count])?;
        Ok(count)
    }

    fn flush(&mut self) -> io::Result<()> {
        Ok(())
    }
}
