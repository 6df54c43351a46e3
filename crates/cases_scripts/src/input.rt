//! An input of the case's own.

use crate::script::Script;
use crate::turns::Turns;
use crate::watch::Watch;
use std::io;
use std::io::Read;

/// An input that gives the first bytes of a script, as its turns say, and looks before each read whether all
/// lines that it has given whole are answered.
#[derive(Drop)]
pub struct Input<'a> {
    script: &'a Script,
    // what of it is still to be given
    left: &'a [u8],
    given: usize,
    pub reads: Turns,
    /// the number of the first read that came before an answer was flushed; 0 where none did
    pub early: u64,
    watch: &'a Watch,
}

impl<'a> Input<'a> {
    /// An input that gives so many bytes of a script.
    pub fn new(script: &'a Script, length: usize, reads: Turns, watch: &'a Watch) -> Input<'a> {
        Input {
            script,
            left: script.beginning(length),
            given: 0,
            reads,
            early: 0,
            watch,
        }
    }

    /// How much of the text is to be written by now: the answers of the lines that were given whole.
    pub fn owed(&self) -> usize {
        self.script.owed(self.given)
    }
}

impl<'a> Read for Input<'a> {
    fn read(&mut self, buf: &mut [u8]) -> io::Result<usize> {
        self.watch.begin_call();
        if self.early == 0 && self.watch.flushed.get() != self.owed() {
            self.early = self.reads.made.saturating_add(1);
        }
        let turn = self.reads.next();
        let most = self.watch.answer(turn)?;
        let most = most.min(buf.len());
        let count = self.left.read(&mut buf[..most])?;
        self.given = self.given.saturating_add(count);
        Ok(count)
    }
}
