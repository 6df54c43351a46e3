//! The lines of an input, read through a buffer.

ghost use Rattle.std.specs.Prelude.{◌≡◌, ℕ, List, false, ◌<◌, ◌≤◌, ◌↔◌, ◌==◌, ◌∷◌, length, Some, IsTrue, IfSome, IfOk, OnOk, position};
ghost use Rattle.std.specs.List.{list_any};
ghost use Rattle.std.specs.Io.BufRead.{first_line, drop_through, strip_last};
ghost use Rattle.qm_script.specs.declared.lines.TheConstants.{CHUNK_LEN};

use crate::runner::RunError;
use std::io::{ErrorKind, Read};

/// How many bytes are asked of the input at once.
const CHUNK_LEN: usize = 4096;

// of so many bytes it is asked at once whether one ends a line
const BLOCK: usize = 16;

/// The bytes that an input has given and that no line has taken yet. One value serves one input to
/// its end.
#[derive(Drop)]
pub struct Lines {
    chunk: [u8; CHUNK_LEN],
    start: usize,
    end: usize,
    ended: bool,
    ghost ordered: { start ≤ end },
    ghost within: { end ≤ CHUNK_LEN },
    ghost read_to_end: { IsTrue ended → start ≡ end },
}

impl Lines {
    ghost use Rattle.qm_script.specs.Lines.{pending, unread, has_break, TakesPiece};

    /// Nothing has been read yet: all lines of the input are still to come.
    pub fn new() -> Lines
        ensures { (bytes : List ℕ) → pending result (Some bytes) ≡ Some bytes }
    {
        Lines {
            chunk: [0; CHUNK_LEN],
            start: 0,
            end: 0,
            ended: false,
        }
    }

    /// Puts the next line into `line`, in place of what stood there, and answers whether there was
    /// one.
    ///
    /// A line ends at byte 10, which is left out, and so is one byte 13 before it. A last line
    /// without byte 10 counts where it isn't empty. `Read` comes where the input answers an error,
    /// other than that it was interrupted, and `Memory` where the line doesn't fit into memory; of
    /// the line that it comes in, nothing is to be used.
    pub fn next_line<R: Read>(
        &mut self,
        input: &mut R,
        line: &mut Vec<u8>,
    ) -> Result<bool, RunError>
        // what is said of an input whose bytes are known
        ensures answer { IfSome (pending self.old (R.remaining input.old))
            (λ bs. IfOk result (λ is_line. IsTrue is_line ↔ (0 < length bs))) }
        ensures line { IfSome (pending self.old (R.remaining input.old))
            (λ bs. OnOk result (line.new.items ≡ first_line bs)) }
        ensures left { IfSome (pending self.old (R.remaining input.old))
            (λ bs. OnOk result (pending self.new (R.remaining input.new) ≡ Some (drop_through 10 bs))) }
    {
        line.clear();
        // the line has what came before its end, and nothing behind it was taken
        for _ in 0..u64::MAX {
            if !self.fill(input)? {
                return Ok(!line.is_empty());
            }
            if self.take_piece(line)? {
                drop_carriage_return(line);
                return Ok(true);
            }
        }
        Err(RunError::Read)
    }

    /// Whether the next line can be answered without a read: whether what was read has its end.
    pub fn has_line(&self) -> bool
        ensures { result ≡ has_break (unread self.now) }
    {
        line_end(&self.chunk[self.start..self.end]).is_some()
    }

    // Moves what is unread to the end of the line, up to the first byte 10, which is left out, and
    // answers whether there was one.
    fn take_piece(&mut self, line: &mut Vec<u8>) -> Result<bool, RunError>
        ensures piece { IfOk result (λ found. TakesPiece found (unread self.old) (unread self.new) line.old.items line.new.items) }
        ensures ended { self.new.ended ≡ self.old.ended }
    {
        let unread = &self.chunk[self.start..self.end];
        match line_end(unread) {
            Some(len) => {
                line.extend_from_slice(&unread[..len])?;
                self.start += len + 1;
                Ok(true)
            }
            None => {
                line.extend_from_slice(unread)?;
                self.start = self.end;
                Ok(false)
            }
        }
    }

    // Reads a further chunk where all of this one is taken, and answers whether something is unread
    // then. After the end of the input nothing more is asked of it.
    fn fill<R: Read>(&mut self, input: &mut R) -> Result<bool, RunError>
        ensures left { IfSome (pending self.old (R.remaining input.old))
            (λ bytes. OnOk result (pending self.new (R.remaining input.new) ≡ Some bytes)) }
        ensures more { IfOk result (λ more. IsTrue more → self.new.start < self.new.end) }
        ensures end { IfOk result (λ more. more ≡ false → IsTrue self.new.ended) }
    {
        if self.start < self.end {
            return Ok(true);
        }
        // nothing was read: each read so far was interrupted
        for _ in 0..u64::MAX {
            if self.ended {
                return Ok(false);
            }
            match input.read(&mut self.chunk) {
                Ok(len) => {
                    self.start = 0;
                    self.end = len;
                    self.ended = len == 0;
                    return Ok(len > 0);
                }
                Err(error) => {
                    if error.kind() != ErrorKind::Interrupted {
                        return Err(RunError::Read);
                    }
                }
            }
        }
        Err(RunError::Read)
    }
}

// Where the first byte 10 stands. Blocks without one are passed by.
fn line_end(bytes: &[u8]) -> Option<usize>
    ensures { result ≡ position (λ b. b == 10) bytes.now }
{
    let mut passed = 0;
    // no byte before passed is 10
    while bytes.len() - passed >= BLOCK && !is_broken(&bytes[passed..passed + BLOCK]) {
        passed += BLOCK;
    }
    Some(passed + first_break(&bytes[passed..])?)
}

// The same, byte by byte.
fn first_break(bytes: &[u8]) -> Option<usize>
    ensures { result ≡ position (λ b. b == 10) bytes.now }
{
    bytes.iter().position(|b| *b == b'\n')
}

// Whether a byte 10 is among these. All are looked at, without a branch that hangs on one.
#[inline]
fn is_broken(bytes: &[u8]) -> bool
    ensures { result ≡ list_any (λ b. b == 10) bytes.now }
{
    let mut broken = false;
    // whether one of the bytes so far is 10
    for b in bytes {
        if *b == b'\n' {
            broken = true;
        }
    }
    broken
}

// Takes one byte 13 from the end.
fn drop_carriage_return(line: &mut Vec<u8>)
    ensures { line.new.items ≡ strip_last 13 line.old.items }
{
    if line.last() == Some(&b'\r') {
        line.truncate(line.len() - 1);
    }
}
