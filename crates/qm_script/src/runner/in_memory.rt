//! A script in memory, whose bytes are known: what it writes is what its lines are answered.

ghost use Rattle.std.specs.Prelude.{IfOk, ℕ};
ghost use Rattle.qm_script.specs.Runs.{Answers};

use super::{RunError, run_buffered};
use std::alloc::Global;

/// The text that the script writes, where it runs to its end. The program itself reads standard input,
/// of which nothing is known; this shows what the contract of [`run_buffered`] says to one who has the
/// script.
///
/// Refused with `Memory` as `run_buffered` is, and with `Write` where there is no memory for the text.
pub fn text_of(alloc: Global, script: &[u8]) -> Result<Vec<u8>, RunError>
    ensures { IfOk result (λ text. (status : ℕ) × Answers script.now text.items status) }
{
    let mut input = script;
    let (_status, text) = run_buffered(alloc, &mut input, Vec::new(alloc))?;
    Ok(text)
}
