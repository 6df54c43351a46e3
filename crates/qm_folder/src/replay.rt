//! What calls, the last first, have made of a folder.

ghost use Rattle.std.specs.Prelude.{◌≡◌, Bool, ℕ, List, IfOk, OnOk, is_some, option_map};
ghost use Rattle.qm_folder.specs.Names.{AreDistinct, Name, is_among, names_of};
ghost use Rattle.qm_folder.specs.Memory;
ghost use Rattle.qm_folder.specs.Memory.{IsAdded, could_leave, is_written, name_given, same_content};

use crate::MemoryCall;
use crate::names::is_there;
use std::alloc::{AllocError, Global};

// The bytes of a file; none where no file of that name stands.
pub fn seen_after<'a>(calls: &'a [MemoryCall], name: &str) -> Option<&'a [u8]>
    ensures { option_map (λ b. b.now) result ≡ Memory.seen_after calls.now name.now }
{
    match calls {
        [] => None,
        [
            MemoryCall::Wrote(other, bytes) | MemoryCall::Tore(other, bytes),
            past @ ..,
        ] => {
            if name == other.as_str() {
                Some(bytes.as_slice())
            } else {
                seen_after(past, name)
            }
        }
        [MemoryCall::Renamed(source, target), past @ ..] => {
            if name == target.as_str() {
                seen_after(past, source.as_str())
            } else if name == source.as_str() {
                None
            } else {
                seen_after(past, name)
            }
        }
        [MemoryCall::Removed(other), past @ ..] => {
            if name == other.as_str() {
                None
            } else {
                seen_after(past, name)
            }
        }
        [_, past @ ..] => seen_after(past, name),
    }
}

// Whether what stands under a name is on the disk, but perhaps not under that name.
fn is_written_after(calls: &[MemoryCall], name: &str) -> bool
    ensures { result ≡ is_written calls.now name.now }
{
    match calls {
        [] => true,
        [
            MemoryCall::Wrote(other, _) | MemoryCall::Tore(other, _),
            past @ ..,
        ] => { name != other.as_str() && is_written_after(past, name) }
        [
            MemoryCall::Synced(other) | MemoryCall::Removed(other),
            past @ ..,
        ] => { name == other.as_str() || is_written_after(past, name) }
        [MemoryCall::Renamed(source, target), past @ ..] => {
            if name == target.as_str() {
                is_written_after(past, source.as_str())
            } else {
                name == source.as_str() || is_written_after(past, name)
            }
        }
        [_, past @ ..] => is_written_after(past, name),
    }
}

fn is_same(a: Option<&[u8]>, b: Option<&[u8]>) -> bool
    ensures { result ≡ same_content (option_map (λ x. x.now) a.entry) (option_map (λ x. x.now) b.entry) }
{
    match (a, b) {
        (None, None) => true,
        (Some(a), Some(b)) => a == b,
        _ => false,
    }
}

// Whether a crash may leave this under a name.
pub fn could_leave_after(calls: &[MemoryCall], name: &str, content: Option<&[u8]>) -> bool
    ensures { result ≡ could_leave calls.now name.now (option_map (λ b. b.now) content.entry) }
{
    match calls {
        [] => content.is_none(),
        [
            MemoryCall::Wrote(other, _) | MemoryCall::Tore(other, _),
            past @ ..,
        ] => { name == other.as_str() || could_leave_after(past, name, content) }
        [MemoryCall::SyncedNames, past @ ..] => {
            (!is_written_after(past, name) || is_same(content, seen_after(past, name)))
                && could_leave_after(past, name, content)
        }
        [MemoryCall::Renamed(source, target), past @ ..] => {
            let moved = if name == target.as_str() {
                could_leave_after(past, source.as_str(), content)
            } else {
                name == source.as_str() && content.is_none()
            };
            moved || could_leave_after(past, name, content)
        }
        [MemoryCall::Removed(other), past @ ..] => {
            (name == other.as_str() && content.is_none()) || could_leave_after(past, name, content)
        }
        [_, past @ ..] => could_leave_after(past, name, content),
    }
}

// The names under which files stand, each once.
pub fn names_after(alloc: Global, calls: &[MemoryCall]) -> Result<Vec<String>, AllocError>
    ensures once { IfOk result (λ v. AreDistinct (names_of v.items)) }
    ensures names { IfOk result (λ v. (n : Name) → is_among (names_of v.items) n ≡ is_some (Memory.seen_after calls.now n)) }
{
    let mut names = Vec::new(alloc);
    // what is there, and what stands of the names that calls from this one on give, is all
    for call in calls {
        match given_name(call) {
            Some(name) => add_name(alloc, &mut names, name, calls)?,
            None => {}
        }
    }
    Ok(names)
}

// The name under which a call puts a file.
fn given_name(call: &MemoryCall) -> Option<&str>
    ensures { option_map (λ n. n.now) result ≡ name_given call.now }
{
    match call {
        MemoryCall::Wrote(name, _) | MemoryCall::Tore(name, _) | MemoryCall::Renamed(_, name) => {
            Some(name.as_str())
        }
        _ => None,
    }
}

// Adds a name under which a file stands, where it is not there.
fn add_name(
    alloc: Global,
    names: &mut Vec<String>,
    name: &str,
    calls: &[MemoryCall],
) -> Result<(), AllocError>
    ensures once { OnOk result (AreDistinct (names_of names.old.items) → AreDistinct (names_of names.new.items)) }
    ensures added { OnOk result (IsAdded name.now calls.now (names_of names.old.items) (names_of names.new.items)) }
{
    if seen_after(calls, name).is_none() || is_there(names, name) {
        return Ok(());
    }
    names.push(String::from_str(alloc, name)?)?;
    Ok(())
}
