//! The files that an index has kept, beside those that are found.

ghost use Rattle.std.specs.Prelude.{◌≡◌, [], ◌∷◌, ◌++◌, ◌-◌, ◌≤◌, ◌&&◌, if◌then◌else◌, IfOk, IsOkUnless, OnOk, map};
ghost use Rattle.std.specs.List.{range_with_len};
ghost use Rattle.qm_folder.specs.Changes.{found_path, gone, kept_path, same_stamp, to_read};
ghost use Rattle.qm_folder.specs.Paths.{Ascend};

use crate::{Changes, FolderError, FoundFile, KeptFile};
use std::alloc::Global;
use std::cmp::Ordering;

/// What has changed between the files that an index has kept and those that are found. A kept file stays exactly where its
/// path is found with the stamp under which it was read, and it is settled; all others are gone. To be read is each found
/// file that no kept file stays for.
///
/// Asked is that the paths of both ascend, each once, by their bytes (`ascend`). Costs a step for each kept and each found
/// file, and no memory but that of the answer.
///
/// Refused for want of memory alone.
pub fn changes(
    alloc: Global,
    kept: &[KeptFile],
    found: &[FoundFile],
) -> Result<Changes, FolderError>
    requires kept_ascend { Ascend (map kept_path kept.now) }
    requires found_ascend { Ascend (map found_path found.now) }
    ensures gone { IfOk result (λ c. c.gone.items ≡ gone kept.now found.now) }
    ensures to_read { IfOk result (λ c. c.to_read.items ≡ to_read kept.now found.now) }
    ensures refused { IsOkUnless result FolderError.Memory }
{
    let mut gone = Vec::new(alloc);
    let mut to_read = Vec::new(alloc);
    let mut at = 0usize;
    let mut place = 0usize;
    // Of the files before both places all is listed, and none of them has the path of one from there on.
    while at < kept.len() && place < found.len() {
        let one = &kept[at];
        let other = &found[place];
        match one.path.as_slice().cmp(other.path.as_slice()) {
            Ordering::Less => {
                gone.push(at)?;
                at += 1;
            }
            Ordering::Greater => {
                to_read.push(place)?;
                place += 1;
            }
            Ordering::Equal => {
                let stays = is_unchanged(one, other);
                push_unless(&mut gone, at, stays)?;
                push_unless(&mut to_read, place, stays)?;
                at += 1;
                place += 1;
            }
        }
    }
    push_all(&mut gone, at, kept.len())?;
    push_all(&mut to_read, place, found.len())?;
    Ok(Changes { gone, to_read })
}

// Whether a kept file stays beside a found one of its path.
fn is_unchanged(kept: &KeptFile, found: &FoundFile) -> bool
    ensures { result ≡ (kept.now.settled && same_stamp kept.now.stamp found.now.stamp) }
{
    kept.settled && kept.stamp == found.stamp
}

// Adds a place, but not that of a file that stays.
fn push_unless(places: &mut Vec<usize>, place: usize, stays: bool) -> Result<(), FolderError>
    ensures added { OnOk result (places.new.items ≡ places.old.items ++ (if stays then [] else place ∷ [])) }
    ensures refused { IsOkUnless result FolderError.Memory }
{
    if !stays {
        places.push(place)?;
    }
    Ok(())
}

// Adds the numbers from one on, below another.
fn push_all(places: &mut Vec<usize>, from: usize, end: usize) -> Result<(), FolderError>
    requires { from ≤ end }
    ensures added { OnOk result (places.new.items ≡ places.old.items ++ range_with_len from (end - from)) }
    ensures refused { IsOkUnless result FolderError.Memory }
{
    // those before it are there
    for place in from..end {
        places.push(place)?;
    }
    Ok(())
}
