//! A file that a stored segment stands in.

use cases::Fault;
use qm_store::SegmentFile;
use std::alloc::Global;
use std::fs::File;
use std::io::Write;
use std::{fs, io};

// so many names are tried
const NAMES: u32 = 10000;

/// A file of these bytes, which has no name any more; so many of them are left once it is open.
pub fn file_of(
    rt: &HostRuntime,
    alloc: Global,
    bytes: &[u8],
    left: u64,
) -> Result<SegmentFile, Fault> {
    // no file could be made by the names before this one
    for number in 0..NAMES {
        let name = format!(in alloc; "/tmp/cases_store-{number}")?;
        if let Ok(file) = File::create_new(rt, name.as_str()) {
            let removed = fs::remove_file(rt, name.as_str());
            return match filled(file, bytes, left) {
                Ok(file) if removed.is_ok() => Ok(file),
                _ => Err(Fault::NotAllowed),
            };
        }
    }
    Err(Fault::NotAllowed)
}

fn filled(file: File, bytes: &[u8], left: u64) -> io::Result<SegmentFile> {
    let mut file = file;
    file.write_all(bytes)?;
    let same = file.try_clone()?;
    let open = SegmentFile::new(file)?;
    same.set_len(left)?;
    Ok(open)
}
