//! What tells whether a file has changed.

use qm_folder::FileStamp;
use std::fs::Metadata;
use std::os::unix::fs::MetadataExt;

/// How many nanoseconds a second has.
const SECOND: u64 = 1_000_000_000;

/// The stamp of a file.
pub fn stamp_of(metadata: &Metadata) -> FileStamp {
    FileStamp {
        size: metadata.len(),
        bytes_changed: nanoseconds(metadata.mtime(), metadata.mtime_nsec()),
        changed: nanoseconds(metadata.ctime(), metadata.ctime_nsec()),
        inode: metadata.ino(),
    }
}

// A moment in nanoseconds since 1970, which none before has.
fn nanoseconds(seconds: i64, rest: i64) -> u64 {
    let seconds = u64::try_from(seconds).unwrap_or(0);
    let rest = u64::try_from(rest).unwrap_or(0);
    seconds.saturating_mul(SECOND).saturating_add(rest)
}
