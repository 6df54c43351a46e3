//! By what a file is known to be unchanged.

ghost use Rattle.std.specs.Prelude.{◌≡◌, ◌+◌, ◌≤◌, ◌↔◌, IsTrue};

/// How many nanoseconds a file has to have stood unchanged when it was read: two seconds.
pub const SETTLING: u64 = 2_000_000_000;

/// By what a file is known to be unchanged: one that has changed has another stamp, but where it changes twice within a
/// tick of the clock by which the system stamps it (`is_settled`).
#[derive(Clone, Copy, Debug, PartialEq, Eq)]
pub struct FileStamp {
    /// how many bytes it has
    pub size: u64,
    /// when its bytes changed last, in nanoseconds since 1970
    pub bytes_changed: u64,
    /// when anything of it changed last, also its name or who may read it
    pub changed: u64,
    /// the number of the file in its file system
    pub inode: u64,
}

/// Whether a file with this stamp, read at a moment, had stood unchanged for long enough, so that each change since gave it
/// another stamp: both of its times lie two seconds (`SETTLING`) before that moment.
pub fn is_settled(stamp: &FileStamp, read_at: u64) -> bool
    ensures { IsTrue result ↔ ((stamp.now.bytes_changed + SETTLING ≤ read_at) × (stamp.now.changed + SETTLING ≤ read_at)) }
{
    let Some(latest) = read_at.checked_sub(SETTLING) else {
        return false;
    };
    stamp.bytes_changed <= latest && stamp.changed <= latest
}
