//! Files that have paths.

ghost use Rattle.std.specs.Prelude.{◌≡◌, ◌↔◌, IsTrue, map};
ghost use Rattle.qm_folder.specs.Paths.{Ascend};

/// A file that has a path.
pub trait HasPath {
    ghost use Rattle.qm_folder.specs.Names.{Name};

    /// The bytes of its path.
    ghost path: { Self → Name };

    /// The bytes of its path, in constant time.
    fn path(&self) -> &[u8]
        ensures { result.now ≡ path self.now };
}

/// Whether the paths of files ascend by their bytes, so that none stands twice. Costs a step for each file.
pub fn ascend<F: HasPath>(files: &[F]) -> bool
    ensures { IsTrue result ↔ Ascend (map F.path files.now) }
{
    // those before it ascend
    for place in 1..files.len() {
        if files[place - 1].path().cmp(files[place].path()).is_ge() {
            return false;
        }
    }
    true
}
