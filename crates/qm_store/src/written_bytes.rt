//! Bytes that are given to a writer.

ghost use Rattle.std.specs.Prelude.{◌≡◌, IsOkUnless, OnOk};
ghost use Rattle.std.specs.Io.KnownBytes.{Appends};

use crate::store_error::StoreError;
use std::io::Write;

// Writes all these bytes.
pub(crate) fn write_bytes<W: Write>(bytes: &[u8], out: &mut W) -> Result<(), StoreError>
    ensures written { OnOk result (Appends (W.contents out.old) (W.contents out.new) bytes.now) }
    ensures refused { IsOkUnless result StoreError.Failed }
{
    match out.write_all(bytes) {
        Ok(()) => Ok(()),
        Err(_) => Err(StoreError::Failed),
    }
}
