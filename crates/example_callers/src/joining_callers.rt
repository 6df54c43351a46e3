//! An index whose ended segments are made one.

ghost use Rattle.std.specs.Prelude.{◌≡◌, ◌<◌, OnOk, length};
ghost use Rattle.qm_folder.specs.Disk.{Contents};
ghost use Rattle.qm_index.specs.Indexed.{indexed, statistics};
ghost use Rattle.qm_index.specs.Joining.{HaveSameDocuments};
ghost use Rattle.qm_index.specs.Saving.{IsKeptIn};

use qm_index::Index;
use qm_schema::QueryError;
use std::alloc::Global;

/// Makes all ended segments one, where there are several: every document keeps its number, what is deleted stays
/// deleted, and what a folder has of the index it has still. A refused call may have joined some of them.
pub fn join_all_segments(alloc: Global, index: &mut Index) -> Result<(), QueryError>
    ensures one { OnOk result (length (indexed index.new).ended < 2) }
    ensures numbers { HaveSameDocuments (indexed index.old).ended (indexed index.new).ended }
    ensures statistics { statistics index.new ≡ statistics index.old }
    ensures kept { (c : Contents) → IsKeptIn index.old c → IsKeptIn index.new c }
{
    // the ended segments have the documents that they had
    while index.join_last_segments(alloc)? {}
    Ok(())
}
