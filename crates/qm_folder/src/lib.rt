//! A folder of named files, and the order of steps by which an index in it is updated: a crash at any moment leaves the
//! index of before or that of after. Before that, what has changed between the files that an index has kept and those that
//! are found.
#![tactic(auto)]

mod changed;
mod comparing;
mod file_stamp;
mod folder;
mod folder_error;
mod found_file;
mod has_path;
mod kept_file;
mod memory_call;
mod memory_folder;
mod names;
mod new_file;
mod replay;
mod system_folder;
mod updating;

pub use changed::Changes;
pub use comparing::changes;
pub use file_stamp::{FileStamp, SETTLING, is_settled};
pub use folder::Folder;
pub use folder_error::FolderError;
pub use found_file::FoundFile;
pub use has_path::{HasPath, ascend};
pub use kept_file::KeptFile;
pub use memory_call::MemoryCall;
pub use memory_folder::MemoryFolder;
pub use names::is_clean;
pub use new_file::NewFile;
pub use system_folder::SystemFolder;
pub use updating::{MANIFEST, STAGED, update};
