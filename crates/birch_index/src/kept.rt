//! An index of files that is kept between runs, so that a search reads anew only what has changed.

mod above;
mod all_places;
mod catalogue;
mod catalogue_bytes;
mod forgetting;
mod gone;
mod home;
mod keys;
mod loaded;
mod lock;
mod marks;
mod names;
mod numbers;
mod opening;
mod plan;
mod reading;
mod renewed;
mod segment;
mod segments;
mod staying;
mod trouble;
mod updating;
mod using;
mod writing;

pub use home::folder_of_indexes;
pub use segments::KeptSegments;
pub use trouble::Trouble;
pub use using::{Use, after_trouble, forget_kept, kept_index};
