//! Several postings as one.

mod bitset_union;
mod members;
mod simple_union;

pub use bitset_union::BitSetPostingUnion;
pub use simple_union::SimpleUnion;
