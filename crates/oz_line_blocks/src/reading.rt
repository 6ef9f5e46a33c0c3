//! A line reads a piece of a key at the members of its block. Where none gives it, it is known of each why: that it has
//! refused the block, or told that it is bad, stays so; and one that hasn't the block may come to have it.
mod copied;
mod lack;
mod member;
mod noted;
mod reading;
mod wanted;
mod watching;

pub use lack::{Doubted, Lack};
pub use reading::{Reading, read_at_members};
