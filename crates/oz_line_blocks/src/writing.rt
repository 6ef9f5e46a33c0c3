//! A line writes a block that it was granted: at its three members, and then in the story, where two of them put it.
mod answering;
mod fault;
mod looking;
mod noted;
mod telling;
mod writing;

pub use fault::Unwritten;
pub use writing::write_to_members;
