//! How many slots the blocks of a datanode take. Definitions and laws alone.
mod laws;

pub use laws::{blocks_have_slots_of_their_own, slots_are_taken_by_blocks_or_chunks};
