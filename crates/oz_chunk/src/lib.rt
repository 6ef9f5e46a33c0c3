//! The slots of a datanode's disk: which of them are taken, and the chunks that stand in them.
#![tactic(auto)]

mod disk;
mod fault;
mod filling;
mod laws;
mod loading;
mod slots;
mod table;

pub use fault::{SlotFault, SlotFull};
pub use laws::{a_chunk_is_read_as_it_was_written, writes_keep_the_other_slots};
pub use slots::Slots;
pub use table::{CAPACITY, SLOT_SIZE, SLOTS};
