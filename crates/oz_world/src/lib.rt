//! The outside world as the store sees it: where a script comes from, where the report goes, disks
//! that may stop at any moment, and an implementation of each in memory.
#![tactic(auto)]

mod calls;
mod disk;
mod failed;
mod gate;
mod history;
mod laws;
mod memory_disk;
mod memory_sink;
mod memory_source;
mod put;
mod sink;
mod source;

pub use disk::Disk;
pub use failed::Failed;
pub use gate::{Gate, OpenGate, Point};
pub use laws::{
    a_cut_in_part_keeps_what_stands_before_it, a_cut_may_come_about_wholly_or_not_at_all,
    a_torn_write_keeps_the_rest, a_write_may_come_about_wholly_or_not_at_all,
};
pub use memory_disk::MemoryDisk;
pub use memory_sink::MemorySink;
pub use memory_source::MemorySource;
pub use sink::Sink;
pub use source::Source;
pub use std::alloc::AllocError as OutOfMemory;
