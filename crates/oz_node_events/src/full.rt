//! A datanode that has no slot left is full by the law. Definitions and laws alone.
mod laws;

pub use laws::{a_filled_datanode_is_full, a_journal_keeps_slots_apart};
