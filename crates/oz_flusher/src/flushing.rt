//! The flusher behind a lock, with its seat of the turn: whoever finds the lock free flushes.
mod flushing;
mod halting;
mod laws;
mod mounted;
mod sharing;

pub use flushing::Flushing;
pub use laws::{
    a_journal_at_rest_stands, the_flusher_alone_tells, the_whole_story_is_kept,
    what_is_taken_was_decided,
};
pub use mounted::Mounted;
pub use sharing::{flush_if_free, flush_in_turn};
