//! The flusher: it writes what was decided as one body of the manager's journal and says so in the story; whoever finds its
//! lock free flushes.
#![tactic(auto)]

mod flushed;
mod flusher;
mod flushing;
mod swapping;

pub use flushed::Flushed;
pub use flusher::Flusher;
pub use flushing::{
    Flushing, Mounted, a_journal_at_rest_stands, flush_if_free, flush_in_turn,
    the_flusher_alone_tells, the_whole_story_is_kept, what_is_taken_was_decided,
};
