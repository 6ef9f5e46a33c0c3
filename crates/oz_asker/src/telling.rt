//! A line is told its answer, under the turn, where that may be, and that a block of it was written; and what stands of a line
//! then: whether it may start, whether all that was decided for it is stable, and how often something was said of its blocks.
mod done;
mod halted;
mod laws;
mod manager;
mod saying;
mod seeing;
mod settlement;
mod starting;
mod still;
mod telling;
mod untold;
mod writing;

pub use done::tell_done;
pub use halted::left_up;
pub use laws::{
    what_is_told_of_the_manager_is_due, what_keeps_a_line_untold, what_started_stays,
    what_was_told_stays,
};
pub use saying::times_said;
pub use seeing::story_length;
pub use settlement::{Settlement, settle_line};
pub use starting::has_started;
pub use still::{Still, stands_still};
pub use telling::tell;
pub use untold::Untold;
pub use writing::{Unwritten, tell_written};
