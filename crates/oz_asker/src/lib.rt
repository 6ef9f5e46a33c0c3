//! What the seat of a line does in the story: it asks, sees what was decided and whether that is stable, and tells the line
//! its answer.
#![tactic(auto)]

mod asking;
mod fault;
mod finding;
mod laws;
mod seeing;
mod settling;
mod telling;

pub use asking::put_ask;
pub use fault::AskFault;
pub use laws::{an_index_covers_those_before, what_follows_is_legal, what_was_decided};
pub use seeing::see;
pub use settling::settle;
pub use telling::{
    Settlement, Still, Untold, Unwritten, has_started, left_up, settle_line, stands_still,
    story_length, tell, tell_done, tell_written, times_said, what_is_told_of_the_manager_is_due,
    what_keeps_a_line_untold, what_started_stays, what_was_told_stays,
};
