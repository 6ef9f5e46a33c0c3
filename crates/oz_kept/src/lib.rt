//! What every legal story keeps, and what a stop leaves of it: laws on the definitions alone.
#![tactic(auto)]

mod laws;
mod reopened;

pub use laws::{
    holders_have_one_content, what_is_being_deleted_is_not_reached, what_left_reach_never_returns,
};
pub use reopened::{
    the_empty_story_leaves_its_opening, what_a_stop_leaves_deletes_nothing_that_is_reached,
    what_a_stop_leaves_has_fresh_ids, what_a_stop_leaves_is_coherent, what_a_stop_leaves_is_placed,
};
