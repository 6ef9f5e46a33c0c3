//! That every legal story leaves an opening, also where nodes that halted have one body more than their events tell: laws
//! alone.
#![tactic(auto)]

mod example;
mod halting;
mod laws;
mod leaving;

pub use example::two_nodes_have_one_body_more;
pub use halting::{
    a_datanode_has_an_entry_more, a_halted_datanode_leaves_what_is_allowed,
    an_entry_makes_what_its_event_makes, an_entry_more_is_allowed,
    an_entry_without_an_event_changes_nothing, only_what_is_logged_is_missing,
    what_is_loaded_stays, what_rests_is_left, what_was_to_come_still_is,
};
pub use laws::{
    a_further_delete_takes_nothing_that_is_reached, only_what_is_being_deleted_may_be_missing,
    what_a_stop_may_leave_is_coherent, what_a_story_leaves_it_may_leave,
};
pub use leaving::every_legal_story_leaves_an_opening;
