//! What a stop leaves on the two disks of a datanode that halted: laws alone.
mod example;
mod laws;

pub use example::a_datanode_has_an_entry_more;
pub use laws::{
    a_halted_datanode_leaves_what_is_allowed, an_entry_makes_what_its_event_makes,
    an_entry_more_is_allowed, an_entry_without_an_event_changes_nothing,
    only_what_is_logged_is_missing, what_is_loaded_stays, what_rests_is_left,
    what_was_to_come_still_is,
};
