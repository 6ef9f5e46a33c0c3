//! What the service job and a drain rest on: the locks of the storage container manager and of all datanodes, held at once; a
//! transaction that is sent to a datanode; and laws of what a look at a stripe found, when a drain is done, and who holds it up.
#![tactic(auto)]

mod all_locked;
mod deleting;
mod drains;
mod looks;
mod pass;
mod splitting;

pub use all_locked::{AllLocked, Shown, lock_all, what_is_seen_tells_what_comes_next};
pub use deleting::{Lent, Noted, send_one};
pub use drains::{
    a_drains_end_stays, empty_containers_are_deleted, what_is_drained, what_is_held,
    what_is_up_holds_old_blocks_alone, what_left_reach_was_garbage,
    when_a_block_left_is_told_by_tables, who_holds,
};
pub use looks::{a_look_sweeps_its_stripe, a_stripes_pins_are_pinned, what_a_look_found_is_logged};
pub use oz_owned::an_ordered_log_is_numbered;
pub use pass::{Parts, PassFault, Passed, Service};
pub use splitting::transactions;
