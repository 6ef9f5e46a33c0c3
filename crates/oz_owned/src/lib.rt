//! Whose own a block is, that garbage stays garbage, what a stripe's tables are, and what a swept stripe has logged: laws alone.
#![tactic(auto)]

mod drained;
mod front;
mod garbage;
mod owned;
mod stood;

pub use drained::{an_ordered_log_is_numbered, what_is_swept_is_logged};
pub use front::each_index_has_a_front;
pub use garbage::{
    a_block_leaves_reach_at_a_decide, garbage_stays_garbage, where_a_block_left_decides,
};
pub use owned::{
    a_block_is_the_own_of_one_stripe, a_decide_names_its_stripes_own,
    a_used_block_is_the_own_of_a_stripe, each_used_block_has_a_home_or_is_logged,
    what_a_purge_may_take_is_logged, what_a_share_reaches_is_its_stripes_own,
    what_has_a_home_was_used, what_is_reached_of_a_stripes_own_is_in_its_share,
};
pub use stood::{
    a_used_block_has_a_home_or_is_logged_at_each_place, brought_tables_stand,
    rows_stand_while_other_seats_act, rows_that_stood_are_one, tables_stand_as_the_story_goes_on,
    what_tables_stand_for,
};
