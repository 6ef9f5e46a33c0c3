//! What the disks of a whole store stand for together, what a story makes of a stripe, and which blocks stripes hand out:
//! definitions and laws alone.
#![tactic(auto)]

mod granted;
mod laws;
mod striped;

pub use granted::{
    a_block_is_granted_by_its_stripe, containers_stay_numbered, grants_are_apart, grants_fit,
    what_is_free_is_new, what_is_free_is_unused,
};
pub use laws::{an_empty_store_is_one, what_is_reached_stands_in_a_row};
pub use striped::{
    a_decide_is_one_request_more, a_line_asks_once, a_namespace_has_a_share,
    a_share_agrees_on_its_stripe, a_share_answers_as_the_whole, a_share_stays_where_others_decide,
    all_stripes_have_numbers, no_index_is_above_the_last, other_stripes_leave_a_share,
    rows_that_stand_for_both,
};
