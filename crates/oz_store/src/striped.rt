//! What a story makes of one stripe's volumes: laws on the definitions alone.
mod events;
mod shares;

pub use events::{
    a_decide_is_one_request_more, a_line_asks_once, a_share_stays_where_others_decide,
    no_index_is_above_the_last,
};
pub use shares::{
    a_namespace_has_a_share, a_share_agrees_on_its_stripe, a_share_answers_as_the_whole,
    all_stripes_have_numbers, other_stripes_leave_a_share, rows_that_stand_for_both,
};
