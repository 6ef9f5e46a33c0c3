//! Laws of a line that is under way: what a story has of it stays as it is while the line asks nothing more.
#![tactic(auto)]

mod laws;

pub use laws::{
    a_block_is_answered, a_label_stays, a_line_begins, a_line_stays_under_way, a_line_was_told,
    a_piece_has_the_length_of_its_block, a_piece_is_read, a_quorum_fits, a_quorum_follows,
    a_reply_comes, a_reply_comes_where_no_more_is_said, a_reply_grants_nothing, asks_stay,
    holders_are_members, lines_are_told_in_order, members_stay, nobody_has_a_piece,
    what_a_grant_is, what_is_asked_fits, what_is_put_is_its_piece, what_is_read_is_named,
    what_is_told_is_due, written_blocks_stay,
};
