//! Which namespace rows stand for, what makes rows sound, and what of both stays where the rows of one bucket or one stripe
//! change.
#![tactic(auto)]

mod example;
mod frames;
mod standing;
mod stripes;

pub use example::{
    a_key_goes, a_key_is_renamed, a_session_commits, a_session_gets_a_block, these_rows_are_sound,
    what_breaks_rows_is_no_move,
};
pub use frames::{
    a_bucket_becomes, a_granted_block_moves, a_key_becomes_a_deleted_row, a_parted_row_moves,
    a_session_becomes_a_key, moved_blocks_stay_sound, rows_of_one_bucket_change,
};
pub use standing::{a_row_makes_a_volume, no_rows_stand_for_nothing, rows_stand_for_one_namespace};
pub use stripes::{a_stripes_batch_is_one_of_all, sessions_are_dropped_among_their_own};
