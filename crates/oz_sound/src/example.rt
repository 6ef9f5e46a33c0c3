//! Rows in which all that sound rows may have stands at once, and the namespace that they stand for.
mod laws;
mod steps;

pub use laws::these_rows_are_sound;
pub use steps::{
    a_key_goes, a_key_is_renamed, a_session_commits, a_session_gets_a_block,
    what_breaks_rows_is_no_move,
};
