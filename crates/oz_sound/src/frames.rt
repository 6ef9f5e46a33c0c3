//! What rows stand for, and that they stay sound, where those of one bucket change.
mod laws;

pub use laws::{
    a_bucket_becomes, a_granted_block_moves, a_key_becomes_a_deleted_row, a_parted_row_moves,
    a_session_becomes_a_key, moved_blocks_stay_sound, rows_of_one_bucket_change,
};
