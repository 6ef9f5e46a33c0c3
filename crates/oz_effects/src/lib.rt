//! What operations change among rows, row by row and in any map of rows; which bytes are the batches and bodies that make
//! changes.
#![tactic(auto)]

mod batches;
mod changes;
mod parts;

pub use batches::{
    a_batch_makes_a_body, a_put_is_a_batch, a_removal_is_a_batch, batches_are_one_batch,
    closed_sessions_are_a_batch, copied_keys_are_a_batch, dropped_keys_are_a_batch,
    moved_rows_are_a_batch, no_bytes_are_no_changes,
};
pub use changes::{closed_sessions, copied_keys, dropped_keys, moved_rows, operation_changes};
pub use parts::{Part, RowRef, first_key, part_rows};
