//! The rows of the manager, maps of them, the operations that change them, and how rows and operations stand in bytes.
#![tactic(auto)]

mod decoding;
mod encoding;
mod entry;
mod fault;
mod key;
mod key_making;
mod laws;
mod operation;
mod operation_reading;
mod reading;
mod row;
mod row_map;
mod whole;
mod writing;

pub use encoding::{encode, put_head, put_operation, put_removal, put_row};
pub use entry::RowEntry;
pub use fault::{ReadFault, RowFault};
pub use key::RowKey;
pub use laws::{
    bytes_are_a_body_or_at_fault, keys_are_in_order, longest_batch, one_operation_for_a_spelling,
    one_row_for_a_spelling, same_keys_are_one,
};
pub use operation::{
    Change, END_OF_INDEXES, Head, LAYOUT, LONGEST_OPERATION, MOST_REMOVALS, Operation, Operations,
};
pub use operation_reading::{head_of, operation_of};
pub use row::{Row, SnapshotState};
pub use row_map::RowMap;
pub use whole::{decode, operations};
