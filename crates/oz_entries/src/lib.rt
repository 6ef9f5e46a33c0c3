//! The entries of a datanode's journal: their bytes, which may follow which, and the rows and states that they make.
#![tactic(auto)]

mod building;
mod encoding;
mod entry;
mod fault;
mod held;
mod laws;
mod maps;
mod reading;
mod replica;
mod row;
mod users;

pub use building::build;
pub use encoding::{encode_apply, encode_drop, encode_put, encode_state};
pub use entry::Entry;
pub use fault::BuildFault;
pub use held::Held;
pub use laws::{
    an_entry_has_one_spelling, an_entry_is_one_body_more, bodies_make_one_node,
    each_slot_belongs_to_one_block, what_is_dropped_holds_nothing,
};
pub use replica::Replica;
pub use row::{BlockRow, Chunk};
