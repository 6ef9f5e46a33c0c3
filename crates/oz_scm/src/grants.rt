//! The entries of the storage container manager's journal: their bytes, which may follow which, and the containers that
//! they make.
mod building;
mod container;
mod containers;
mod encoding;
mod entry;
mod fault;
mod laws;
mod limits;
mod reading;

pub use building::build;
pub use container::Container;
pub use containers::{Containers, are_ids_spent};
pub use encoding::{
    encode_acked, encode_granted, encode_logged, encode_nodes, encode_retired, encode_stepped,
};
pub use entry::{Entry, Grant};
pub use fault::BuildFault;
pub use laws::{
    an_entry_is_one_body_more, bodies_make_one_thing, no_id_is_granted_twice,
    what_is_logged_is_ordered,
};
pub use limits::{FIRST_ID, GRANTED_IDS, MOST_GRANTED};
