//! The storage container manager: which block ids are granted where, and which state each container is in, kept in a journal
//! of entries.
#![tactic(auto)]

mod adding;
mod beginning;
mod choosing;
mod fault;
mod grants;
mod laws;
mod loading;
mod planning;
mod scm;
mod stepping;

pub use fault::{ApplyFault, GrantFault, ScmFault, ScmStop};
pub use grants::{
    BuildFault, Container, Containers, Entry, FIRST_ID, GRANTED_IDS, Grant, MOST_GRANTED,
    an_entry_is_one_body_more, are_ids_spent, bodies_make_one_thing, build, encode_acked,
    encode_granted, encode_logged, encode_nodes, encode_retired, encode_stepped,
    no_id_is_granted_twice, what_is_logged_is_ordered,
};
pub use laws::a_disk_stands_for_one_thing;
pub use scm::Scm;
