//! What is loaded from the disks of all nodes, in their order, and the opening of a run for which it stands.
#![tactic(auto)]

mod disk_name;
mod fault;
mod ids;
mod laws;
mod loaded;
mod nodes_opened;
mod order;
mod store_opening;

pub use disk_name::DiskName;
pub use fault::StoreFault;
pub use laws::what_loads_is_not_refused;
pub use loaded::{LoadedNodes, RefusedNodes, disks_of};
pub use nodes_opened::{
    a_loaded_scm_stands_for_the_opening, loaded_datanodes_stand_for_the_opening,
};
pub use order::load_nodes;
pub use oz_node_events::{a_loaded_datanode_stands, its_seat_alone_tells};
pub use store_opening::{
    all_disks_are_a_store, an_empty_store_agrees, an_opening_has_what_was_loaded,
    bytes_that_are_intact_have_their_digests, disks_have_one_opening,
    each_block_has_the_length_of_its_bytes, each_row_has_the_length_of_its_block,
    no_id_is_granted_again, unwritten_disks_are_a_store,
};
