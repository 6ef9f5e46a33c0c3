//! The headline of a run over threads, that a story which the turn told keeps it, and what halts and stops leave of the
//! nodes.
#![tactic(auto)]

mod ended;
mod halts;
mod laws;
mod restored;
mod status;

pub use ended::the_story_keeps_the_headline;
pub use halts::{
    a_halted_node_counted, halts_of_all_nodes_are_named, the_story_keeps_the_headline_of_all_disks,
};
pub use laws::{a_put_names_its_key, all_are_told_by_count, one_history_says_the_rest};
pub use oz_nodes_loaded::{
    DiskName, LoadedNodes, RefusedNodes, StoreFault, a_loaded_datanode_stands,
    a_loaded_scm_stands_for_the_opening, all_disks_are_a_store, disks_of, its_seat_alone_tells,
    load_nodes, loaded_datanodes_stand_for_the_opening, unwritten_disks_are_a_store,
    what_loads_is_not_refused,
};
pub use oz_om::Manager;
pub use restored::{
    a_prefix_builds, a_stop_leaves_a_prefix, decided_batches_lead_on, stripes_stand_together,
};
pub use status::Status;
