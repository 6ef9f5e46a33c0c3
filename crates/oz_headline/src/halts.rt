//! What a run in which all nodes take part says of them: which halted, and what they are at its end by the story. Definitions and
//! laws alone.
mod laws;

pub use laws::{
    a_halted_node_counted, halts_of_all_nodes_are_named, the_story_keeps_the_headline_of_all_disks,
};
