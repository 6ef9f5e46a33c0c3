//! The manager's rows in memory, as one ordered map, and how the bodies of a journal make them.
#![tactic(auto)]

mod built;
mod tables;

pub use built::{BuildFault, bodies_make_one_thing, build};
pub use tables::Tables;
