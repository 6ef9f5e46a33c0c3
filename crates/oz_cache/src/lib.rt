//! The manager's tables with newer rows above them, as one map.
#![tactic(auto)]

mod batch;
mod cached;
mod cached_rows;
mod newer;
mod pending;
mod prepared;

pub use batch::Batch;
pub use cached::Cached;
pub use prepared::Prepared;
