//! The log of deleted blocks: what each container's datanodes still have to delete.
#![tactic(auto)]

mod index;
mod log;
mod logged;
mod txn;

pub use log::DelLog;
pub use logged::Logged;
pub use txn::{MOST_LOCALS, Txn};
