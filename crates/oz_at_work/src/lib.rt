//! A line of a script that a worker works for: how far it is, what it does next, and the servers that all workers share.
#![tactic(auto)]

mod asking;
mod at_work;
mod beginning;
mod commanding;
mod counted;
mod going;
mod granting;
mod halting;
mod laws;
mod onward;
mod outcome;
mod piece;
mod reading;
mod refused;
mod replying;
mod servers;
mod shared;
mod stills;
mod telling;
mod waiting;
mod writing;

pub use at_work::LineAtWork;
pub use laws::{a_label_was_left, what_is_at_work_stays};
pub use outcome::Did;
pub use oz_asker::has_started;
pub use oz_om::Loaded;
pub use servers::{Parts, Servers};
pub use shared::Shared;
