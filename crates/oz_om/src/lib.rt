//! The manager: any request is decided by its crate, over sixteen stripes of rows, each at one place of the story.
#![tactic(auto)]

mod asking;
mod decider;
mod deciding;
mod draft;
mod drafting;
mod finding;
mod looking;
mod making;
mod manager;
mod purging;
mod refusal;
mod seating;
mod serving;
mod standing;
mod tally;
mod tallying;
mod telling;
mod worked;
mod working;

pub use decider::{Outcome, decide};
pub use manager::Manager;
pub use oz_locks::Loaded;
pub use purging::Purged;
pub use refusal::Refusal;
pub use standing::{a_run_keeps_used_blocks, a_stripes_tables_stood};
pub use tally::Tally;
