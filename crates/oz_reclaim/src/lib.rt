//! What deferred deletion and snapshots decide over rows: which deleted rows may go, what is to be done with deleted
//! snapshots, and the requests by which both are done.
#![tactic(auto)]

mod counting;
mod deciding;
mod dropping;
mod finding;
mod gathering;
mod knowing;
mod listing;
mod making;
mod marking;
mod moving;
mod naming;
mod owning;
mod purging;
mod reaching;
mod sweep;
mod working;

pub use deciding::{are_unreached, decide, decide_purge, decide_snapshot};
pub use finding::{MOST_PURGED, reclaimable};
pub use sweep::{Found, Note, Sweep, changes_are_noted, dates_are_exact, what_is_noted_may_change};
pub use working::chain_work;
