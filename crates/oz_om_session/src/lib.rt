//! What becomes of a session, decided over rows: it is opened, gets a block, becomes a key, and ends.
#![tactic(auto)]

mod allocating;
mod committing;
mod om_open;
mod pieces;

pub use allocating::decide_allocate;
pub use committing::decide_commit;
pub use om_open::decide_open;
