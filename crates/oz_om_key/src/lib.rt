//! The manager's requests on keys, decided over rows: look-ups and lists, and that a key goes or gets another name.
#![tactic(auto)]

mod asking;
mod deciding;
mod listing;
mod om_change;
mod place;
mod reading;

pub use deciding::decide;
pub use om_change::decide_change;
