//! The sweep: dead rows are found from what was noted of changes, without a walk over all rows.
mod births;
mod dating;
mod filing;
mod found;
mod homes;
mod kept;
mod laws;
mod marks;
mod notes;
mod state;

pub use found::Found;
pub use laws::{changes_are_noted, dates_are_exact, what_is_noted_may_change};
pub use notes::Note;
pub use state::Sweep;
