//! The lines of a script as they are written: who says what, and which line is the first at fault.
mod drafting;
mod fault;
mod labels;
mod said;

pub use drafting::{Draft, Drafting, Entry, MOST_BYTES, client_place, draft_of};
pub use fault::{Cause, ScriptFault};
pub use labels::OpenedLabel;
pub use said::{GREATEST_AFTER, Said, said_of};
