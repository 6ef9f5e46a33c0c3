//! Scripts: what clients and lines are, and how a text is read as one or where it first is none.
#![tactic(auto)]

mod circles;
mod draft;
mod laws;
mod lines;
mod parsing;
mod placed;
mod waiting;

pub use circles::{Waits, first_circle};
pub use draft::{
    Cause, Draft, Drafting, Entry, GREATEST_AFTER, MOST_BYTES, OpenedLabel, Said, ScriptFault,
    client_place, draft_of, said_of,
};
pub use laws::each_text_has_one_answer;
pub use lines::{Line, MOST_CLIENTS, MOST_LINES, Script};
pub use parsing::parse;
pub use placed::{PlacedScript, is_served, later_index, read_lines};
pub use waiting::first_back;
