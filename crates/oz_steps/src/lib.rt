//! What a line asks the manager next, by what came back to it so far.
#![tactic(auto)]

mod came;
mod exclude;
mod fate;
mod label;
mod pieces;
mod requests;
mod single;
mod written;

pub use came::{Attempt, Came, Granted, note_answers, note_reply};
pub use fate::{Fate, fate_of};
pub use label::Label;
pub use pieces::{data_length, pieces_needed, pieces_of};
pub use requests::{next_request, session_in};
pub use written::written_blocks;
