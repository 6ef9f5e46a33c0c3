//! The text that a run prints of its story, the summary of a generated load, and the text of one answer.
#![tactic(auto)]

mod answers;
mod decided;
mod report;
mod summing;

pub use answers::push_answer;
pub use report::text;
pub use summing::{Tally, summary, summary_of_tally, volume_tally};
