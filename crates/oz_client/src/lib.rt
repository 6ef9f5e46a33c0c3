//! The steps of a line of a script, one after another, by what came back.
#![tactic(auto)]

mod advance;
mod fitting;
mod kinds;
mod left;
mod onward;
mod progress;
mod reading;
mod step;
mod steps;
mod values;

pub use kinds::ReplyKind;
pub use progress::{Awaited, Progress};
pub use step::{Got, Step, Written};
pub use steps::LineSteps;
