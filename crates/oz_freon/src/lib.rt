//! The script of generated load: a function of a number and of how many keys are put.
#![tactic(auto)]

mod drawing;
mod key;
mod snapshots;
mod whole;

pub use whole::{MOST_KEYS, script};
