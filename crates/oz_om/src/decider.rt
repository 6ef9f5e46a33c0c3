//! The decision on any request: which crate decides it, and what each decision promises.
mod decider;
mod deciding;
mod outcome;

pub use deciding::decide;
pub use outcome::Outcome;
