//! The servers of a run, which all workers share, and what they are made of.
mod lists;
mod parting;
mod seating;
mod servers;

pub use servers::{Parts, Servers};
