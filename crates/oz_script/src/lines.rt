//! Scripts as types: clients, and their lines in the order in which they stand.
mod script;

pub use script::{Line, MOST_CLIENTS, MOST_LINES, Script};
