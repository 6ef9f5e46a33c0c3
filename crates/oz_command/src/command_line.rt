//! The words of the command line: what they ask for, and the first of them that isn't in the grammar.
mod laws;
mod words;

pub use laws::{words_are_one_run, words_of_a_run_have_no_fault};
pub use words::{DEFAULT_NODES, DEFAULT_WORKERS, MOST_WORKERS, Words, read_words};
