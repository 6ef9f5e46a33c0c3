//! What was written for a line stays as it is: a law on the definitions alone.
mod laws;

pub use laws::what_was_written_is_final;
