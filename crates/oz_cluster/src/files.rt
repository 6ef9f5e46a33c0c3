//! Files in and out: a transfer of bytes between a key and a stream, by one line.
mod asked;
mod ending;
mod laws;
mod outcome;
mod stops;
mod told;
mod top;
mod words;

pub use laws::{words_are_one_transfer, words_of_a_transfer_have_no_fault};
pub use outcome::Outcome;
pub use stops::LONGEST_FILE;
pub use top::transfer;
pub use words::{Transfer, Way, WordsFault, read_transfer};
