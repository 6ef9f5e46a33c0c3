//! Words: the commands of a script's line with the data that they put, and what the command line asks for.
#![tactic(auto)]

mod admin;
mod command;
mod command_line;
mod keys;
mod lines;
mod numbers;
mod paths;
mod payload;
mod payload_words;
mod ranges;
mod reading;
mod snapshots;
mod words;

pub use admin::GREATEST_NODE;
pub use command::{AdminCommand, Command, Data};
pub use command_line::{
    DEFAULT_NODES, DEFAULT_WORKERS, MOST_WORKERS, Words, read_words, words_are_one_run,
    words_of_a_run_have_no_fault,
};
pub use lines::split_line;
pub use numbers::{MOST_DIGITS, number_in};
pub use payload::{LONGEST_FILL, LONGEST_TEXT, PIECE_BYTES, piece_of};
pub use ranges::{COUNT_IF_NONE, GREATEST_COUNT, LONGEST_BOUND};
pub use reading::command_of;
pub use words::{LONGEST_CLIENT, is_client_name, is_of_words, split_word};
