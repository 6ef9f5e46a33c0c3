//! The object store as a call: a script and disks go in, the story of all that happened comes out. A second call puts a file
//! into a key, or gets one out.
#![tactic(auto)]

mod files;
mod laws;
mod stop;
mod streams;
mod texts;
mod top;

pub use files::{
    LONGEST_FILE, Outcome, Transfer, Way, WordsFault, read_transfer, transfer,
    words_are_one_transfer, words_of_a_transfer_have_no_fault,
};
pub use laws::{
    a_run_that_nothing_disturbs_is_done, an_empty_disk_opens_as_nothing,
    unwritten_disks_are_coherent,
};
pub use oz_command::{Words, read_words};
pub use oz_datanode::NodeDisks;
pub use oz_running::{DiskName, Disks, Status};
pub use top::{Ended, run};
