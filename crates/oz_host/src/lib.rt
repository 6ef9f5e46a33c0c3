//! What a program has of the system: the words of its command line, the standard streams, and files for disks.
#![tactic(auto)]

mod arguments;
mod file_disk;
mod folder;
mod streams;

pub use arguments::words_given;
pub use file_disk::FileDisk;
pub use folder::{disks_in, disks_without_files, let_go};
pub use oz_cluster::{
    Disks, Ended, Outcome, Status, Transfer, WordsFault, read_transfer, run, transfer,
    words_are_one_transfer, words_of_a_transfer_have_no_fault,
};
pub use streams::{ClosedStreams, StdinSource, WriterSink, take_closed_streams};
