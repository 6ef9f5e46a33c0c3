//! A run of a script over the disks of a store: they are loaded, the lines run on threads over them, and the story is handed
//! back.
#![tactic(auto)]

mod closing;
mod counting;
mod disk_run;
mod freeing;
mod hiring;
mod leaving;
mod parting;
mod ran;
mod running;
mod staff;
mod unstarted;
mod working;

pub use disk_run::{Disks, RefusedStore, StoreRan, run_over_disks};
pub use oz_headline::{
    DiskName, Status, StoreFault, a_halted_node_counted, a_put_names_its_key,
    all_are_told_by_count, all_disks_are_a_store, unwritten_disks_are_a_store,
    what_loads_is_not_refused,
};
pub use ran::Ran;
pub use running::run_lines;
pub use unstarted::Unstarted;
