//! A line stops, starts or wipes a datanode: under the lock of the storage container manager and then the datanode's,
//! what happens and what is told of it. Under the same locks a datanode whose disk has failed is taken for down.
#![tactic(auto)]

mod changing;
mod commanding;
mod fault;
mod halting;
mod locked;
mod running;
mod wiped;

pub use fault::AdminFault;
pub use halting::take_down_halted;
pub use locked::have_done;
pub use running::{start_at, stop_at};
pub use wiped::wipe_at;
