//! Blocks in three replicas: datanodes behind locks, writing a block at its members, and reading a piece from one of them.
#![tactic(auto)]

mod cell;
mod copied;
mod filling;
mod halting;
mod kept;
mod laws;
mod nodes;
mod note;
mod noter;
mod piece;
mod reading;
mod replicas;
mod silent;
mod unput;
mod unread;
mod whole;
mod writing;

pub use cell::NodeCell;
pub use copied::{copy_at, verified_piece};
pub use kept::Kept;
pub use laws::cells_stay_in_order;
pub use nodes::{NodeGuard, Nodes};
pub use note::Note;
pub use noter::Noter;
pub use piece::read_piece;
pub use reading::read_at;
pub use replicas::write_block;
pub use silent::NoNotes;
pub use writing::write_at;
