//! The slots of a datanode, with the chunks that were written of blocks and not put.
mod laws;
mod release;
mod shelf;
mod written;

pub use laws::each_place_has_its_last_chunk;
pub use shelf::{Shelf, Unwritten};
pub use written::Written;
