//! What operations change among the rows of any map, row by row.
mod blocks;
mod bucket;
mod closings;
mod copies;
mod drops;
mod moves;
mod operation;

pub use closings::closed_sessions;
pub use copies::copied_keys;
pub use drops::dropped_keys;
pub use moves::moved_rows;
pub use operation::operation_changes;
