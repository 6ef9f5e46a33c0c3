//! The lines of a script as they are read: the lines for which they wait, where each stands, and which are served.
mod placed;
mod served;

pub use placed::{PlacedScript, read_lines};
pub use served::{is_served, later_index};
