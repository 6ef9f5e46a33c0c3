//! What the manager loads from its disk: the rows in sixteen stripes, the namespace that they stand for, and the flusher of
//! its journal.
#![tactic(auto)]

mod counting;
mod laws;
mod loading;
mod parting;
mod standing;
mod unseated;
mod walking;

pub use laws::{
    a_disk_loads_as_one_thing, a_stripes_rows_are_sound, the_parts_are_the_whole,
    what_is_left_stands_in_deleted_rows,
};
pub use loading::load;
pub use parting::part;
pub use standing::{namespace_of, parts_show_their_namespace};
pub use unseated::{Counted, Unseated};
