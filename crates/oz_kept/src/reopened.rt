//! What a stop leaves of a legal story is an opening whose parts agree: laws on the definitions alone.
mod laws;

pub use laws::{
    the_empty_story_leaves_its_opening, what_a_stop_leaves_deletes_nothing_that_is_reached,
    what_a_stop_leaves_has_fresh_ids, what_a_stop_leaves_is_coherent, what_a_stop_leaves_is_placed,
};
