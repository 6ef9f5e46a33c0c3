//! The rows of one stripe: a batch over them alone is one over the rows of the whole store.
mod laws;

pub use laws::{a_stripes_batch_is_one_of_all, sessions_are_dropped_among_their_own};
