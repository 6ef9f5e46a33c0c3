//! What legal stories say of Grants and of the blocks that stripes hand out. Definitions and laws alone.
mod laws;

pub use laws::{
    a_block_is_granted_by_its_stripe, containers_stay_numbered, grants_are_apart, grants_fit,
    what_is_free_is_new, what_is_free_is_unused,
};
