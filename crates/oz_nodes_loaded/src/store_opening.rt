//! The opening of a run whose disks were all loaded: what they stand for together, and when they agree. Definitions and
//! laws alone.
mod laws;

pub use laws::{
    all_disks_are_a_store, an_empty_store_agrees, an_opening_has_what_was_loaded,
    bytes_that_are_intact_have_their_digests, disks_have_one_opening,
    each_block_has_the_length_of_its_bytes, each_row_has_the_length_of_its_block,
    no_id_is_granted_again, unwritten_disks_are_a_store,
};
