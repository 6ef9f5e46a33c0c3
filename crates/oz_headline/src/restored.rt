//! What a stop leaves of the manager's journal opens as the store was behind a first part of the story. Laws alone.
mod laws;

pub use laws::{
    a_prefix_builds, a_stop_leaves_a_prefix, decided_batches_lead_on, stripes_stand_together,
};
