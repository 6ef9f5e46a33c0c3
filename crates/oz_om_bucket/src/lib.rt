//! The manager's requests on volumes and buckets, decided over rows.
#![tactic(auto)]

mod buckets;
mod deciding;
mod volumes;

pub use deciding::decide;
