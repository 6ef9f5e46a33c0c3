//! Whether the manager of containers may grant ids and bring a container to a state: plain and slow programs, for
//! tests.
#![tactic(auto)]

mod closing;
mod containers;
mod granting;
mod held;
mod ids;
mod needed;
mod pipelines;
mod steps;
mod used;

pub use closing::closed_is_enabled;
pub use granting::grant_is_enabled;
