//! Lines that wait for themselves, by way of the lines for which they wait.
mod first;
mod marking;
mod waits;

pub use first::first_circle;
pub use waits::Waits;
