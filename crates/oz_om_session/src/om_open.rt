//! A session is opened, and the sessions of a bucket that were open too long end: decided over rows.
mod creating;
mod deciding;
mod expiring;

pub use deciding::decide_open;
