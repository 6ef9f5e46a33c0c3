//! Numbers that grants keep to.

/// The first block id that is granted.
pub const FIRST_ID: u64 = 1;

/// How many block ids a grant has.
pub const GRANTED_IDS: u32 = 64;

/// How many block ids may have been granted in a container in which more are granted.
pub const MOST_GRANTED: u64 = 960;
