//! What a flush answers.

/// All writes up to the index are stable, from this moment of the journal's disk on.
#[derive(Clone, Copy, Debug, PartialEq, Eq)]
pub struct Flushed {
    pub index: u64,
    pub moment: u64,
}
