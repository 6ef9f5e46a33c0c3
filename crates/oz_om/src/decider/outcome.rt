//! What comes of a request.

use oz_decision::Decision;

/// What comes of a request.
#[derive(Debug, Drop)]
pub enum Outcome {
    Decided(Decision),
    /// A session is to get a block, and none was picked. Nothing is decided.
    NoBlock,
    /// No crate decides such a request.
    NotYet,
}
