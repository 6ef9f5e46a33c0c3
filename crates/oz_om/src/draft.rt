//! What is decided of a request, before it is told.

use oz_cache::Prepared;
use oz_decision::Decision;
use oz_fields::{Block, List};
use oz_locks::Pin;
use oz_requests::Reply;

/// A decision, and the block that its reply grants.
#[derive(Drop)]
pub(crate) struct Made {
    pub decision: Decision,
    pub granted: Option<Block>,
}

/// What is decided of a request, with all the memory that it takes to tell it.
#[derive(Drop)]
pub(crate) struct Draft {
    pub reply: Reply,
    /// The same reply, for who asked.
    pub told: Reply,
    pub batch: List<u8>,
    pub changes: Prepared,
    /// The block that the reply grants.
    pub granted: Option<Block>,
    /// The blocks that the reply names to the line.
    pub pins: Vec<Pin>,
    /// The transaction index of the decision.
    pub index: u64,
}
