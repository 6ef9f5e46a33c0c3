//! What a decision is.

ghost use Rattle.std.specs.Prelude.{◌≡◌, []};

use oz_fields::List;
use oz_requests::Reply;
use oz_rows::Change;
use std::alloc::Global;

/// The most bytes that the operations of one decision have.
pub const LONGEST_BATCH: usize = 67_108_864;

/// What is decided of a request: the reply, and what it changes among the rows, as changes and in bytes.
#[derive(Debug, Drop)]
pub struct Decision {
    pub reply: Reply,
    /// The operations of the batch, without a body's head; none where nothing changes.
    pub bytes: List<u8>,
    pub changes: List<Change>,
}

impl Decision {
    /// The decision that changes nothing.
    pub fn unchanged(alloc: Global, reply: Reply) -> Decision
        ensures reply { result.reply ≡ reply }
        ensures bytes { result.bytes ≡ [] }
        ensures changes { result.changes ≡ [] }
    {
        Decision {
            reply,
            bytes: List::new(alloc),
            changes: List::new(alloc),
        }
    }
}
