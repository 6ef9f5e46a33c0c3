//! What a line does next, and what comes back of it.

use oz_command::AdminCommand;
use oz_core::PutRefusal;
use oz_fields::{Block, Piece};
use oz_requests::{Answer, Reply, Request};

/// What a line does next.
#[derive(Debug, Drop)]
pub enum Step {
    /// It asks the manager this.
    Ask(Request),
    /// It writes a piece of its data as this block at these three datanodes, in this order: so many bytes of the data,
    /// from this place on, counted from 0.
    Write {
        block: Block,
        members: [u8; 3],
        first: u64,
        length: u32,
    },
    /// It reads this piece of a key.
    Read {
        piece: Piece,
    },
    /// It does this to datanodes or containers.
    Admin(AdminCommand),
    /// It is told this, and is over.
    Tell(Answer),
}

/// What came back of a step.
#[derive(Drop)]
pub enum Got {
    /// Nothing yet: the line starts.
    Start,
    /// What the manager replied.
    Reply(Reply),
    Written(Written),
    /// The bytes of the piece, or none where no replica gives them.
    Read(Option<Vec<u8>>),
    /// What the line is to be told: of an admin's step, or of one that ended without one of the others.
    Answered(Answer),
}

/// What the three members of a block answered, in their order: none of a put, or why they refused it.
#[derive(Clone, Copy, Debug, PartialEq, Eq)]
pub struct Written {
    pub answers: [Option<PutRefusal>; 3],
}
