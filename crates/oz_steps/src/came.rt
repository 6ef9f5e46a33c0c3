//! What came back to a line.

ghost use Rattle.std.specs.Prelude.{◌≡◌, [], None, Some, OnOk, OnErr};
ghost use Rattle.oz_steps.specs.Came.{granted_by, with_answers, with_reply};

use crate::fate::{Fate, fate_of};
use oz_core::PutRefusal;
use oz_fields::{Block, List, OutOfMemory};
use oz_requests::Reply;
use std::alloc::Global;

/// A block that a line was granted, and the number of the pipeline that holds its container.
#[derive(Clone, Copy)]
pub struct Granted {
    pub block: Block,
    pub pipeline: u8,
}

/// A block that a line was granted, and what became of it.
#[derive(Clone, Copy)]
pub struct Attempt {
    pub granted: Granted,
    pub fate: Fate,
}

/// What came back to a line so far, in order.
#[derive(Drop)]
pub struct Came {
    /// What the manager replied.
    pub replies: List<Reply>,
    /// The blocks that were granted, with what became of each.
    pub attempts: List<Attempt>,
    /// The block behind them that is being written.
    pub writing: Option<Granted>,
}

impl Came {
    /// Nothing yet. It takes no memory.
    pub fn new(alloc: Global) -> Came
        ensures replies { result.replies ≡ [] }
        ensures attempts { result.attempts ≡ [] }
        ensures writing { result.writing ≡ None }
    {
        Came {
            replies: List::new(alloc),
            attempts: List::new(alloc),
            writing: None,
        }
    }
}

fn granted_by(reply: &Reply) -> Option<Granted>
    ensures { result ≡ granted_by reply.now }
{
    match reply {
        Reply::Granted(block, pipeline) => Some(Granted {
            block: *block,
            pipeline: *pipeline,
        }),
        _ => None,
    }
}

/// Notes what the manager replied. A block that it granted is being written from here on. Where memory runs out nothing
/// is noted.
pub fn note_reply(came: &mut Came, alloc: Global, reply: Reply) -> Result<(), OutOfMemory>
    ensures ok { OnOk result (came.new ≡ with_reply came.old reply) }
    ensures err { OnErr result (came.new ≡ came.old) }
{
    let granted = granted_by(&reply);
    match came.replies.push(alloc, reply) {
        Ok(()) => {
            came.writing = granted;
            Ok(())
        }
        Err((_, error)) => Err(error),
    }
}

/// Notes what the three members of a block that was being written answered: none of a put, or why they refused it. Where
/// memory runs out nothing is noted.
pub fn note_answers(
    came: &mut Came,
    alloc: Global,
    granted: Granted,
    answers: [Option<PutRefusal>; 3],
) -> Result<(), OutOfMemory>
    requires { came.old.writing ≡ Some granted }
    ensures ok { OnOk result (came.new ≡ with_answers came.old granted answers) }
    ensures err { OnErr result (came.new ≡ came.old) }
{
    let fate = fate_of(answers);
    match came.attempts.push(alloc, Attempt { granted, fate }) {
        Ok(()) => {
            came.writing = None;
            Ok(())
        }
        Err((_, error)) => Err(error),
    }
}
