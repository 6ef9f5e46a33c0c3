//! How far a line is.

ghost use Rattle.std.specs.Prelude.{◌≡◌};
ghost use Rattle.oz_client.specs.LineState.{awaited_by, nothing_yet};

use crate::kinds::{ReplyKind, kind_for};
use crate::step::Step;
use oz_fields::List;
use oz_steps::{Came, Label};
use std::alloc::Global;

/// What comes back next.
#[derive(Clone, Copy, Debug, PartialEq, Eq)]
pub enum Awaited {
    Start,
    /// A reply of this kind, or a code.
    Reply(ReplyKind),
    Written,
    Read,
    /// The answer of an admin's step.
    Answer,
    /// Nothing more: the line was told.
    Nothing,
}

/// What is known of a line so far.
#[derive(Drop)]
pub struct Progress {
    /// How many datanodes there are.
    pub nodes: u8,
    /// What the line's label stands for.
    pub label: Option<Label>,
    pub came: Came,
    /// The bytes of the pieces that were read, in order.
    pub read: List<List<u8>>,
}

impl Progress {
    /// Nothing came yet. It takes no memory.
    pub(crate) fn new(alloc: Global, nodes: u8, label: Option<Label>) -> Progress
        ensures { result ≡ nothing_yet nodes label }
    {
        Progress {
            nodes,
            label,
            came: Came::new(alloc),
            read: List::new(alloc),
        }
    }
}

/// What comes back of a step.
pub(crate) fn awaited_by(step: &Step) -> Awaited
    ensures { result ≡ awaited_by step.now }
{
    match step {
        Step::Ask(request) => Awaited::Reply(kind_for(request)),
        Step::Write { .. } => Awaited::Written,
        Step::Read { .. } => Awaited::Read,
        Step::Admin(_) => Awaited::Answer,
        Step::Tell(_) => Awaited::Nothing,
    }
}
