//! Whether a reply is that of one thread.

ghost use Rattle.std.specs.Prelude.{◌≡◌, ◌↔◌, IfOk, IsTrue};
ghost use Rattle.oz_model.specs.Answers.{Answers};
ghost use Rattle.oz_legal.specs.manager_law.Words.{granted_or};

use oz_fields::{Block, List, Name, OutOfMemory, Piece};
use oz_model::answer;
use oz_namespace::Namespace;
use oz_requests::{Reply, Request};
use std::alloc::Global;

/// A block that stands for any.
const SOME_BLOCK: Block = Block {
    container: 0,
    local: 0,
};

fn are_same_names(one: &List<Name>, other: &List<Name>) -> bool
    ensures { IsTrue result ↔ (one.now ≡ other.now) }
{
    *one == *other
}

fn are_same_pieces(one: &List<Piece>, other: &List<Piece>) -> bool
    ensures { IsTrue result ↔ (one.now ≡ other.now) }
{
    *one == *other
}

fn is_same_reply(one: &Reply, other: &Reply) -> bool
    ensures { IsTrue result ↔ (one.now ≡ other.now) }
{
    match (one, other) {
        (Reply::Done, Reply::Done) => true,
        (Reply::Count(count), Reply::Count(of)) => *count == *of,
        (Reply::Counts(counts), Reply::Counts(of)) => *counts == *of,
        (Reply::Names(names), Reply::Names(of)) => are_same_names(names, of),
        (Reply::Session(number), Reply::Session(of)) => *number == *of,
        (Reply::Granted(block, pipeline), Reply::Granted(of, on)) => {
            *block == *of && *pipeline == *on
        }
        (Reply::Pieces(pieces), Reply::Pieces(of)) => are_same_pieces(pieces, of),
        (Reply::Code(code), Reply::Code(of)) => *code == *of,
        _ => false,
    }
}

/// The block that the reply grants, with its pipeline, or else any.
fn granted_or_any(reply: &Reply) -> (Block, u8)
    ensures { result ≡ granted_or reply.now }
{
    match reply {
        Reply::Granted(block, pipeline) => (*block, *pipeline),
        _ => (SOME_BLOCK, 0),
    }
}

/// Whether one thread would reply so. A reply of one thread that would count 2^32 things or more can't be written; there
/// it answers that memory ran out.
pub(crate) fn is_of_one_thread(
    alloc: Global,
    namespace: &Namespace,
    request: &Request,
    reply: &Reply,
) -> Result<bool, OutOfMemory>
    ensures { IfOk result (λ is. IsTrue is ↔ Answers namespace.now request.now reply.now) }
{
    let answered = answer(alloc, namespace, request, Some(granted_or_any(reply)))?;
    Ok(is_same_reply(&answered.0, reply))
}
