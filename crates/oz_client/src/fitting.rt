//! Whether something may come back.

ghost use Rattle.std.specs.Prelude.{◌≡◌, ◌≤◌};
ghost use Rattle.oz_nodes.specs.declared.nodes.TheConstants.{FEWEST_NODES, MOST_NODES};
ghost use Rattle.oz_core.specs.Steps.{is_code};
ghost use Rattle.oz_client.specs.LineState.{is_fit, is_reading, is_reply_fit, is_start, is_under_way, is_writing};
ghost use Rattle.oz_client.specs.Replies.{has_few_pieces, is_on_pipeline, may_reply};

use crate::kinds::{ReplyKind, is_of_kind};
use crate::progress::Awaited;
use crate::step::Got;
use oz_nodes::Nodes;
use oz_requests::Reply;

/// As many pieces as two bytes can count.
const MOST_PIECES: usize = 65_536;

fn is_code(reply: &Reply) -> bool
    ensures { result ≡ is_code reply.now }
{
    match reply {
        Reply::Code(_) => true,
        _ => false,
    }
}

fn is_on_pipeline(nodes: u8, reply: &Reply) -> bool
    requires least { FEWEST_NODES ≤ nodes }
    requires most { nodes ≤ MOST_NODES }
    ensures { result ≡ is_on_pipeline nodes reply.now }
{
    match reply {
        Reply::Granted(_, pipeline) => *pipeline < Nodes::new(nodes).pipelines(),
        _ => true,
    }
}

fn has_few_pieces(reply: &Reply) -> bool
    ensures { result ≡ has_few_pieces reply.now }
{
    match reply {
        Reply::Pieces(pieces) => pieces.len() <= MOST_PIECES,
        _ => true,
    }
}

fn may_reply(kind: ReplyKind, nodes: u8, reply: &Reply) -> bool
    requires least { FEWEST_NODES ≤ nodes }
    requires most { nodes ≤ MOST_NODES }
    ensures { result ≡ may_reply kind nodes reply.now }
{
    (is_code(reply) || is_of_kind(kind, reply))
        && (is_on_pipeline(nodes, reply) && has_few_pieces(reply))
}

fn is_reply_fit(nodes: u8, awaited: Awaited, reply: &Reply) -> bool
    requires least { FEWEST_NODES ≤ nodes }
    requires most { nodes ≤ MOST_NODES }
    ensures { result ≡ is_reply_fit nodes awaited reply.now }
{
    match awaited {
        Awaited::Reply(kind) => may_reply(kind, nodes, reply),
        _ => false,
    }
}

fn is_under_way(awaited: Awaited) -> bool
    ensures { result ≡ is_under_way awaited }
{
    match awaited {
        Awaited::Start | Awaited::Nothing => false,
        Awaited::Reply(_) | Awaited::Written | Awaited::Read | Awaited::Answer => true,
    }
}

fn is_start(awaited: Awaited) -> bool
    ensures { result ≡ is_start awaited }
{
    match awaited {
        Awaited::Start => true,
        _ => false,
    }
}

fn is_writing(awaited: Awaited) -> bool
    ensures { result ≡ is_writing awaited }
{
    match awaited {
        Awaited::Written => true,
        _ => false,
    }
}

fn is_reading(awaited: Awaited) -> bool
    ensures { result ≡ is_reading awaited }
{
    match awaited {
        Awaited::Read => true,
        _ => false,
    }
}

/// What comes back is of the last step.
pub(crate) fn is_fit(nodes: u8, awaited: Awaited, got: &Got) -> bool
    requires least { FEWEST_NODES ≤ nodes }
    requires most { nodes ≤ MOST_NODES }
    ensures { result ≡ is_fit nodes awaited got.now }
{
    match got {
        Got::Start => is_start(awaited),
        Got::Reply(reply) => is_reply_fit(nodes, awaited, reply),
        Got::Written(_) => is_writing(awaited),
        Got::Read(_) => is_reading(awaited),
        Got::Answered(_) => is_under_way(awaited),
    }
}
