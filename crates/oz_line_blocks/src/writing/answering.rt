//! Whether the answers of a block's members stand in a story.

ghost use Rattle.std.specs.Prelude.{◌≡◌, ◌↔◌, Contains, IsTrue};
ghost use Rattle.oz_core.specs.declared.event.EventKind.TheVariants.{Refused};
ghost use Rattle.oz_core.specs.Law.{puts};
ghost use Rattle.oz_core.specs.Nodes.{is_block};
ghost use Rattle.oz_core.specs.Seats.{datanode_seat};
ghost use Rattle.oz_core.specs.Stories.{has_event};
ghost use Rattle.oz_underway.specs.UnderWay.{HasAnswered, HaveAnswered};

use oz_client::Written;
use oz_core::{Event, EventKind, PutRefusal};
use oz_fields::Block;
use oz_requests::AskId;

/// The seat of datanode 0. Those of the others follow it.
const FIRST_DATANODE_SEAT: u16 = 4;

/// Whether the answers of a block's members stand in these events.
pub(crate) fn all_stand(
    since: &[Event],
    id: AskId,
    block: Block,
    members: [u8; 3],
    written: &Written,
) -> bool
    ensures { IsTrue result ↔ HaveAnswered since.now id block members written.now.answers }
{
    let [first, second, third] = members;
    let [one, two, three] = written.answers;
    stands(since, id, block, first, one)
        && stands(since, id, block, second, two)
        && stands(since, id, block, third, three)
}

/// Whether the answer of one member does.
fn stands(since: &[Event], id: AskId, block: Block, dn: u8, answer: Option<PutRefusal>) -> bool
    ensures { IsTrue result ↔ HasAnswered since.now id block dn answer }
{
    match answer {
        None => has_put(since, dn, block),
        Some(refusal) => has_refused(since, id, block, dn, refusal),
    }
}

/// Whether a datanode put a block in these events.
fn has_put(events: &[Event], dn: u8, block: Block) -> bool
    ensures { result ≡ has_event (puts dn block) events.now }
{
    events.iter().any(|event| is_put(&event.kind, dn, block))
}

fn is_put(kind: &EventKind, dn: u8, block: Block) -> bool
    ensures { result ≡ puts dn block kind.now }
{
    match kind {
        EventKind::Put {
            dn: other,
            block: put,
            ..
        } => *other == dn && is_block(block, *put),
        _ => false,
    }
}

fn is_block(block: Block, other: Block) -> bool
    ensures { result ≡ is_block block other }
{
    other.container == block.container && other.local == block.local
}

/// Whether a datanode refused a block so for this ask in them.
fn has_refused(events: &[Event], id: AskId, block: Block, dn: u8, refusal: PutRefusal) -> bool
    ensures { IsTrue result ↔
        Contains events.now (record { seat = datanode_seat dn; kind = Refused dn block id refusal }) }
{
    events
        .iter()
        .any(|event| is_refused(event, id, block, dn, refusal))
}

fn is_refused(event: &Event, id: AskId, block: Block, dn: u8, refusal: PutRefusal) -> bool
    ensures { IsTrue result ↔
        (event.now ≡ record { seat = datanode_seat dn; kind = Refused dn block id refusal }) }
{
    match &event.kind {
        EventKind::Refused {
            dn: other,
            block: refused,
            id: asked,
            refusal: why,
        } => {
            event.seat == FIRST_DATANODE_SEAT + u16::from(dn)
                && *other == dn
                && *refused == block
                && *asked == id
                && *why == refusal
        }
        _ => false,
    }
}
