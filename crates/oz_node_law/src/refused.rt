//! Whether a datanode may refuse a block.

ghost use Rattle.std.specs.Prelude.{◌≡◌, ◌≢◌, ◌↔◌, ◌+◌, ◌<◌, IsTrue, true};
ghost use Rattle.oz_container.specs.declared.state.State.TheVariants as states;
ghost use Rattle.oz_core.specs.Nodes.{is_closed};
ghost use Rattle.oz_core.specs.Law.{IsFull, IsReason, RefusedIsEnabled};

use crate::room::is_use;
use oz_container::State;
use oz_core::{Event, NODE_BYTES, Node, Opening, PutRefusal, SLOT_BYTES};
use oz_fields::Block;
use oz_law::{halt_of, is_closed, is_datanode_seat, is_named_or_own, is_running};
use oz_requests::AskId;

fn is_over(used: u64, asked: u64, capacity: u64) -> bool
    ensures { IsTrue result ↔ (capacity < used + asked) }
{
    match capacity.checked_sub(asked) {
        None => true,
        Some(rest) => rest < used,
    }
}

fn is_full(opening: &Opening, story: &[Event], dn: u8, used: u64, asked: u64, capacity: u64) -> bool
    ensures { IsTrue result ↔ IsFull opening.now story.now dn used asked capacity }
{
    capacity == NODE_BYTES
        && asked == SLOT_BYTES
        && is_over(used, asked, capacity)
        && is_use(opening, story, usize::from(dn), used)
}

fn is_not_open(state: State) -> bool
    ensures { IsTrue result ↔ (state ≢ states.Open) }
{
    state != State::Open
}

fn is_shut(opening: &Opening, story: &[Event], dn: u8, container: u64, state: State) -> bool
    ensures { IsTrue result
        ↔ (is_closed opening.now story.now dn container ≡ true) × (state ≢ states.Open) }
{
    is_closed(opening, story, usize::from(dn), container) && is_not_open(state)
}

fn is_reason(opening: &Opening, story: &[Event], dn: u8, block: Block, refusal: PutRefusal) -> bool
    ensures { IsTrue result ↔ IsReason opening.now story.now dn block refusal }
{
    match refusal {
        PutRefusal::Stopped { count } => {
            !is_running(dn, story)
                && (count == 0 || halt_of(Node::Datanode(dn), story) == Some(count))
        }
        PutRefusal::Full {
            used,
            asked,
            capacity,
        } => is_full(opening, story, dn, used, asked, capacity),
        PutRefusal::NotOpen { state } => is_shut(opening, story, dn, block.container, state),
    }
}

/// Whether the datanode may refuse the block for this ask, and why.
pub fn refused_is_enabled(
    opening: &Opening,
    story: &[Event],
    seat: u16,
    dn: u8,
    block: Block,
    id: AskId,
    refusal: PutRefusal,
) -> bool
    ensures { IsTrue result ↔ RefusedIsEnabled opening.now story.now seat dn block id refusal }
{
    is_datanode_seat(opening, dn, seat)
        && is_named_or_own(story, id, block)
        && is_reason(opening, story, dn, block, refusal)
}
