//! What has to stay as it is until a line is told its answer.

ghost use Rattle.std.specs.Prelude.{◌≡◌, ◌↔◌, IsTrue, drop};
ghost use Rattle.oz_core.specs.Law.{puts_or_copies};
ghost use Rattle.oz_core.specs.Nodes.{is_block};
ghost use Rattle.oz_asker.specs.telling.Still.{AllStandStill, StandsStill};

use oz_buffer::{Ledger, Opened};
use oz_core::{Event, EventKind};
use oz_fields::Block;
use oz_turn::Told;

/// What no event behind the first `place` of a story is to undo.
#[derive(Clone, Copy, Debug, PartialEq, Eq)]
pub enum Still {
    /// The seat is to give no event.
    Seat { seat: u16, place: u64 },
    /// The datanode is neither to put the block nor to copy it. What else happens there doesn't matter.
    Without { dn: u8, block: Block, place: u64 },
}

/// Whether each of these has stayed. It looks at the events behind their places alone.
pub(crate) fn all_stand_still<O: Opened>(ledger: &Ledger<O>, still: &[Still]) -> bool
    ensures { IsTrue result ↔ AllStandStill ledger.now.story still.now }
{
    let story = ledger.entries();
    still.iter().all(|one| stands_still(story, *one))
}

/// Whether one of them has stayed in a story. It looks at the events behind its place alone.
pub fn stands_still(story: &[Event], still: Still) -> bool
    ensures { IsTrue result ↔ StandsStill story.now still }
{
    match still {
        Still::Seat { seat, place } => behind(story, place).iter().all(|event| event.seat != seat),
        Still::Without { dn, block, place } => behind(story, place)
            .iter()
            .all(|event| !puts_or_copies(dn, block, &event.kind)),
    }
}

/// The events behind so many.
fn behind(story: &[Event], place: u64) -> &[Event]
    ensures { result.now ≡ drop place story.now }
{
    let place = place as usize;
    if place >= story.len() {
        return &[];
    }
    &story[place..]
}

/// Whether this is a Put or a Copy of the block at the datanode.
fn puts_or_copies(dn: u8, block: Block, kind: &EventKind) -> bool
    ensures { result ≡ puts_or_copies dn block kind.now }
{
    match kind {
        EventKind::Put {
            dn: other,
            block: put,
            ..
        } => *other == dn && is_block(block, *put),
        EventKind::Copy {
            target,
            block: copied,
            ..
        } => *target == dn && is_block(block, *copied),
        _ => false,
    }
}

fn is_block(block: Block, other: Block) -> bool
    ensures { result ≡ is_block block other }
{
    other.container == block.container && other.local == block.local
}
