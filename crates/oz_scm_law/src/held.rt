//! What is wanted of each block of a container: blocks that a disk had or an event gave are tested, and nobody holds
//! another.

ghost use Rattle.std.specs.Prelude.{◌≡◌, ◌↔◌, false, All, IfSome, IsTrue};
ghost use Rattle.oz_fields.specs.declared.block.Block.{Block as AnyBlock};
ghost use Rattle.oz_core.specs.Nodes.{holds};
ghost use Rattle.oz_core.specs.Scm.{is_logged};
ghost use Rattle.oz_scm_law.specs.Words.{given, AreAlike, HadWanted, HoldsNothing, IsSo, IsWanted};

use oz_core::{Event, EventKind, NodeOpening, Opening};
use oz_fields::{Block, Piece};
use oz_law::{holds, is_logged};

/// What is wanted of a block.
#[derive(Clone, Copy)]
pub(crate) enum Wanted {
    /// The two datanodes hold it both or neither, where no transaction names it.
    Alike(usize, usize),
    /// The datanode doesn't hold it.
    Unheld(usize),
}

fn is_alike(opening: &Opening, story: &[Event], dn: usize, other: usize, block: Block) -> bool
    ensures { IsTrue result ↔ (is_logged opening.now story.now block ≡ false
        → holds opening.now story.now dn block ≡ holds opening.now story.now other block) }
{
    is_logged(opening, story, block)
        || holds(opening, story, dn, block) == holds(opening, story, other, block)
}

fn is_so(opening: &Opening, story: &[Event], wanted: Wanted, block: Block) -> bool
    ensures { IsTrue result ↔ IsSo opening.now story.now wanted block }
{
    match wanted {
        Wanted::Alike(dn, other) => is_alike(opening, story, dn, other, block),
        Wanted::Unheld(dn) => !holds(opening, story, dn, block),
    }
}

/// The block is of another container, or as is wanted.
fn is_wanted(opening: &Opening, story: &[Event], number: u64, wanted: Wanted, block: Block) -> bool
    ensures { IsTrue result ↔ IsWanted opening.now story.now number wanted block }
{
    block.container != number || is_so(opening, story, wanted, block)
}

fn are_wanted(
    opening: &Opening,
    story: &[Event],
    number: u64,
    wanted: Wanted,
    pieces: &[Piece],
) -> bool
    ensures { IsTrue result
        ↔ All (λ piece. IsWanted opening.now story.now number wanted piece.block) pieces.now }
{
    pieces.iter().all(|piece| is_wanted(opening, story, number, wanted, piece.block))
}

fn had_wanted(
    opening: &Opening,
    story: &[Event],
    number: u64,
    wanted: Wanted,
    node: &NodeOpening,
) -> bool
    ensures { IsTrue result ↔ HadWanted opening.now story.now number wanted node.now }
{
    are_wanted(opening, story, number, wanted, node.held.items())
}

/// Each block that a disk had.
fn were_wanted(opening: &Opening, story: &[Event], number: u64, wanted: Wanted) -> bool
    ensures { IsTrue result
        ↔ All (HadWanted opening.now story.now number wanted) opening.now.nodes }
{
    for node in opening.nodes.items() {
        if !had_wanted(opening, story, number, wanted, node) {
            return false;
        }
    }
    true
}

fn given(kind: &EventKind) -> Option<Block>
    ensures { result ≡ given kind.now }
{
    match kind {
        EventKind::Put { block, .. } | EventKind::Copy { block, .. } => Some(*block),
        _ => None,
    }
}

fn gives_wanted(
    opening: &Opening,
    story: &[Event],
    number: u64,
    wanted: Wanted,
    kind: &EventKind,
) -> bool
    ensures { IsTrue result
        ↔ IfSome (given kind.now) (IsWanted opening.now story.now number wanted) }
{
    match given(kind) {
        None => true,
        Some(block) => is_wanted(opening, story, number, wanted, block),
    }
}

/// Each block that an event gave.
fn came_wanted(opening: &Opening, story: &[Event], number: u64, wanted: Wanted) -> bool
    ensures { IsTrue result
        ↔ All (λ event. IfSome (given event.kind) (IsWanted opening.now story.now number wanted)) story.now }
{
    story.iter().all(|event| gives_wanted(opening, story, number, wanted, &event.kind))
}

/// Whether each block of the container is as is wanted.
fn all_wanted(opening: &Opening, story: &[Event], number: u64, wanted: Wanted) -> bool
    ensures { IsTrue result
        ↔ ((block : AnyBlock) → IsWanted opening.now story.now number wanted block) }
{
    were_wanted(opening, story, number, wanted) && came_wanted(opening, story, number, wanted)
}

/// Whether the two hold the same blocks of the container, but for those that are being deleted.
pub(crate) fn hold_alike(
    opening: &Opening,
    story: &[Event],
    number: u64,
    dn: usize,
    other: usize,
) -> bool
    ensures { IsTrue result ↔ AreAlike opening.now story.now number dn other }
{
    all_wanted(opening, story, number, Wanted::Alike(dn, other))
}

/// Whether the datanode holds none of the container's blocks.
pub(crate) fn holds_nothing(opening: &Opening, story: &[Event], number: u64, dn: usize) -> bool
    ensures { IsTrue result ↔ HoldsNothing opening.now story.now number dn }
{
    all_wanted(opening, story, number, Wanted::Unheld(dn))
}
