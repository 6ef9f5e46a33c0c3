//! The blocks that replies named to lines that weren't told yet.

ghost use Rattle.std.specs.Prelude.{◌≡◌, ◌↔◌, All, Contains, IsTrue};
ghost use Rattle.std.specs.List.{list_any};
ghost use Rattle.oz_core.specs.Manager.{pinned, pinned_by};
ghost use Rattle.oz_core.specs.Nodes.{is_block};
ghost use Rattle.oz_legal.specs.manager_law.Words.{IsNoneOf};

use oz_core::{Event, EventKind};
use oz_fields::Block;
use oz_law::{is_named_by, is_told};

fn pins(story: &[Event], block: Block, kind: &EventKind) -> bool
    ensures { result ≡ list_any (is_block block) (pinned_by story.now kind.now) }
{
    match kind {
        EventKind::Decide { id, reply, .. } => {
            !is_told(id.client, id.line, story) && is_named_by(block, reply)
        }
        _ => false,
    }
}

fn any_pins(story: &[Event], block: Block) -> bool
    ensures { result ≡ list_any (λ event. list_any (is_block block) (pinned_by story.now event.kind)) story.now }
{
    story.iter().any(|event| pins(story, block, &event.kind))
}

fn is_pinned(story: &[Event], block: Block) -> bool
    ensures { IsTrue result ↔ Contains (pinned story.now) block }
{
    any_pins(story, block)
}

fn is_unpinned(story: &[Event], block: Block) -> bool
    ensures { IsTrue result ↔ (Contains (pinned story.now) block → ⊥) }
{
    !is_pinned(story, block)
}

fn is_free(story: &[Event], block: Block) -> bool
    ensures { IsTrue result ↔ IsNoneOf (pinned story.now) block }
{
    is_unpinned(story, block)
}

/// No line still works on one of these.
pub(crate) fn are_free(story: &[Event], blocks: &[Block]) -> bool
    ensures { IsTrue result ↔ All (IsNoneOf (pinned story.now)) blocks.now }
{
    blocks.iter().all(|block| is_free(story, *block))
}
