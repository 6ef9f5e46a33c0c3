//! Whether a block may be written.

ghost use Rattle.std.specs.Prelude.{◌≡◌, ◌⊎◌, ◌↔◌, ◌≤◌, IsTrue, All, List, count_by, true};
ghost use Rattle.std.specs.List.{list_all};
ghost use Rattle.oz_core.specs.declared.event.Event.{Event as AnyEvent};
ghost use Rattle.oz_core.specs.Contents.{WasGranted};
ghost use Rattle.oz_core.specs.Law.{puts, refuses, writes, WroteIsEnabled};
ghost use Rattle.oz_core.specs.Scm.{members};
ghost use Rattle.oz_core.specs.Stories.{has_event};
ghost use Rattle.oz_node_law.specs.Words.{has_answered, IsAnswered, MayWrite};

use crate::granted::granted_place;
use crate::membership::members;
use oz_core::{Event, EventKind, Opening};
use oz_fields::Block;
use oz_law::{is_block, is_id, is_line_seat};
use oz_requests::AskId;

fn puts(dn: usize, block: Block, kind: &EventKind) -> bool
    ensures { result ≡ puts dn block kind.now }
{
    match kind {
        EventKind::Put {
            dn: other,
            block: put,
            ..
        } => usize::from(*other) == dn && is_block(block, *put),
        _ => false,
    }
}

fn has_put(dn: usize, block: Block, story: &[Event]) -> bool
    ensures { result ≡ has_event (puts dn block) story.now }
{
    story.iter().any(|event| puts(dn, block, &event.kind))
}

fn refuses(dn: usize, block: Block, id: AskId, kind: &EventKind) -> bool
    ensures { result ≡ refuses dn block id kind.now }
{
    match kind {
        EventKind::Refused {
            dn: other,
            block: of_block,
            id: of_id,
            ..
        } => usize::from(*other) == dn && is_block(block, *of_block) && is_id(id, *of_id),
        _ => false,
    }
}

fn has_refused(dn: usize, block: Block, id: AskId, story: &[Event]) -> bool
    ensures { result ≡ has_event (refuses dn block id) story.now }
{
    story
        .iter()
        .any(|event| refuses(dn, block, id, &event.kind))
}

fn writes(block: Block, kind: &EventKind) -> bool
    ensures { result ≡ writes block kind.now }
{
    match kind {
        EventKind::Wrote { block: wrote, .. } => is_block(block, *wrote),
        _ => false,
    }
}

fn is_written(block: Block, story: &[Event]) -> bool
    ensures { result ≡ has_event (writes block) story.now }
{
    story.iter().any(|event| writes(block, &event.kind))
}

/// The datanode has put the block, or refused it for this ask.
fn has_answered(story: &[Event], dn: usize, block: Block, id: AskId) -> bool
    ensures { result ≡ has_answered story.now block id dn }
{
    has_put(dn, block, story) || has_refused(dn, block, id, story)
}

fn all_answered(story: &[Event], dns: &[usize], block: Block, id: AskId) -> bool
    ensures { result ≡ list_all (has_answered story.now block id) dns.now }
{
    dns.iter().all(|dn| has_answered(story, *dn, block, id))
}

fn have_answered(story: &[Event], dns: &[usize], block: Block, id: AskId) -> bool
    ensures { IsTrue result
        ↔ All (λ dn. (has_event (puts dn block) story.now ≡ true) ⊎ (has_event (refuses dn block id) story.now ≡ true))
        dns.now }
{
    all_answered(story, dns, block, id)
}

fn count_put(story: &[Event], dns: &[usize], block: Block) -> usize
    ensures { result ≡ count_by (λ dn. has_event (puts dn block) story.now) dns.now }
{
    dns.iter().filter(|dn| has_put(**dn, block, story)).count()
}

fn is_quorum(story: &[Event], dns: &[usize], block: Block) -> bool
    ensures { IsTrue result ↔ (2 ≤ count_by (λ dn. has_event (puts dn block) story.now) dns.now) }
{
    count_put(story, dns, block) >= 2
}

/// All of these have answered, and two of them have put the block.
fn are_enough(story: &[Event], dns: &[usize], block: Block, id: AskId) -> bool
    ensures { IsTrue result ↔ IsAnswered story.now block id dns.now }
{
    have_answered(story, dns, block, id) && is_quorum(story, dns, block)
}

fn is_answered(opening: &Opening, story: &[Event], block: Block, id: AskId) -> bool
    ensures { IsTrue result
        ↔ IsAnswered story.now block id (members opening.now story.now block.container) }
{
    match members(opening, story, block.container) {
        None => false,
        Some(dns) => are_enough(story, &dns, block, id),
    }
}

fn is_granted(story: &[Event], id: AskId, block: Block) -> bool
    ensures { IsTrue result ↔ ((before : List AnyEvent) × WasGranted story.now id block before) }
{
    match granted_place(story, id, block) {
        None => false,
        Some(_) => true,
    }
}

/// A line's seat, and a block that isn't written.
fn may_write(story: &[Event], seat: u16, block: Block) -> bool
    ensures { IsTrue result ↔ MayWrite story.now seat block }
{
    is_line_seat(seat) && !is_written(block, story)
}

fn is_written_by(opening: &Opening, story: &[Event], seat: u16, block: Block, id: AskId) -> bool
    ensures { IsTrue result ↔ MayWrite story.now seat block
        × IsAnswered story.now block id (members opening.now story.now block.container) }
{
    may_write(story, seat, block) && is_answered(opening, story, block, id)
}

/// Whether the block that was granted to this ask may be written.
pub fn wrote_is_enabled(
    opening: &Opening,
    story: &[Event],
    seat: u16,
    block: Block,
    id: AskId,
) -> bool
    ensures { IsTrue result ↔ WroteIsEnabled opening.now story.now seat block id }
{
    is_granted(story, id, block) && is_written_by(opening, story, seat, block, id)
}
