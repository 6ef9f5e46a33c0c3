//! What stands in a story.

ghost use Rattle.std.specs.Prelude.{◌≡◌, ◌↔◌, ℕ, List as Items, Some, IfSome, IfNone, IsTrue, Contains};
ghost use Rattle.oz_asker.specs.Asked.{IsAskAt};
ghost use Rattle.oz_asker.specs.Decided.{IsDecideAt};
ghost use Rattle.oz_core.specs.declared.event.EventKind.TheVariants.{Ask, Decide};
ghost use Rattle.oz_requests.specs.declared.request.Request.{Request as AnyRequest};

use oz_core::{Event, EventKind};
use oz_fields::{List, Name, Piece};
use oz_requests::{AskId, Reply};

/// The place of the last Ask of an id.
pub(crate) fn last_ask_of(story: &[Event], id: AskId) -> Option<usize>
    ensures some { IfSome result (λ place. (request : AnyRequest) × IsAskAt story.now place id request) }
    ensures none { IfNone result ((seat : ℕ) (request : AnyRequest) →
        Contains story.now (record { seat = seat; kind = Ask id request }) → ⊥) }
{
    let mut place = story.len();
    while place > 0 {
        place -= 1;
        if asks(&story[place].kind, id) {
            return Some(place);
        }
    }
    None
}

fn asks(kind: &EventKind, id: AskId) -> bool
    ensures { IsTrue result ↔ ((request : AnyRequest) × (kind.now ≡ Ask id request)) }
{
    match kind {
        EventKind::Ask { id: asked, .. } => *asked == id,
        _ => false,
    }
}

/// Whether an id was decided at a place, with this reply.
pub(crate) fn is_decided_at(story: &[Event], place: usize, id: AskId, reply: &Reply) -> bool
    ensures { IsTrue result ↔ IsDecideAt story.now place id reply.now }
{
    match story.get(place) {
        Some(event) => decides(&event.kind, id, reply),
        None => false,
    }
}

fn decides(kind: &EventKind, id: AskId, reply: &Reply) -> bool
    ensures { IsTrue result ↔ ((index : ℕ) × (batch : Items ℕ) × (kind.now ≡ Decide id index reply.now batch)) }
{
    match kind {
        EventKind::Decide {
            id: decided,
            reply: replied,
            ..
        } => *decided == id && is_same(replied, reply),
        _ => false,
    }
}

/// Whether two replies are the same.
fn is_same(one: &Reply, other: &Reply) -> bool
    ensures { IsTrue result ↔ (one.now ≡ other.now) }
{
    match (one, other) {
        (Reply::Done, Reply::Done) => true,
        (Reply::Count(count), Reply::Count(another)) => count == another,
        (Reply::Counts(counts), Reply::Counts(another)) => counts == another,
        (Reply::Names(names), Reply::Names(others)) => are_same_names(names, others),
        (Reply::Session(number), Reply::Session(another)) => number == another,
        (Reply::Granted(block, pipeline), Reply::Granted(another, its)) => {
            block == another && pipeline == its
        }
        (Reply::Pieces(pieces), Reply::Pieces(others)) => are_same_pieces(pieces, others),
        (Reply::Code(code), Reply::Code(another)) => code == another,
        _ => false,
    }
}

fn are_same_names(one: &List<Name>, other: &List<Name>) -> bool
    ensures { IsTrue result ↔ (one.now ≡ other.now) }
{
    one == other
}

fn are_same_pieces(one: &List<Piece>, other: &List<Piece>) -> bool
    ensures { IsTrue result ↔ (one.now ≡ other.now) }
{
    one == other
}
