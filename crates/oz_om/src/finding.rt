//! What was asked at a place of a story.

ghost use Rattle.std.specs.Prelude.{◌≡◌, ◌↔◌, ℕ, List, IfSome, IfNone, IsTrue, Contains};
ghost use Rattle.oz_asker.specs.Asked.{IsAskAt};
ghost use Rattle.oz_core.specs.declared.event.EventKind.TheVariants.{Ask, Decide};
ghost use Rattle.oz_om.specs.Held.{IsLastAsk, IsOpenAsk};
ghost use Rattle.oz_om.specs.Served.{IsDecidedBehind};
ghost use Rattle.oz_requests.specs.declared.reply.Reply.{Reply as AnyReply};
ghost use Rattle.oz_requests.specs.declared.request.Request.{Request as AnyRequest};

use oz_buffer::{Ledger, Opened};
use oz_core::{Event, EventKind};
use oz_names::stripe_of;
use oz_requests::{AskId, Request};
use oz_turn::Told;

/// What an id asked at a place, None where something else stands there.
fn ask_at(story: &[Event], place: usize, id: AskId) -> Option<&Request>
    ensures { IfSome result (λ request. IsAskAt story.now place id request.now) }
{
    match story.get(place) {
        Some(event) => asked_in(&event.kind, id),
        None => None,
    }
}

fn asked_in(kind: &EventKind, id: AskId) -> Option<&Request>
    ensures { IfSome result (λ request. kind.now ≡ Ask id request.now) }
{
    match kind {
        EventKind::Ask { id: asked, request } if *asked == id => Some(request),
        _ => None,
    }
}

/// Where an id asked last.
pub(crate) fn last_ask_of(story: &[Event], id: AskId) -> Option<usize>
    ensures some { IfSome result (IsLastAsk story.now id) }
    ensures none { IfNone result ((seat : ℕ) (request : AnyRequest) →
        Contains story.now (record { seat = seat; kind = Ask id request }) → ⊥) }
{
    let mut place = story.len();
    while place > 0 {
        place -= 1;
        if asks(&story[place].kind, id) {
            return Some(place);
        }
    }
    None
}

fn asks(kind: &EventKind, id: AskId) -> bool
    ensures { IsTrue result ↔ ((request : AnyRequest) × (kind.now ≡ Ask id request)) }
{
    match kind {
        EventKind::Ask { id: asked, .. } => *asked == id,
        _ => false,
    }
}

/// With which index an id was decided last behind so many events of a story.
pub(crate) fn decided_behind(story: &[Event], length: usize, id: AskId) -> Option<u64>
    ensures { IfSome result (IsDecidedBehind story.now length id) }
{
    let mut place = story.len();
    while place > length {
        place -= 1;
        let index = index_in(&story[place].kind, id);
        if index.is_some() {
            return index;
        }
    }
    None
}

fn index_in(kind: &EventKind, id: AskId) -> Option<u64>
    ensures { IfSome result (λ index. (reply : AnyReply) × (batch : List ℕ) × (kind.now ≡ Decide id index reply batch)) }
{
    match kind {
        EventKind::Decide {
            id: decided,
            index,
            ..
        } if *decided == id => Some(*index),
        _ => None,
    }
}

/// The request of an Ask at a place that is undecided and the last of its id, and that the manager hadn't halted before,
/// where it is the stripe's.
pub(crate) fn open_ask<O: Opened>(
    ledger: &Ledger<O>,
    place: usize,
    id: AskId,
    stripe: u8,
) -> Option<&Request>
    ensures { IfSome result (λ request. IsOpenAsk ledger.now.story place id stripe request.now) }
{
    if !ledger.is_pending(id) || ledger.asked_late(id) {
        return None;
    }
    let request = ask_at(ledger.entries(), place, id)?;
    let last = last_ask_of(ledger.entries(), id)?;
    if last != place {
        return None;
    }
    if stripe_of(request.volume()) != stripe {
        return None;
    }
    Some(request)
}
