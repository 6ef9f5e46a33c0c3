//! Whether the manager may decide what was asked.

ghost use Rattle.std.specs.Prelude.{◌≡◌, ◌↔◌, ◌<◌, [], IfOk, IsTrue, length};
ghost use Rattle.oz_names.specs.Names.{stripe_of};
ghost use Rattle.oz_requests.specs.Names.{volume_in};
ghost use Rattle.oz_model.specs.Answers.{Answers};
ghost use Rattle.oz_core.specs.Law.{DecideIsEnabled, GrantIsAllowed, IndexGoesOn};
ghost use Rattle.oz_core.specs.Manager.{last_index, namespace_of};
ghost use Rattle.oz_legal.specs.manager_law.Words.{DecidesSo, changes, changes_if_done, counts_some, goes_on, is_next, is_service};

use crate::manager_law::granting::may_be_granted;
use crate::manager_law::late::asked_late;
use crate::manager_law::replies::is_of_one_thread;
use crate::manager_law::seats::stripe_seat;
use oz_core::{Event, Opening};
use oz_fields::OutOfMemory;
use oz_law::last_index;
use oz_names::stripe_of;
use oz_namespace::Namespace;
use oz_replay::{namespace_of, pending};
use oz_requests::{AskId, Family, Reply, Request};
use std::alloc::Global;

fn grant_is_allowed(
    alloc: Global,
    opening: &Opening,
    story: &[Event],
    request: &Request,
    reply: &Reply,
) -> Result<bool, OutOfMemory>
    ensures { IfOk result (λ is. IsTrue is ↔ GrantIsAllowed opening.now story.now request.now reply.now) }
{
    match (request, reply) {
        (
            Request::AllocateBlock {
                volume,
                exclude,
                ..
            },
            Reply::Granted(block, pipeline),
        ) => {
            let stripe = stripe_of(volume.bytes());
            may_be_granted(alloc, opening, story, stripe, exclude, *block, *pipeline)
        }
        _ => Ok(true),
    }
}

fn is_service(family: Family) -> bool
    ensures { result ≡ is_service family }
{
    match family {
        Family::Service => true,
        _ => false,
    }
}

fn counts_some(reply: &Reply) -> bool
    ensures { result ≡ counts_some reply.now }
{
    match reply {
        Reply::Count(count) => *count > 0,
        _ => false,
    }
}

fn changes_if_done(request: &Request, reply: &Reply) -> bool
    ensures { result ≡ changes_if_done request.now reply.now }
{
    match request {
        Request::CreateVolume { .. }
        | Request::DeleteVolume { .. }
        | Request::CreateBucket { .. }
        | Request::DeleteBucket { .. }
        | Request::CreateKey { .. }
        | Request::AllocateBlock { .. }
        | Request::CommitKey { .. }
        | Request::DeleteKey { .. }
        | Request::RenameKey { .. }
        | Request::CreateSnapshot { .. }
        | Request::DeleteSnapshot { .. } => true,
        Request::ExpireOpen { .. } => counts_some(reply),
        _ => false,
    }
}

/// Whether a request changes something that one thread replies to so.
fn changes(request: &Request, reply: &Reply) -> bool
    ensures { result ≡ changes request.now reply.now }
{
    match reply {
        Reply::Code(_) => false,
        _ => changes_if_done(request, reply),
    }
}

fn is_next(last: u64, index: u64) -> bool
    ensures { result ≡ is_next last index }
{
    index.checked_sub(1) == Some(last)
}

fn goes_on(is_service: bool, changes: bool, last: u64, index: u64) -> bool
    ensures { result ≡ goes_on is_service changes last index }
{
    if is_service {
        index == last || is_next(last, index)
    } else if changes {
        is_next(last, index)
    } else {
        index == last
    }
}

/// A namespace has a place for each stripe.
fn has_stripe(namespace: &Namespace, volume: &[u8])
    ensures { stripe_of volume.now < length namespace.now.stripes }
{
    let places: &[u64] = &namespace.stripes;
    let _drawn = places[usize::from(stripe_of(volume))];
}

/// The index goes on as one thread's reply to the request wants.
fn index_goes_on(
    opening: &Opening,
    story: &[Event],
    namespace: &Namespace,
    request: &Request,
    reply: &Reply,
    index: u64,
) -> bool
    requires namespace { namespace.now ≡ namespace_of opening.now story.now }
    requires reply { Answers namespace.now request.now reply.now }
    ensures { IsTrue result ↔ IndexGoesOn opening.now story.now request.now reply.now index }
{
    has_stripe(namespace, request.volume());
    let last = last_index(opening, story);
    let is_service = is_service(request.family());
    let changes = changes(request, reply);
    goes_on(is_service, changes, last, index)
}

/// A batch is there where the index is another than before.
fn is_recorded(opening: &Opening, story: &[Event], index: u64, batch: &[u8]) -> bool
    ensures { IsTrue result ↔ ((batch.now ≡ []) ↔ (index ≡ last_index opening.now story.now)) }
{
    batch.is_empty() == (index == last_index(opening, story))
}

fn decides_so(
    alloc: Global,
    opening: &Opening,
    story: &[Event],
    seat: u16,
    id: AskId,
    request: &Request,
    index: u64,
    reply: &Reply,
    batch: &[u8],
) -> Result<bool, OutOfMemory>
    ensures { IfOk result (λ is. IsTrue is
        ↔ DecidesSo opening.now story.now seat id request.now index reply.now batch.now) }
{
    let namespace = namespace_of(alloc, opening, story)?;
    if !is_of_one_thread(alloc, &namespace, request, reply)? {
        return Ok(false);
    }
    let granted = grant_is_allowed(alloc, opening, story, request, reply)?;
    Ok(
        !asked_late(id, story)
            && seat == stripe_seat(stripe_of(request.volume()))
            && granted
            && index_goes_on(opening, story, &namespace, request, reply, index)
            && is_recorded(opening, story, index, batch),
    )
}

/// Whether what was asked by this id may be decided so. `batch` has the bytes of its operations. Where a stripe would
/// draw the number 2^64, or a reply would count 2^32 things, it answers that memory ran out, as where it does.
pub fn decide_is_enabled(
    alloc: Global,
    opening: &Opening,
    story: &[Event],
    seat: u16,
    id: AskId,
    index: u64,
    reply: &Reply,
    batch: &[u8],
) -> Result<bool, OutOfMemory>
    ensures { IfOk result (λ is. IsTrue is
        ↔ DecideIsEnabled opening.now story.now seat id index reply.now batch.now) }
{
    match pending(id, story) {
        None => Ok(false),
        Some(request) => {
            decides_so(
                alloc, opening, story, seat, id, request, index, reply, batch,
            )
        }
    }
}
