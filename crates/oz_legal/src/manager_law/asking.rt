//! Whether a line or the service job may ask.

ghost use Rattle.std.specs.Prelude.{◌≡◌, ◌↔◌, ◌==◌, All, IsTrue, true, None};
ghost use Rattle.std.specs.List.{list_all, list_any};
ghost use Rattle.oz_core.specs.Asks.{asks, is_asked, is_of_line, pending};
ghost use Rattle.oz_core.specs.Law.{AskIsEnabled, MayGo, PurgesLogged};
ghost use Rattle.oz_core.specs.Scm.{is_in_logs, logged};
ghost use Rattle.oz_core.specs.Seats.{IsAskSeat};
ghost use Rattle.oz_core.specs.Stories.{all_told, has_event};
ghost use Rattle.oz_legal.specs.manager_law.Asking.{is_decided, purges_local, lets_go, AreDecided};

use crate::manager_law::seats::stripe_seat;
use oz_core::{Event, EventKind, Opening, SERVICE_CLIENT};
use oz_fields::Block;
use oz_law::{came_logged, durable_index, is_line_seat, is_of_line, is_told, line_index};
use oz_names::stripe_of;
use oz_replay::{is_id, pending};
use oz_requests::{AskId, PurgeRow, Request};

const SERVICE_SEAT: u16 = 1;

fn asks(id: AskId, kind: &EventKind) -> bool
    ensures { result ≡ asks id kind.now }
{
    match kind {
        EventKind::Ask { id: other, .. } => is_id(id, *other),
        _ => false,
    }
}

fn is_asked(id: AskId, story: &[Event]) -> bool
    ensures { result ≡ is_asked id story.now }
{
    story.iter().any(|event| asks(id, &event.kind))
}

fn is_decided(client: u16, line: u16, story: &[Event], kind: &EventKind) -> bool
    ensures { result ≡ is_decided client line story.now kind.now }
{
    match kind {
        EventKind::Ask { id, .. } if is_of_line(client, line, *id) => pending(*id, story).is_none(),
        _ => true,
    }
}

fn all_decided(client: u16, line: u16, story: &[Event]) -> bool
    ensures { result ≡ list_all (λ event. is_decided client line story.now event.kind) story.now }
{
    story
        .iter()
        .all(|event| is_decided(client, line, story, &event.kind))
}

/// Nothing that the line asked is pending.
fn are_decided(client: u16, line: u16, story: &[Event]) -> bool
    ensures { IsTrue result ↔ AreDecided client line story.now }
{
    all_decided(client, line, story)
}

fn is_in_logs(story: &[Event], block: Block) -> bool
    ensures { result ≡ is_in_logs (all_told logged story.now) block }
{
    came_logged(block, story)
}

fn are_in_logs(story: &[Event], blocks: &[Block]) -> bool
    ensures { result ≡ list_all (λ block. is_in_logs (all_told logged story.now) block) blocks.now }
{
    blocks.iter().all(|block| is_in_logs(story, *block))
}

fn has_local(local: u64, blocks: &[Block]) -> bool
    ensures { result ≡ list_any (λ block. block.local == local) blocks.now }
{
    blocks.iter().any(|block| block.local == local)
}

fn purges_local(story: &[Event], local: u64, kind: &EventKind) -> bool
    ensures { result ≡ purges_local story.now local kind.now }
{
    match kind {
        EventKind::PurgeAsk { blocks } => {
            has_local(local, blocks.items()) && are_in_logs(story, blocks.items())
        }
        _ => false,
    }
}

fn lets_go(story: &[Event], stripe: u8, local: u64, event: &Event) -> bool
    ensures { result ≡ lets_go story.now stripe local event.now }
{
    event.seat == stripe_seat(stripe) && purges_local(story, local, &event.kind)
}

fn has_let_go(story: &[Event], stripe: u8, local: u64) -> bool
    ensures { result ≡ list_any (λ event. lets_go story.now stripe local event) story.now }
{
    story
        .iter()
        .any(|event| lets_go(story, stripe, local, event))
}

fn may_go(story: &[Event], stripe: u8, local: u64) -> bool
    ensures { IsTrue result ↔ MayGo story.now stripe local }
{
    has_let_go(story, stripe, local)
}

fn may_all_go(story: &[Event], stripe: u8, rows: &[PurgeRow]) -> bool
    ensures { IsTrue result ↔ All (λ row. MayGo story.now stripe row.local) rows.now }
{
    rows.iter().all(|row| may_go(story, stripe, row.local))
}

fn is_purge_logged(story: &[Event], request: &Request) -> bool
    ensures { IsTrue result ↔ PurgesLogged story.now request.now }
{
    match request {
        Request::Purge { volume, rows } => {
            may_all_go(story, stripe_of(volume.bytes()), rows.items())
        }
        _ => true,
    }
}

fn is_ask_seat(id: AskId, seat: u16) -> bool
    ensures { IsTrue result ↔ IsAskSeat id seat }
{
    if id.client == SERVICE_CLIENT {
        seat == SERVICE_SEAT
    } else {
        is_line_seat(seat)
    }
}

/// Whether the line, or the service job, may ask this.
pub fn ask_is_enabled(
    opening: &Opening,
    story: &[Event],
    seat: u16,
    id: AskId,
    request: &Request,
) -> bool
    ensures { IsTrue result ↔ AskIsEnabled opening.now story.now seat id request.now }
{
    let may = id.client == SERVICE_CLIENT
        || (!is_asked(id, story)
            && !is_told(id.client, id.line, story)
            && are_decided(id.client, id.line, story)
            && line_index(id.client, id.line, story) <= durable_index(opening, story));
    is_ask_seat(id, seat) && may && is_purge_logged(story, request)
}
