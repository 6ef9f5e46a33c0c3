//! Whether datanodes may stop, start, be wiped, and be taken for up or down.

ghost use Rattle.std.specs.Prelude.{◌≡◌, ◌↔◌, IsTrue, true, option_copied};
ghost use Rattle.oz_core.specs.Law.{UpIsEnabled, DownIsEnabled, StopIsEnabled, StartIsEnabled, WipeIsEnabled};
ghost use Rattle.oz_core.specs.Law.{comes_to_a_state, WasNotOpen, CloseCommandIsEnabled};
ghost use Rattle.oz_core.specs.Nodes.{stopped_or_started, is_running};
ghost use Rattle.oz_core.specs.Stories.{has_event, last_told};

use crate::manager::halt_of;
use crate::scm::is_up;
use crate::seats::{SCM_SEAT, is_datanode_seat};
use oz_container::State;
use oz_core::{Container, Event, EventKind, Node, Opening};

fn stopped_or_started(dn: u8, kind: &EventKind) -> Option<bool>
    ensures { result ≡ stopped_or_started dn kind.now }
{
    match kind {
        EventKind::Stop { dn: other } if *other == dn => Some(false),
        EventKind::Start { dn: other } if *other == dn => Some(true),
        _ => None,
    }
}

fn is_started(dn: u8, story: &[Event]) -> bool
    ensures { result ≡ last_told (stopped_or_started dn) true story.now }
{
    let mut started = true;
    for event in story {
        started = stopped_or_started(dn, &event.kind).unwrap_or(started);
    }
    started
}

/// Whether the datanode runs: it didn't halt, and no line stopped it without another starting it.
pub fn is_running(dn: u8, story: &[Event]) -> bool
    ensures { result ≡ is_running dn story.now }
{
    halt_of(Node::Datanode(dn), story).is_none() && is_started(dn, story)
}

/// Whether the datanode may be taken for up again.
pub fn up_is_enabled(opening: &Opening, story: &[Event], seat: u16, dn: u8) -> bool
    ensures { IsTrue result ↔ UpIsEnabled opening.now story.now seat dn }
{
    seat == SCM_SEAT
        && usize::from(dn) < opening.nodes.len()
        && !is_up(usize::from(dn), story)
        && is_running(dn, story)
}

/// Whether it may be taken for down.
pub fn down_is_enabled(opening: &Opening, story: &[Event], seat: u16, dn: u8) -> bool
    ensures { IsTrue result ↔ DownIsEnabled opening.now story.now seat dn }
{
    seat == SCM_SEAT
        && usize::from(dn) < opening.nodes.len()
        && is_up(usize::from(dn), story)
        && !is_running(dn, story)
}

/// Whether a line may stop the datanode.
pub fn stop_is_enabled(opening: &Opening, story: &[Event], seat: u16, dn: u8) -> bool
    ensures { IsTrue result ↔ StopIsEnabled opening.now story.now seat dn }
{
    is_datanode_seat(opening, dn, seat)
        && halt_of(Node::Datanode(dn), story).is_none()
        && is_running(dn, story)
}

/// Whether a line may start it again.
pub fn start_is_enabled(opening: &Opening, story: &[Event], seat: u16, dn: u8) -> bool
    ensures { IsTrue result ↔ StartIsEnabled opening.now story.now seat dn }
{
    is_datanode_seat(opening, dn, seat)
        && halt_of(Node::Datanode(dn), story).is_none()
        && !is_running(dn, story)
}

/// Whether a line may take away what it holds.
pub fn wipe_is_enabled(opening: &Opening, story: &[Event], seat: u16, dn: u8) -> bool
    ensures { IsTrue result ↔ WipeIsEnabled opening.now story.now seat dn }
{
    is_datanode_seat(opening, dn, seat) && halt_of(Node::Datanode(dn), story).is_none()
}

fn comes_to_a_state(number: u64, kind: &EventKind) -> bool
    ensures { result ≡ comes_to_a_state number kind.now }
{
    match kind {
        EventKind::Closed { container, .. } => *container == number,
        _ => false,
    }
}

fn came_to_a_state(number: u64, story: &[Event]) -> bool
    ensures { result ≡ has_event (comes_to_a_state number) story.now }
{
    story
        .iter()
        .any(|event| comes_to_a_state(number, &event.kind))
}

fn was_not_open(container: Option<&Container>) -> bool
    ensures { IsTrue result ↔ WasNotOpen (option_copied container.entry) }
{
    match container {
        None => false,
        Some(container) => container.state != State::Open,
    }
}

/// Whether the datanode may close its replica of the container.
pub fn close_command_is_enabled(
    opening: &Opening,
    story: &[Event],
    seat: u16,
    dn: u8,
    number: u64,
) -> bool
    ensures { IsTrue result ↔ CloseCommandIsEnabled opening.now story.now seat dn number }
{
    is_datanode_seat(opening, dn, seat)
        && is_running(dn, story)
        && (came_to_a_state(number, story) || was_not_open(opening.containers.get(number)))
}
