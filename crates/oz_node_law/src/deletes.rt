//! Whether a datanode may apply a transaction.

ghost use Rattle.std.specs.Prelude.{◌≡◌, ◌↔◌, ◌<◌, ◌⊎◌, IsTrue, IsSomeAnd, Contains, length, slice_index};
ghost use Rattle.std.specs.List.{Any};
ghost use Rattle.oz_core.specs.Law.{DeleteIsEnabled};
ghost use Rattle.oz_core.specs.Scm.{members, logged};
ghost use Rattle.oz_node_law.specs.Words.{held_of, IsApplied, HasApplied};

use oz_core::{Event, EventKind, Opening};
use oz_dellog::Txn;
use oz_fields::Block;
use oz_law::{holds, is_datanode_seat, is_member, is_running};

fn has_at(locals: &[u64], place: usize, local: u64) -> bool
    ensures { IsTrue result ↔ (place < length locals.now) × (slice_index locals.now place ≡ local) }
{
    place < locals.len() && locals[place] == local
}

/// Whether these are what the datanode holds of all those, in their order.
fn are_held(
    opening: &Opening,
    story: &[Event],
    dn: u8,
    container: u64,
    all: &[u64],
    locals: &[u64],
) -> bool
    ensures { IsTrue result ↔ (locals.now ≡ held_of opening.now story.now dn container all.now) }
{
    let mut next = 0;
    for local in all {
        let block = Block {
            container,
            local: *local,
        };
        if holds(opening, story, usize::from(dn), block) {
            if !has_at(locals, next, *local) {
                return false;
            }
            next += 1;
        }
    }
    next == locals.len()
}

/// The same, by a member of the container.
fn are_members(
    opening: &Opening,
    story: &[Event],
    dn: u8,
    container: u64,
    all: &[u64],
    locals: &[u64],
) -> bool
    ensures { IsTrue result ↔ Contains (members opening.now story.now container) dn
        × (locals.now ≡ held_of opening.now story.now dn container all.now) }
{
    is_member(opening, story, container, dn) && are_held(opening, story, dn, container, all, locals)
}

fn is_applied(
    opening: &Opening,
    story: &[Event],
    dn: u8,
    number: u64,
    locals: &[u64],
    txn: &Txn,
) -> bool
    ensures { IsTrue result ↔ IsApplied opening.now story.now dn number locals.now txn.now }
{
    txn.number == number
        && are_members(
            opening,
            story,
            dn,
            txn.container,
            txn.locals.items(),
            locals,
        )
}

fn was_applied(opening: &Opening, story: &[Event], dn: u8, number: u64, locals: &[u64]) -> bool
    ensures { IsTrue result
        ↔ Any (λ unretired. IsApplied opening.now story.now dn number locals.now unretired.txn) opening.now.unretired }
{
    for unretired in opening.unretired.items() {
        if is_applied(opening, story, dn, number, locals, &unretired.txn) {
            return true;
        }
    }
    false
}

fn logs_applied(
    opening: &Opening,
    story: &[Event],
    dn: u8,
    number: u64,
    locals: &[u64],
    kind: &EventKind,
) -> bool
    ensures { IsTrue result
        ↔ IsSomeAnd (logged kind.now) (IsApplied opening.now story.now dn number locals.now) }
{
    match kind {
        EventKind::Log {
            txn,
            container,
            locals: all,
        } => { *txn == number && are_members(opening, story, dn, *container, all.items(), locals) }
        _ => false,
    }
}

fn came_applied(opening: &Opening, story: &[Event], dn: u8, number: u64, locals: &[u64]) -> bool
    ensures { IsTrue result
        ↔ Any (λ event. IsSomeAnd (logged event.kind) (IsApplied opening.now story.now dn number locals.now)) story.now }
{
    story.iter().any(|event| logs_applied(opening, story, dn, number, locals, &event.kind))
}

/// Whether the log has such a transaction.
fn has_applied(opening: &Opening, story: &[Event], dn: u8, number: u64, locals: &[u64]) -> bool
    ensures { IsTrue result ↔ HasApplied opening.now story.now dn number locals.now }
{
    was_applied(opening, story, dn, number, locals)
        || came_applied(opening, story, dn, number, locals)
}

/// Whether the datanode may apply the transaction, and tell that it held these of its blocks until then.
pub fn delete_is_enabled(
    opening: &Opening,
    story: &[Event],
    seat: u16,
    dn: u8,
    number: u64,
    locals: &[u64],
) -> bool
    ensures { IsTrue result ↔ DeleteIsEnabled opening.now story.now seat dn number locals.now }
{
    is_datanode_seat(opening, dn, seat)
        && is_running(dn, story)
        && has_applied(opening, story, dn, number, locals)
}
