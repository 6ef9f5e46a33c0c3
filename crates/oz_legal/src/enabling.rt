//! Whether an event may follow a story.

ghost use Rattle.std.specs.Prelude.{◌≡◌, ◌↔◌, IfOk, IsTrue};
ghost use Rattle.oz_core.specs.Law.{IsEnabled, KindIsEnabled};
ghost use Rattle.oz_legal.specs.Parts.{part_of};
ghost use Rattle.oz_legal.specs.declared.parts.Part.TheVariants as parts;

use crate::manager_law::{ask_is_enabled, decide_is_enabled, purge_ask_is_enabled};
use crate::parts::{Part, part_of};
use oz_core::{Event, EventKind, Opening};
use oz_fields::OutOfMemory;
use oz_law::{
    ack_del_is_enabled, bad_is_enabled, close_command_is_enabled, copy_is_enabled, down_is_enabled,
    flushed_is_enabled, halt_is_enabled, log_is_enabled, retire_is_enabled, start_is_enabled,
    stop_is_enabled, swap_is_enabled, told_is_enabled, up_is_enabled, wipe_is_enabled,
};
use oz_node_law::{delete_is_enabled, put_is_enabled, refused_is_enabled, wrote_is_enabled};
use oz_scm_law::{closed_is_enabled, grant_is_enabled};
use std::alloc::Global;

/// An event of the manager or of a line.
fn of_manager_is_enabled(
    alloc: Global,
    opening: &Opening,
    story: &[Event],
    seat: u16,
    kind: &EventKind,
) -> Result<bool, OutOfMemory>
    requires { part_of kind.now ≡ parts.Manager }
    ensures { IfOk result (λ is. IsTrue is ↔ KindIsEnabled opening.now story.now seat kind.now) }
{
    match kind {
        EventKind::Ask { id, request } => Ok(ask_is_enabled(opening, story, seat, *id, request)),
        EventKind::Decide {
            id,
            index,
            reply,
            batch,
        } => {
            let batch = batch.items();
            decide_is_enabled(alloc, opening, story, seat, *id, *index, reply, batch)
        }
        EventKind::Swap { index } => Ok(swap_is_enabled(opening, story, seat, *index)),
        EventKind::Flushed { index, moment } => {
            Ok(flushed_is_enabled(opening, story, seat, *index, *moment))
        }
        EventKind::PurgeAsk { blocks } => {
            purge_ask_is_enabled(alloc, opening, story, seat, blocks.items())
        }
        EventKind::Told {
            client,
            line,
            answer,
        } => Ok(told_is_enabled(opening, story, seat, *client, *line, answer)),
        _ => unreachable!(),
    }
}

/// An event of the storage container manager.
fn of_scm_is_enabled(
    alloc: Global,
    opening: &Opening,
    story: &[Event],
    seat: u16,
    kind: &EventKind,
) -> Result<bool, OutOfMemory>
    requires { part_of kind.now ≡ parts.Scm }
    ensures { IfOk result (λ is. IsTrue is ↔ KindIsEnabled opening.now story.now seat kind.now) }
{
    match kind {
        EventKind::Grant {
            stripe,
            container,
            pipeline,
            first,
            count,
        } => grant_is_enabled(
            alloc, opening, story, seat, *stripe, *container, *pipeline, *first, *count,
        ),
        EventKind::Up { dn } => Ok(up_is_enabled(opening, story, seat, *dn)),
        EventKind::Down { dn } => Ok(down_is_enabled(opening, story, seat, *dn)),
        EventKind::Log {
            txn,
            container,
            locals,
        } => {
            let locals = locals.items();
            Ok(log_is_enabled(opening, story, seat, *txn, *container, locals))
        }
        EventKind::AckDel { dn, txn } => {
            ack_del_is_enabled(alloc, opening, story, seat, *dn, *txn)
        }
        EventKind::Retire { txn } => retire_is_enabled(alloc, opening, story, seat, *txn),
        EventKind::Closed { container, state } => {
            Ok(closed_is_enabled(opening, story, seat, *container, *state))
        }
        _ => unreachable!(),
    }
}

/// An event of a datanode that writes or reads a block, or the Wrote of a line.
fn of_blocks_is_enabled(opening: &Opening, story: &[Event], seat: u16, kind: &EventKind) -> bool
    requires { part_of kind.now ≡ parts.Blocks }
    ensures { IsTrue result ↔ KindIsEnabled opening.now story.now seat kind.now }
{
    match kind {
        EventKind::Put {
            dn,
            block,
            id,
            first,
            length,
        } => put_is_enabled(opening, story, seat, *dn, *block, *id, *first, *length),
        EventKind::Refused {
            dn,
            block,
            id,
            refusal,
        } => refused_is_enabled(opening, story, seat, *dn, *block, *id, *refusal),
        EventKind::Wrote { block, id } => wrote_is_enabled(opening, story, seat, *block, *id),
        EventKind::Bad { dn, block, id } => bad_is_enabled(opening, story, seat, *dn, *block, *id),
        EventKind::Delete { dn, txn, locals } => {
            delete_is_enabled(opening, story, seat, *dn, *txn, locals.items())
        }
        EventKind::Copy {
            source,
            target,
            block,
        } => copy_is_enabled(opening, story, seat, *source, *target, *block),
        _ => unreachable!(),
    }
}

/// An event of a node as a whole, or of a replica.
fn of_nodes_is_enabled(opening: &Opening, story: &[Event], seat: u16, kind: &EventKind) -> bool
    requires { part_of kind.now ≡ parts.Nodes }
    ensures { IsTrue result ↔ KindIsEnabled opening.now story.now seat kind.now }
{
    match kind {
        EventKind::Halt { node, count } => halt_is_enabled(opening, story, seat, *node, *count),
        EventKind::Stop { dn } => stop_is_enabled(opening, story, seat, *dn),
        EventKind::Start { dn } => start_is_enabled(opening, story, seat, *dn),
        EventKind::Wipe { dn } => wipe_is_enabled(opening, story, seat, *dn),
        EventKind::CloseCommand { dn, container } => {
            close_command_is_enabled(opening, story, seat, *dn, *container)
        }
        _ => unreachable!(),
    }
}

/// Whether an event may follow a story.
pub fn enabled(
    alloc: Global,
    opening: &Opening,
    story: &[Event],
    event: &Event,
) -> Result<bool, OutOfMemory>
    ensures { IfOk result (λ is. IsTrue is ↔ IsEnabled opening.now story.now event.now) }
{
    let seat = event.seat;
    let kind = &event.kind;
    match part_of(kind) {
        Part::Manager => of_manager_is_enabled(alloc, opening, story, seat, kind),
        Part::Scm => of_scm_is_enabled(alloc, opening, story, seat, kind),
        Part::Blocks => Ok(of_blocks_is_enabled(opening, story, seat, kind)),
        Part::Nodes => Ok(of_nodes_is_enabled(opening, story, seat, kind)),
    }
}
