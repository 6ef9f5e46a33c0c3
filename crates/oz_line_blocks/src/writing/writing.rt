//! How a line writes a block at its members.

ghost use Rattle.std.specs.Prelude.{◌≡◌, ◌≤◌, ◌<◌, ◌+◌, [], true, All, List, Option, length, IfOk, IfErr};
ghost use Rattle.oz_buffer.specs.Buffer.{AllFollow, Follows};
ghost use Rattle.oz_buffer.specs.Became.{times_said};
ghost use Rattle.oz_core.specs.declared.event.Event.{Event as AnyEvent};
ghost use Rattle.oz_core.specs.declared.event.EventKind.TheVariants.{Wrote};
ghost use Rattle.oz_core.specs.declared.event.PutRefusal.{PutRefusal as AnyRefusal};
ghost use Rattle.oz_fields.specs.declared.block.TheConstants.{LONGEST_PIECE};
ghost use Rattle.oz_node_events.specs.Noting.{IsNoting};
ghost use Rattle.oz_rows.specs.Rows.{IsBlock};
ghost use Rattle.oz_turn.specs.Seat.{seen_of};
ghost use Rattle.oz_turn.specs.Told.{BeginsWith};
ghost use Rattle.oz_turn.specs.Turn.{turn_id};
ghost use Rattle.oz_underway.specs.UnderWay.{HaveAnswered};
ghost use Rattle.oz_line_blocks.specs.writing.Unknown.{IsUnknown};
ghost use Rattle.oz_line_blocks.specs.writing.Written.{IsWritten, is_quorum};
ghost use Rattle.oz_line_blocks.specs.Seats.{MayTake, MayHaveTold};

use crate::writing::fault::Unwritten;
use crate::writing::looking::have_answered;
use crate::writing::noted::write_noted;
use crate::writing::telling::{tell_wrote, two_put_it};
use oz_asker::story_length;
use oz_buffer::{Ledger, Opened};
use oz_client::Written;
use oz_fields::{Block, OutOfMemory};
use oz_node_events::NodeSeat;
use oz_replicas::Nodes;
use oz_requests::AskId;
use oz_turn::{Ring, Seat, Turn};
use oz_world::{Disk, Gate};
use std::alloc::Global;
use std::sync::Wait;

/// Writes a block that an ask of a line was granted at its three members, whose seats tell what came of it there, and tells
/// that it is written where two of them put it. `by` is the number of the worker's seat, `first` the place of the bytes in the
/// line's data, `said` how often something had been said of the line's blocks, and `from` how many events the seat has seen.
/// Answers what the members answered, and how often something is said of the line's blocks by then.
///
/// Errors: `OtherStory` where the line asked more, or more was said of its blocks than this call has told, or less, and where a
/// member had the block already; `OutOfMemory`. Members may have put it.
pub fn write_to_members<D: Disk, O: Opened, R: Ring, W: Wait, G: Gate>(
    rt: &W,
    alloc: Global,
    turn: &Turn<Ledger<O>>,
    nodes: &Nodes<D, NodeSeat<Ledger<O>, O, R>>,
    gate: &G,
    seat: &mut Seat<Ledger<O>>,
    by: u16,
    id: AskId,
    first: u64,
    block: Block,
    members: [u8; 3],
    bytes: &[u8],
    said: u64,
    from: u64,
) -> Result<(Written, u64), Unwritten>
    requires seat { MayTake R.turn (turn_id turn.now) by seat.old }
    requires seats { by < 64 }
    requires members { All (λ dn. dn < nodes.now) members }
    requires block { IsBlock block }
    requires least { 1 ≤ length bytes.now }
    requires most { length bytes.now ≤ LONGEST_PIECE }
    requires from { from ≡ length (seen_of seat.old) }
    requires knows { IsNoting O.coherent O.opening O.bytes O.script id first
        (record { block = block; members = members; bytes = bytes.now }) (seen_of seat.old) }
    requires may { O.coherent → (story : List AnyEvent) (answers : List (Option AnyRefusal)) → BeginsWith story (seen_of seat.old)
        → AllFollow (Follows O.coherent O.opening O.bytes O.script) [] story
        → times_said id.client id.line story ≡ said + 3 → HaveAnswered story id block members answers
        → is_quorum answers ≡ true
        → Follows O.coherent O.opening O.bytes O.script story (record { seat = by; kind = Wrote block id }) }
    ensures went { MayHaveTold O.Opened R.turn by seat.old seat.new }
    ensures written { IfOk result (λ done.
        IsWritten id block members said done.0.answers done.1 (seen_of seat.new)) }
    ensures unknown { IfErr result (IsUnknown O.coherent O.opening id block members said (seen_of seat.old) (seen_of seat.new)) }
{
    let Some(wrote) = said.checked_add(4) else {
        let _length = story_length(rt, turn, seat, by);
        return Err(Unwritten::OtherStory);
    };
    let noted = write_noted(
        rt, alloc, turn, nodes, gate, seat, by, id, first, block, members, bytes,
    );
    let written = match noted {
        Ok(written) => written,
        Err(OutOfMemory) => {
            let _length = story_length(rt, turn, seat, by);
            return Err(Unwritten::OutOfMemory);
        }
    };
    let put = wrote - 1;
    if !have_answered(rt, turn, seat, by, id, block, members, &written, from, put) {
        return Err(Unwritten::OtherStory);
    }
    if !two_put_it(&written) {
        return Ok((written, put));
    }
    match tell_wrote(rt, alloc, turn, seat, by, id, block, wrote) {
        Ok(()) => Ok((written, wrote)),
        Err(error) => Err(error),
    }
}
