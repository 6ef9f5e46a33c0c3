//! A block is written at its members, whose seats tell what came of it.

ghost use Rattle.std.specs.Prelude.{◌≤◌, ◌<◌, All, drop, length, IfOk};
ghost use Rattle.oz_fields.specs.declared.block.TheConstants.{LONGEST_PIECE};
ghost use Rattle.oz_node_events.specs.Noting.{IsNoting};
ghost use Rattle.oz_rows.specs.Rows.{IsBlock};
ghost use Rattle.oz_turn.specs.Seat.{seen_of};
ghost use Rattle.oz_turn.specs.Turn.{turn_id};
ghost use Rattle.oz_line_blocks.specs.writing.Unknown.{AllCame};
ghost use Rattle.oz_line_blocks.specs.Seats.{MayTake, OnlyLooked};

use oz_buffer::{Ledger, Opened};
use oz_client::Written;
use oz_fields::{Block, OutOfMemory};
use oz_node_events::{NodeSeat, Noting, a_noter_stays_the_same};
use oz_replicas::{Nodes, write_block};
use oz_requests::AskId;
use oz_turn::{Ring, Seat, Turn};
use oz_world::{Disk, Gate};
use std::alloc::Global;
use std::sync::Wait;

/// Writes the block at its members, each of which notes what comes of it. `by` is the seat's number.
pub(crate) fn write_noted<D: Disk, O: Opened, R: Ring, W: Wait, G: Gate>(
    rt: &W,
    alloc: Global,
    turn: &Turn<Ledger<O>>,
    nodes: &Nodes<D, NodeSeat<Ledger<O>, O, R>>,
    gate: &G,
    seat: &mut Seat<Ledger<O>>,
    by: u16,
    id: AskId,
    first: u64,
    block: Block,
    members: [u8; 3],
    bytes: &[u8],
) -> Result<Written, OutOfMemory>
    requires seat { MayTake R.turn (turn_id turn.now) by seat.old }
    requires members { All (λ dn. dn < nodes.now) members }
    requires block { IsBlock block }
    requires least { 1 ≤ length bytes.now }
    requires most { length bytes.now ≤ LONGEST_PIECE }
    requires knows { IsNoting O.coherent O.opening O.bytes O.script id first
        (record { block = block; members = members; bytes = bytes.now }) (seen_of seat.old) }
    ensures looked { OnlyLooked R.turn by seat.old seat.new }
    ensures came { IfOk result (λ written. AllCame O.coherent O.opening id block (seen_of seat.new)
        (drop (length (seen_of seat.old)) (seen_of seat.new)) members written.answers) }
{
    a_noter_stays_the_same::<D, O>();
    let mut noting = Noting::<D, Ledger<O>, O, R, W>::new(
        rt, alloc, turn, seat, id, first, block, members, bytes,
    );
    let written = write_block(rt, alloc, nodes, members, block, bytes, gate, &mut noting);
    let _seat = noting.into_seat();
    written
}
