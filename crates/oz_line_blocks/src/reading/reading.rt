//! How a line reads a piece at the members of its block.

ghost use Rattle.std.specs.Prelude.{◌<◌, [], All, IfOk, OnErr};
ghost use Rattle.oz_buffer.specs.Buffer.{AllFollow, Follows};
ghost use Rattle.oz_line_blocks.specs.reading.Lacks.{AreDoubted};
ghost use Rattle.oz_line_blocks.specs.reading.Read.{ComesOf, EndsShort, IsKnownOf, MayRead};
ghost use Rattle.oz_turn.specs.Seat.{seen_of};
ghost use Rattle.oz_turn.specs.Turn.{turn_id};
ghost use Rattle.oz_line_blocks.specs.Seats.{MayTake, OnlyLooked};

use crate::reading::lack::{Doubted, Lack};
use crate::reading::member::{AtMember, read_member};
use crate::reading::wanted::Wanted;
use oz_buffer::{Ledger, Opened};
use oz_fields::{OutOfMemory, Piece};
use oz_node_events::{NodeSeat, what_is_given_is_the_content};
use oz_replicas::Nodes;
use oz_requests::AskId;
use oz_turn::{Ring, Seat, Turn};
use oz_world::Disk;
use std::alloc::Global;
use std::sync::Wait;

/// What comes of it that a piece is read at the members of its block.
#[derive(Drop)]
pub enum Reading {
    /// Its bytes, from the first member that gave them.
    Bytes(Vec<u8>),
    /// No member gives them, for these reasons, in the order of the members. None has the block intact, as long as those
    /// that hadn't it don't come to have it.
    Nobody([Lack; 3]),
}

/// Reads a piece for an ask of a line at the three members of its block, in their order, until one gives as many bytes as
/// the piece has. A member's chunks are copied under its lock and verified without it; where one hasn't its digest, or they
/// are too many or too few, the piece is read once more under the lock. Those that were doubted for the ask before, as `doubted` says, aren't asked
/// again: nothing more is told of them. `by` is the number of the worker's seat. A member that is stopped, or
/// halts in the call, tells that it refused, and one whose bytes haven't the digests that are kept tells that the
/// block is bad; one that hasn't the block, or has it in another length, tells nothing. The worker's seat has seen all
/// that.
///
/// Errors: `OutOfMemory`. Then the members that were asked so far gave no bytes, and have told why.
pub fn read_at_members<D: Disk, O: Opened, R: Ring, W: Wait>(
    rt: &W,
    alloc: Global,
    turn: &Turn<Ledger<O>>,
    nodes: &Nodes<D, NodeSeat<Ledger<O>, O, R>>,
    seat: &mut Seat<Ledger<O>>,
    by: u16,
    id: AskId,
    piece: Piece,
    members: [u8; 3],
    doubted: Doubted,
) -> Result<Reading, OutOfMemory>
    requires seat { MayTake R.turn (turn_id turn.now) by seat.old }
    requires there { All (λ dn. dn < nodes.now) members }
    requires may { O.coherent → MayRead O.coherent O.opening O.bytes O.script id piece members (seen_of seat.old) }
    requires doubted { O.coherent → AreDoubted (seen_of seat.old) id piece.block doubted }
    ensures looked { OnlyLooked R.turn by seat.old seat.new }
    ensures follow { AllFollow (Follows O.coherent O.opening O.bytes O.script) [] (seen_of seat.old) →
        AllFollow (Follows O.coherent O.opening O.bytes O.script) [] (seen_of seat.new) }
    ensures came { IfOk result (ComesOf D.told D.clock D.image D.faults O.coherent O.opening O.bytes O.script
        O.faults id piece members doubted (seen_of seat.old) (seen_of seat.new)) }
    ensures known { IfOk result (IsKnownOf O.coherent O.opening O.bytes O.script id piece (seen_of seat.new)) }
    ensures lacks { OnErr result (EndsShort D.told D.clock D.image D.faults O.coherent O.opening O.bytes O.script
        O.faults id piece members doubted members (seen_of seat.old) (seen_of seat.new)) }
{
    what_is_given_is_the_content::<D, O>();
    let wanted = Wanted {
        by,
        id,
        piece,
        members,
        doubted,
    };
    let [first, second, third] = members;
    let first = match read_member(rt, alloc, turn, nodes, seat, wanted, first)? {
        AtMember::Gave(bytes) => return Ok(Reading::Bytes(bytes)),
        AtMember::Nothing(lack) => lack,
    };
    let second = match read_member(rt, alloc, turn, nodes, seat, wanted, second)? {
        AtMember::Gave(bytes) => return Ok(Reading::Bytes(bytes)),
        AtMember::Nothing(lack) => lack,
    };
    let third = match read_member(rt, alloc, turn, nodes, seat, wanted, third)? {
        AtMember::Gave(bytes) => return Ok(Reading::Bytes(bytes)),
        AtMember::Nothing(lack) => lack,
    };
    Ok(Reading::Nobody([first, second, third]))
}
