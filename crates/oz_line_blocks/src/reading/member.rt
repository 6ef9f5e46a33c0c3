//! Reading a piece at one member of its block.

ghost use Rattle.std.specs.Prelude.{◌≡◌, ◌<◌, [], Contains, IfOk, OnErr};
ghost use Rattle.oz_buffer.specs.Buffer.{AllFollow, Follows};
ghost use Rattle.oz_line_blocks.specs.reading.Lacks.{AreDoubted, IsAsked};
ghost use Rattle.oz_line_blocks.specs.reading.Member.{CameAt, ComesAt};
ghost use Rattle.oz_line_blocks.specs.reading.Read.{MayRead};
ghost use Rattle.oz_turn.specs.Seat.{seen_of};
ghost use Rattle.oz_turn.specs.Turn.{turn_id};
ghost use Rattle.oz_line_blocks.specs.Seats.{MayTake, OnlyLooked, SawStory};

use crate::reading::copied::{Copied, copy_member};
use crate::reading::lack::{Lack, lack_of};
use crate::reading::noted::{Given, read_noted};
use crate::reading::wanted::Wanted;
use oz_buffer::{Ledger, Opened};
use oz_fields::OutOfMemory;
use oz_node_events::{NodeSeat, it_stands_where_it_saw_more, what_is_given_is_the_content};
use oz_replicas::{NodeCell, Nodes, verified_piece};
use oz_turn::{Ring, Seat, Turn};
use oz_world::Disk;
use std::alloc::Global;
use std::sync::Wait;

/// What one member gave.
#[derive(Drop)]
pub(crate) enum AtMember {
    Gave(Vec<u8>),
    /// Nothing, for this reason.
    Nothing(Lack),
}

/// Reads the piece at the datanode of this number, which isn't asked where it was doubted before. The chunks are copied under
/// its lock, and verified once that is let go. Where they don't give the piece it is read again under the lock, and what is
/// found there is told.
pub(crate) fn read_member<D: Disk, O: Opened, R: Ring, W: Wait>(
    rt: &W,
    alloc: Global,
    turn: &Turn<Ledger<O>>,
    nodes: &Nodes<D, NodeSeat<Ledger<O>, O, R>>,
    seat: &mut Seat<Ledger<O>>,
    wanted: Wanted,
    dn: u8,
) -> Result<AtMember, OutOfMemory>
    requires seat { MayTake R.turn (turn_id turn.now) wanted.by seat.old }
    requires there { dn < nodes.now }
    requires member { Contains wanted.members dn }
    requires may { O.coherent → MayRead O.coherent O.opening O.bytes O.script wanted.id wanted.piece wanted.members
        (seen_of seat.old) }
    requires doubted { O.coherent → AreDoubted (seen_of seat.old) wanted.id wanted.piece.block wanted.doubted }
    ensures looked { OnlyLooked R.turn wanted.by seat.old seat.new }
    ensures follow { AllFollow (Follows O.coherent O.opening O.bytes O.script) [] (seen_of seat.old) →
        AllFollow (Follows O.coherent O.opening O.bytes O.script) [] (seen_of seat.new) }
    ensures came { IfOk result (ComesAt D.told D.clock D.image D.faults O.coherent O.opening O.bytes O.script O.faults
        wanted.id wanted.piece wanted.members wanted.doubted dn (seen_of seat.old) (seen_of seat.new)) }
    ensures asked { OnErr result (IsAsked wanted.doubted dn) }
{
    if wanted.doubted.has(dn) {
        return Ok(AtMember::Nothing(Lack::Doubted(dn)));
    }
    let chunks = match copy_member(rt, alloc, turn, nodes, seat, wanted, dn)? {
        Copied::Chunks(chunks) => chunks,
        Copied::Without(lack) => return Ok(AtMember::Nothing(lack)),
    };
    if let Some(bytes) = verified_piece(alloc, wanted.piece, &chunks)? {
        return Ok(AtMember::Gave(bytes));
    }
    let mut cell = nodes.lock(rt, dn);
    read_locked(rt, alloc, turn, &mut cell, seat, wanted, dn)
}

/// Reads the piece while the lock is held. The worker's seat sees then all that the datanode's has seen.
fn read_locked<D: Disk, O: Opened, R: Ring, W: Wait>(
    rt: &W,
    alloc: Global,
    turn: &Turn<Ledger<O>>,
    cell: &mut NodeCell<D, NodeSeat<Ledger<O>, O, R>>,
    seat: &mut Seat<Ledger<O>>,
    wanted: Wanted,
    dn: u8,
) -> Result<AtMember, OutOfMemory>
    requires seat { MayTake R.turn (turn_id turn.now) wanted.by seat.old }
    requires its { cell.old.node.id ≡ dn }
    requires member { Contains wanted.members dn }
    requires may { O.coherent → MayRead O.coherent O.opening O.bytes O.script wanted.id wanted.piece wanted.members
        (seen_of seat.old) }
    ensures looked { SawStory O.Opened R.turn wanted.by seat.old seat.new }
    ensures came { IfOk result (CameAt D.told D.clock D.image D.faults O.coherent O.opening O.bytes O.script O.faults
        wanted.id wanted.piece wanted.members dn (seen_of seat.old) (seen_of seat.new)) }
{
    it_stands_where_it_saw_more::<D, O>();
    what_is_given_is_the_content::<D, O>();
    let given = read_noted(rt, alloc, turn, cell, seat, wanted);
    let place = cell.kept.show(rt, turn, seat);
    let Given { bytes, has_told } = given?;
    match bytes {
        Some(bytes) => Ok(AtMember::Gave(bytes)),
        None => {
            let lack = lack_of(dn, wanted.piece.block, has_told, place);
            Ok(AtMember::Nothing(lack))
        }
    }
}
