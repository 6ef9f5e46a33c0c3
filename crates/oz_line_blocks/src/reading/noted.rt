//! A piece is read at a datanode, whose seat tells what came of it.

ghost use Rattle.std.specs.Prelude.{◌≡◌, Contains, IfOk};
ghost use Rattle.std.specs.Option.{option_map};
ghost use Rattle.oz_node_events.specs.NodeSeat.{StandsFor};
ghost use Rattle.oz_line_blocks.specs.reading.Lacks.{has_notes};
ghost use Rattle.oz_line_blocks.specs.reading.Member.{IsGivenAt};
ghost use Rattle.oz_line_blocks.specs.reading.Read.{MayRead};
ghost use Rattle.oz_turn.specs.Seat.{seen_of};
ghost use Rattle.oz_turn.specs.Turn.{turn_id};
ghost use Rattle.oz_line_blocks.specs.Seats.{MayTake, OnlyLooked};

use crate::reading::wanted::Wanted;
use crate::reading::watching::Watching;
use oz_buffer::{Ledger, Opened};
use oz_fields::OutOfMemory;
use oz_node_events::{NodeSeat, Noting};
use oz_replicas::{NodeCell, read_at};
use oz_turn::{Ring, Seat, Turn};
use oz_world::Disk;
use std::alloc::Global;
use std::sync::Wait;

/// What a datanode gave of a piece, and whether it told anything: that it refused, or that the block is bad.
#[derive(Drop)]
pub(crate) struct Given {
    pub bytes: Option<Vec<u8>>,
    pub has_told: bool,
}

/// Reads the piece at the datanode of a cell whose lock is held, and notes what comes of it. There are no
/// bytes where the datanode doesn't give so many.
pub(crate) fn read_noted<D: Disk, O: Opened, R: Ring, W: Wait>(
    rt: &W,
    alloc: Global,
    turn: &Turn<Ledger<O>>,
    cell: &mut NodeCell<D, NodeSeat<Ledger<O>, O, R>>,
    seat: &mut Seat<Ledger<O>>,
    wanted: Wanted,
) -> Result<Given, OutOfMemory>
    requires seat { MayTake R.turn (turn_id turn.now) wanted.by seat.old }
    requires member { Contains wanted.members cell.old.node.id }
    requires may { O.coherent → MayRead O.coherent O.opening O.bytes O.script wanted.id wanted.piece wanted.members
        (seen_of seat.old) }
    ensures given { IfOk result (λ given. (is : IsGivenAt D.told D.clock D.image D.faults wanted.id wanted.piece
        wanted.members cell.old.node cell.new.node (option_map (λ bytes. bytes.items) given.bytes) (seen_of seat.old)
        (seen_of seat.new)) × (given.has_told ≡ has_notes is.said)) }
    ensures stood { StandsFor D.told D.clock D.image D.faults O.coherent O.opening O.bytes O.script O.faults
        cell.old.kept cell.old.node }
    ensures stands { StandsFor D.told D.clock D.image D.faults O.coherent O.opening O.bytes O.script O.faults
        cell.new.kept cell.new.node }
    ensures looked { OnlyLooked R.turn wanted.by seat.old seat.new }
{
    let noter = Noting::<D, Ledger<O>, O, R, W>::new(
        rt,
        alloc,
        turn,
        seat,
        wanted.id,
        0,
        wanted.piece.block,
        wanted.members,
        &[],
    );
    let mut watching = Watching {
        noter,
        has_noted: false,
    };
    let given = read_at(alloc, cell, wanted.piece, &mut watching);
    let Watching { noter, has_noted } = watching;
    let _seat = noter.into_seat();
    Ok(Given {
        bytes: given?,
        has_told: has_noted,
    })
}
