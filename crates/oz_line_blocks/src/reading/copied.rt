//! The chunks of a piece's block are copied at one of its members, to be verified once its lock is let go.

ghost use Rattle.std.specs.Prelude.{◌≡◌, ◌<◌, [], Contains, IfOk};
ghost use Rattle.std.specs.Option.{option_map};
ghost use Rattle.oz_node_events.specs.NodeSeat.{StandsFor};
ghost use Rattle.oz_line_blocks.specs.reading.Lacks.{has_notes};
ghost use Rattle.oz_line_blocks.specs.reading.Member.{CopiedAt, IsCopiedAt};
ghost use Rattle.oz_line_blocks.specs.reading.Read.{MayRead};
ghost use Rattle.oz_turn.specs.Seat.{seen_of};
ghost use Rattle.oz_turn.specs.Turn.{turn_id};
ghost use Rattle.oz_line_blocks.specs.Seats.{MayTake, OnlyLooked, SawStory};

use crate::reading::lack::{Lack, lack_of};
use crate::reading::wanted::Wanted;
use crate::reading::watching::Watching;
use oz_buffer::{Ledger, Opened};
use oz_datanode::Unverified;
use oz_fields::OutOfMemory;
use oz_node_events::{NodeSeat, Noting, it_stands_where_it_saw_more, what_is_given_is_the_content};
use oz_replicas::{NodeCell, Nodes, copy_at};
use oz_turn::{Ring, Seat, Turn};
use oz_world::Disk;
use std::alloc::Global;
use std::sync::Wait;

/// What was copied at one member.
#[derive(Drop)]
pub(crate) enum Copied {
    Chunks(Vec<Unverified>),
    /// Nothing, for this reason.
    Without(Lack),
}

/// The chunks of a block that a datanode gave, and whether it told anything: that it refused.
#[derive(Drop)]
pub(crate) struct Taken {
    pub chunks: Option<Vec<Unverified>>,
    pub has_told: bool,
}

/// Copies the chunks at the datanode of this number, under its lock.
pub(crate) fn copy_member<D: Disk, O: Opened, R: Ring, W: Wait>(
    rt: &W,
    alloc: Global,
    turn: &Turn<Ledger<O>>,
    nodes: &Nodes<D, NodeSeat<Ledger<O>, O, R>>,
    seat: &mut Seat<Ledger<O>>,
    wanted: Wanted,
    dn: u8,
) -> Result<Copied, OutOfMemory>
    requires seat { MayTake R.turn (turn_id turn.now) wanted.by seat.old }
    requires there { dn < nodes.now }
    requires member { Contains wanted.members dn }
    requires may { O.coherent → MayRead O.coherent O.opening O.bytes O.script wanted.id wanted.piece wanted.members
        (seen_of seat.old) }
    ensures looked { SawStory O.Opened R.turn wanted.by seat.old seat.new }
    ensures copied { IfOk result (CopiedAt D.told D.clock D.image D.faults O.coherent O.opening O.bytes O.script O.faults
        wanted.id wanted.piece wanted.members dn (seen_of seat.old) (seen_of seat.new)) }
{
    let mut cell = nodes.lock(rt, dn);
    copy_locked(rt, alloc, turn, &mut cell, seat, wanted, dn)
}

/// Copies them while the lock is held. The worker's seat sees then all that the datanode's has seen.
fn copy_locked<D: Disk, O: Opened, R: Ring, W: Wait>(
    rt: &W,
    alloc: Global,
    turn: &Turn<Ledger<O>>,
    cell: &mut NodeCell<D, NodeSeat<Ledger<O>, O, R>>,
    seat: &mut Seat<Ledger<O>>,
    wanted: Wanted,
    dn: u8,
) -> Result<Copied, OutOfMemory>
    requires seat { MayTake R.turn (turn_id turn.now) wanted.by seat.old }
    requires its { cell.old.node.id ≡ dn }
    requires member { Contains wanted.members dn }
    requires may { O.coherent → MayRead O.coherent O.opening O.bytes O.script wanted.id wanted.piece wanted.members
        (seen_of seat.old) }
    ensures looked { SawStory O.Opened R.turn wanted.by seat.old seat.new }
    ensures copied { IfOk result (CopiedAt D.told D.clock D.image D.faults O.coherent O.opening O.bytes O.script O.faults
        wanted.id wanted.piece wanted.members dn (seen_of seat.old) (seen_of seat.new)) }
{
    it_stands_where_it_saw_more::<D, O>();
    what_is_given_is_the_content::<D, O>();
    let taken = copy_noted(rt, alloc, turn, cell, seat, wanted);
    let place = cell.kept.show(rt, turn, seat);
    let Taken { chunks, has_told } = taken?;
    match chunks {
        Some(chunks) => Ok(Copied::Chunks(chunks)),
        None => {
            let lack = lack_of(dn, wanted.piece.block, has_told, place);
            Ok(Copied::Without(lack))
        }
    }
}

/// Copies the chunks at the datanode of a cell whose lock is held, and notes what comes of it.
fn copy_noted<D: Disk, O: Opened, R: Ring, W: Wait>(
    rt: &W,
    alloc: Global,
    turn: &Turn<Ledger<O>>,
    cell: &mut NodeCell<D, NodeSeat<Ledger<O>, O, R>>,
    seat: &mut Seat<Ledger<O>>,
    wanted: Wanted,
) -> Result<Taken, OutOfMemory>
    requires seat { MayTake R.turn (turn_id turn.now) wanted.by seat.old }
    requires member { Contains wanted.members cell.old.node.id }
    requires may { O.coherent → MayRead O.coherent O.opening O.bytes O.script wanted.id wanted.piece wanted.members
        (seen_of seat.old) }
    ensures taken { IfOk result (λ taken. (is : IsCopiedAt D.told D.clock D.image D.faults wanted.id wanted.piece
        wanted.members cell.old.node cell.new.node (option_map (λ chunks. chunks.items) taken.chunks) (seen_of seat.old)
        (seen_of seat.new)) × (taken.has_told ≡ has_notes is.said)) }
    ensures stood { StandsFor D.told D.clock D.image D.faults O.coherent O.opening O.bytes O.script O.faults
        cell.old.kept cell.old.node }
    ensures stands { StandsFor D.told D.clock D.image D.faults O.coherent O.opening O.bytes O.script O.faults
        cell.new.kept cell.new.node }
    ensures looked { OnlyLooked R.turn wanted.by seat.old seat.new }
{
    let noter = Noting::<D, Ledger<O>, O, R, W>::new(
        rt,
        alloc,
        turn,
        seat,
        wanted.id,
        0,
        wanted.piece.block,
        wanted.members,
        &[],
    );
    let mut watching = Watching {
        noter,
        has_noted: false,
    };
    let chunks = copy_at(alloc, cell, wanted.piece, &mut watching);
    let Watching { noter, has_noted } = watching;
    let _seat = noter.into_seat();
    Ok(Taken {
        chunks: chunks?,
        has_told: has_noted,
    })
}
