//! Saying that a block was written: what the seat of a line's worker appends.

ghost use Rattle.std.specs.Prelude.{◌≡◌, ◌≢◌, ◌<◌, [], List, OnOk, OnErr, IfErr};
ghost use Rattle.oz_buffer.specs.Buffer.{AllFollow, Follows};
ghost use Rattle.oz_buffer.specs.Became.{times_said};
ghost use Rattle.oz_core.specs.declared.event.Event.{Event as AnyEvent};
ghost use Rattle.oz_asker.specs.telling.Written.{IsWritten, KeepsUnwritten, wrote_event};
ghost use Rattle.oz_turn.specs.Seat.{IsReady, mine_of, room_of, seen_of};
ghost use Rattle.oz_turn.specs.Told.{BeginsWith};
ghost use Rattle.oz_turn.specs.Turn.{turn_id};

use oz_buffer::{Ledger, Opened};
use oz_core::{Event, EventKind};
use oz_fields::Block;
use oz_requests::AskId;
use oz_turn::{Seat, Turn};
use std::alloc::Global;
use std::sync::Wait;

/// Why it isn't said that a block was written.
#[derive(Clone, Copy, Debug, PartialEq, Eq)]
pub enum Unwritten {
    /// Not so much was said of the line's blocks, but less or more.
    OtherBlocks,
    OutOfMemory,
}

/// Says that a block was written, which the id was granted, where so often something was said of its line's blocks. `by` is
/// the seat's number.
pub fn tell_written<O: Opened, W: Wait>(
    rt: &W,
    alloc: Global,
    turn: &Turn<Ledger<O>>,
    seat: &mut Seat<Ledger<O>>,
    by: u16,
    id: AskId,
    block: Block,
    said: u64,
) -> Result<(), Unwritten>
    requires ready { IsReady (turn_id turn.now) by seat.old }
    requires seats { by < 64 }
    requires follows { (story : List AnyEvent) → BeginsWith story (seen_of seat.old)
        → AllFollow (Follows O.coherent O.opening O.bytes O.script) [] story
        → times_said id.client id.line story ≡ said
        → Follows O.coherent O.opening O.bytes O.script story (wrote_event by block id) }
    ensures ready { IsReady (turn_id turn.now) by seat.new }
    ensures room { room_of seat.new ≡ room_of seat.old }
    ensures goes_on { BeginsWith (seen_of seat.new) (seen_of seat.old) }
    ensures follow { AllFollow (Follows O.coherent O.opening O.bytes O.script) [] (seen_of seat.new) }
    ensures written { OnOk result (IsWritten by block id said (seen_of seat.old) (mine_of seat.old)
        (seen_of seat.new) (mine_of seat.new)) }
    ensures unwritten { OnErr result (mine_of seat.new ≡ mine_of seat.old) }
    ensures cause { IfErr result (KeepsUnwritten (seen_of seat.new) id said) }
{
    let (mut ledger, held) = turn.take(rt, seat);
    ledger.all_follow();
    if ledger.times_said(id.client, id.line) != said {
        turn.give_back(seat, ledger, held);
        return Err(Unwritten::OtherBlocks);
    }
    if let Err(_error) = ledger.reserve_notes(alloc, by, 1) {
        turn.give_back(seat, ledger, held);
        return Err(Unwritten::OutOfMemory);
    }
    let kind = EventKind::Wrote { block, id };
    ledger.note(Event { seat: by, kind });
    ledger.all_follow();
    turn.give(seat, ledger, held);
    Ok(())
}
