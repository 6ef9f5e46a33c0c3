//! A line tells that a block is written.

ghost use Rattle.std.specs.Prelude.{◌≡◌, ◌≤◌, ◌<◌, ◌+◌, ◌-◌, [], true, List, OnOk, IfErr};
ghost use Rattle.oz_buffer.specs.Buffer.{AllFollow, Follows};
ghost use Rattle.oz_buffer.specs.Became.{times_said};
ghost use Rattle.oz_core.specs.declared.event.Event.{Event as AnyEvent};
ghost use Rattle.oz_core.specs.declared.event.EventKind.TheVariants.{Wrote};
ghost use Rattle.oz_core.specs.Law.{writes};
ghost use Rattle.oz_core.specs.Stories.{has_event};
ghost use Rattle.oz_turn.specs.Seat.{IsReady, seen_of};
ghost use Rattle.oz_turn.specs.Told.{BeginsWith};
ghost use Rattle.oz_turn.specs.Turn.{turn_id};
ghost use Rattle.oz_line_blocks.specs.writing.Unknown.{IsUntold};
ghost use Rattle.oz_line_blocks.specs.writing.Written.{IsStill, is_quorum};
ghost use Rattle.oz_line_blocks.specs.Seats.{MayHaveTold};

use crate::writing::fault::Unwritten;
use crate::writing::looking::is_still;
use oz_asker::{Unwritten as Untold, tell_written};
use oz_buffer::{Ledger, Opened};
use oz_client::Written;
use oz_fields::Block;
use oz_requests::AskId;
use oz_turn::{Seat, Turn};
use std::alloc::Global;
use std::sync::Wait;

/// Tells that the block is written, by which something is said `wrote` times of the line's blocks. `by` is the seat's number.
pub(crate) fn tell_wrote<O: Opened, W: Wait>(
    rt: &W,
    alloc: Global,
    turn: &Turn<Ledger<O>>,
    seat: &mut Seat<Ledger<O>>,
    by: u16,
    id: AskId,
    block: Block,
    wrote: u64,
) -> Result<(), Unwritten>
    requires ready { IsReady (turn_id turn.now) by seat.old }
    requires seats { by < 64 }
    requires some { 1 ≤ wrote }
    requires follows { (story : List AnyEvent) → BeginsWith story (seen_of seat.old)
        → AllFollow (Follows O.coherent O.opening O.bytes O.script) [] story
        → times_said id.client id.line story + 1 ≡ wrote
        → Follows O.coherent O.opening O.bytes O.script story (record { seat = by; kind = Wrote block id }) }
    ensures went { MayHaveTold O.Opened (turn_id turn.now) by seat.old seat.new }
    ensures still { OnOk result (IsStill id wrote (seen_of seat.new)) }
    ensures written { OnOk result (has_event (writes block) (seen_of seat.new) ≡ true) }
    ensures untold { IfErr result (IsUntold id block (wrote - 1) wrote (seen_of seat.new)) }
{
    match tell_written(rt, alloc, turn, seat, by, id, block, wrote - 1) {
        Ok(()) => {}
        Err(Untold::OtherBlocks) => return Err(Unwritten::OtherStory),
        Err(Untold::OutOfMemory) => return Err(Unwritten::OutOfMemory),
    }
    if is_still(rt, turn, seat, by, id, wrote) {
        Ok(())
    } else {
        Err(Unwritten::OtherStory)
    }
}

/// Whether two members put the block.
pub(crate) fn two_put_it(written: &Written) -> bool
    ensures { result ≡ is_quorum written.now.answers }
{
    written
        .answers
        .iter()
        .filter(|answer| answer.is_none())
        .count()
        >= 2
}
