//! Telling a line that had something done to a datanode.

ghost use Rattle.std.specs.Prelude.{◌≡◌, ◌<◌, [], List, OnOk, OnErr, IfErr};
ghost use Rattle.oz_buffer.specs.Buffer.{AllFollow, Follows};
ghost use Rattle.oz_core.specs.declared.event.Event.{Event as AnyEvent};
ghost use Rattle.oz_core.specs.declared.event.EventKind.TheVariants as events;
ghost use Rattle.oz_core.specs.declared.event.Node.TheVariants.{Datanode};
ghost use Rattle.oz_core.specs.Fits.{EventFits};
ghost use Rattle.oz_core.specs.Manager.{halt_of};
ghost use Rattle.oz_core.specs.Seats.{IsLineSeat};
ghost use Rattle.oz_asker.specs.telling.Done.{IsToldDone, answer_done};
ghost use Rattle.oz_asker.specs.telling.Tells.{KeepsUntold, MayTell};
ghost use Rattle.oz_turn.specs.Seat.{IsReady, mine_of, room_of, seen_of};
ghost use Rattle.oz_turn.specs.Told.{BeginsWith};
ghost use Rattle.oz_turn.specs.Turn.{turn_id};

use crate::telling::telling::make_room;
use crate::telling::untold::Untold;
use oz_buffer::{Ledger, Opened};
use oz_core::{Event, EventKind, Node};
use oz_requests::{Answer, AskId, Values};
use oz_turn::{Seat, Turn};
use std::alloc::Global;
use std::sync::Wait;

/// Tells a line that had something done to a datanode that it is done, or where the datanode has halted by then, with which
/// count. `last` is what the line asked last, and `said` how often something was said of its blocks, as far as its worker
/// knows; `by` is the seat's number.
pub fn tell_done<O: Opened, W: Wait>(
    rt: &W,
    alloc: Global,
    turn: &Turn<Ledger<O>>,
    seat: &mut Seat<Ledger<O>>,
    by: u16,
    client: u16,
    line: u16,
    last: Option<AskId>,
    said: u64,
    dn: u8,
) -> Result<(), Untold>
    requires ready { IsReady (turn_id turn.now) by seat.old }
    requires seats { by < 64 }
    requires of_line { IsLineSeat by }
    requires fits { O.coherent → (story : List AnyEvent) → BeginsWith story (seen_of seat.old)
        → AllFollow (Follows O.coherent O.opening O.bytes O.script) [] story
        → MayTell O.opening story client line last said [] (answer_done dn (halt_of (Datanode dn) story))
        → EventFits O.opening O.bytes O.script story
        (events.Told client line (answer_done dn (halt_of (Datanode dn) story))) }
    ensures ready { IsReady (turn_id turn.now) by seat.new }
    ensures room { room_of seat.new ≡ room_of seat.old }
    ensures goes_on { BeginsWith (seen_of seat.new) (seen_of seat.old) }
    ensures follow { AllFollow (Follows O.coherent O.opening O.bytes O.script) [] (seen_of seat.new) }
    ensures told { OnOk result (IsToldDone O.opening by client line last said dn (seen_of seat.old) (mine_of seat.old)
        (seen_of seat.new) (mine_of seat.new)) }
    ensures untold { OnErr result (mine_of seat.new ≡ mine_of seat.old) }
    ensures cause { IfErr result (KeepsUntold O.opening (seen_of seat.new) client line last said []
        (answer_done dn (halt_of (Datanode dn) (seen_of seat.new)))) }
{
    let (mut ledger, held) = turn.take(rt, seat);
    ledger.all_follow();
    let answer = answer_done(dn, ledger.halt(Node::Datanode(dn)));
    if let Err(cause) = make_room(
        alloc,
        &mut ledger,
        by,
        client,
        line,
        last,
        said,
        &[],
        &answer,
    ) {
        turn.give_back(seat, ledger, held);
        return Err(cause);
    }
    let kind = EventKind::Told {
        client,
        line,
        answer,
    };
    ledger.note(Event { seat: by, kind });
    ledger.all_follow();
    turn.give(seat, ledger, held);
    Ok(())
}

fn answer_done(dn: u8, halt: Option<u64>) -> Answer
    ensures { result ≡ answer_done dn halt }
{
    match halt {
        None => Answer::Ok(Values::Done),
        Some(count) => Answer::NodeHalted { dn, count },
    }
}
