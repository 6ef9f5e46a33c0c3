//! Telling: what the seat of a line's worker appends.

ghost use Rattle.std.specs.Prelude.{◌≡◌, ◌≢◌, ◌+◌, ◌<◌, ℕ, [], List, OnOk, OnErr, IfErr, slice_index};
ghost use Rattle.oz_buffer.specs.Buffer.{AllFollow, Follows};
ghost use Rattle.oz_core.specs.declared.event.Event.{Event as AnyEvent};
ghost use Rattle.oz_core.specs.declared.event.EventKind.TheVariants as events;
ghost use Rattle.oz_core.specs.Fits.{EventFits};
ghost use Rattle.oz_core.specs.Seats.{IsLineSeat};
ghost use Rattle.oz_asker.specs.telling.Tells.{IsTold, KeepsUntold, MayTell};
ghost use Rattle.oz_turn.specs.Seat.{IsReady, mine_of, room_of, seen_of};
ghost use Rattle.oz_turn.specs.Told.{BeginsWith};
ghost use Rattle.oz_turn.specs.Turn.{turn_id};

use crate::telling::halted::keeps_untold;
use crate::telling::manager::{cause_stands, is_in_time};
use crate::telling::still::{Still, all_stand_still};
use crate::telling::untold::Untold;
use oz_buffer::{Ledger, Opened};
use oz_core::{Event, EventKind};
use oz_requests::{Answer, AskId};
use oz_turn::{Seat, Turn};
use std::alloc::Global;
use std::sync::Wait;

/// Tells a line its answer where it may be told this, and hands the answer back where it may not. `last` is what the line
/// asked last, and `said` how often something was said of its blocks, as far as its worker knows; `stills` are the seats
/// whose further events would unsay the answer, and `by` is the seat's number.
pub fn tell<O: Opened, W: Wait>(
    rt: &W,
    alloc: Global,
    turn: &Turn<Ledger<O>>,
    seat: &mut Seat<Ledger<O>>,
    by: u16,
    client: u16,
    line: u16,
    last: Option<AskId>,
    said: u64,
    stills: &[Still],
    answer: Answer,
) -> Result<(), (Answer, Untold)>
    requires ready { IsReady (turn_id turn.now) by seat.old }
    requires seats { by < 64 }
    requires of_line { IsLineSeat by }
    requires fits { O.coherent → (story : List AnyEvent) → BeginsWith story (seen_of seat.old)
        → AllFollow (Follows O.coherent O.opening O.bytes O.script) [] story
        → MayTell O.opening story client line last said stills.now answer
        → EventFits O.opening O.bytes O.script story (events.Told client line answer) }
    ensures ready { IsReady (turn_id turn.now) by seat.new }
    ensures room { room_of seat.new ≡ room_of seat.old }
    ensures goes_on { BeginsWith (seen_of seat.new) (seen_of seat.old) }
    ensures follow { AllFollow (Follows O.coherent O.opening O.bytes O.script) [] (seen_of seat.new) }
    ensures told { OnOk result (IsTold O.opening by client line last said stills.now answer (seen_of seat.old) (mine_of seat.old)
        (seen_of seat.new) (mine_of seat.new)) }
    ensures untold { OnErr result (mine_of seat.new ≡ mine_of seat.old) }
    ensures answer { IfErr result (λ refused. refused.0 ≡ answer) }
    ensures cause { IfErr result (λ refused.
        KeepsUntold O.opening (seen_of seat.new) client line last said stills.now answer refused.1) }
{
    let (mut ledger, held) = turn.take(rt, seat);
    ledger.all_follow();
    if let Err(cause) = make_room(
        alloc,
        &mut ledger,
        by,
        client,
        line,
        last,
        said,
        stills,
        &answer,
    ) {
        turn.give_back(seat, ledger, held);
        return Err((answer, cause));
    }
    let kind = EventKind::Told {
        client,
        line,
        answer,
    };
    ledger.note(Event { seat: by, kind });
    ledger.all_follow();
    turn.give(seat, ledger, held);
    Ok(())
}

/// Makes room for a Told, where the line may be told this.
pub(crate) fn make_room<O: Opened>(
    alloc: Global,
    ledger: &mut Ledger<O>,
    by: u16,
    client: u16,
    line: u16,
    last: Option<AskId>,
    said: u64,
    stills: &[Still],
    answer: &Answer,
) -> Result<(), Untold>
    requires seat { by < 64 }
    ensures story { ledger.new.story ≡ ledger.old.story }
    ensures room { OnOk result (slice_index ledger.new.rooms by ≡ slice_index ledger.old.rooms by + 1) }
    ensures others { (n : ℕ) → n ≢ by → slice_index ledger.new.rooms n ≡ slice_index ledger.old.rooms n }
    ensures may { OnOk result (MayTell O.opening ledger.old.story client line last said stills.now answer.now) }
    ensures same { OnErr result (ledger.new ≡ ledger.old) }
    ensures cause { IfErr result (λ cause. KeepsUntold O.opening ledger.old.story client line last said stills.now answer.now cause) }
{
    may_tell(ledger, client, line, last, said, stills, answer)?;
    match ledger.reserve_notes(alloc, by, 1) {
        Ok(()) => Ok(()),
        Err(_error) => Err(Untold::OutOfMemory),
    }
}

/// Whether the line may be told this now.
fn may_tell<O: Opened>(
    ledger: &Ledger<O>,
    client: u16,
    line: u16,
    last: Option<AskId>,
    said: u64,
    stills: &[Still],
    answer: &Answer,
) -> Result<(), Untold>
    ensures may { OnOk result (MayTell O.opening ledger.now.story client line last said stills.now answer.now) }
    ensures cause { IfErr result (λ cause. KeepsUntold O.opening ledger.now.story client line last said stills.now answer.now cause) }
{
    if ledger.is_told(client, line) {
        return Err(Untold::Told);
    }
    if ledger.last_ask(client, line) != last {
        return Err(Untold::OtherAsk);
    }
    if ledger.times_said(client, line) != said {
        return Err(Untold::OtherBlocks);
    }
    if !all_stand_still(ledger, stills) {
        return Err(Untold::Moved);
    }
    if !cause_stands(ledger, client, line, last, answer) {
        return Err(Untold::NotDue);
    }
    if let Some(dn) = keeps_untold(ledger, answer) {
        return Err(Untold::LeftUp { dn });
    }
    if !is_in_time(ledger, client, line, answer) {
        return Err(Untold::Unstable);
    }
    Ok(())
}
