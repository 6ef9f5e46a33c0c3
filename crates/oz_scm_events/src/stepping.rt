//! Steps of containers.

ghost use Rattle.std.specs.Prelude.{◌≡◌, ◌≢◌, [], true, Err, IfErr, IsSome, List, Result as AnyResult};
ghost use Rattle.oz_buffer.specs.Buffer.{AllFollow, Follows};
ghost use Rattle.oz_container.specs.declared.state.State.{State as AnyState};
ghost use Rattle.oz_core.specs.Seats.{scm_seat};
ghost use Rattle.oz_scm.specs.declared.fault.ApplyFault.{ApplyFault as AnyFault};
ghost use Rattle.oz_scm.specs.Applying.{Applies};
ghost use Rattle.oz_scm.specs.grants.Made.{state_at};
ghost use Rattle.oz_scm_events.specs.declared.stepping.StepFault.TheVariants.{OutOfMemory as NoMemory};
ghost use Rattle.oz_scm_events.specs.Stepped.{IsStepRefusal, MayStep, own_stepped, stepped_as, told_of_step};
ghost use Rattle.oz_turn.specs.Seat.{IsReady, mine_of, number_of, room_of, seen_of};
ghost use Rattle.oz_turn.specs.Told.{own_entries, BeginsWith};
ghost use Rattle.oz_turn.specs.Turn.{turn_id};
ghost use Rattle.oz_world.specs.Disk.{seen};

use crate::cell::ScmCell;
use crate::noting::{reserve, tell};
use oz_buffer::{Ledger, Opened, OutOfMemory};
use oz_container::{Event as Step, State};
use oz_core::{EventKind, Node};
use oz_scm::ApplyFault;
use oz_turn::{Ring, Seat, Turn};
use oz_world::Disk;
use std::alloc::Global;
use std::sync::Wait;

/// Why a container doesn't go on to another state.
#[derive(Clone, Copy, Debug, PartialEq, Eq)]
pub enum StepFault {
    /// The disk failed, in this call or an earlier one: how often it has failed so far.
    Stopped { count: u64 },
    /// The event isn't possible in the state that the container is in.
    WrongState { state: State, event: Step },
    OutOfMemory,
}

impl From<OutOfMemory> for StepFault {
    ghost from_gives = { λ _ fault. fault ≡ NoMemory };

    fn from(_: OutOfMemory) -> StepFault {
        StepFault::OutOfMemory
    }
}

impl<D: Disk, O: Opened, R: Ring> ScmCell<D, Ledger<O>, O, R> {
    /// Leads a container that was made on by an event, and appends the state to which it came, once that is stable. Where
    /// the disk fails it appends a Halt with the disk's count of faults, and answers Stopped with that count, now and ever
    /// after. Every other error leaves its disk and its events as they were.
    ///
    /// `seat` is that of who asks. The caller answers for it that the step may be taken: that at one place of what that
    /// seat has seen, behind all events of this one, it was allowed, and a line for it was at work.
    pub fn step<W: Wait>(
        &mut self,
        rt: &W,
        alloc: Global,
        turn: &Turn<Ledger<O>>,
        seat: &mut Seat<Ledger<O>>,
        container: u64,
        event: Step,
    ) -> Result<State, StepFault>
        requires turn { turn_id turn.now ≡ R.turn }
        requires ready { IsReady R.turn (number_of seat.old) seat.old }
        requires made { IsSome (state_at self.old.scm.made.containers container) }
        requires may { O.coherent → MayStep O.opening O.script (seen_of seat.old) self.old.mine container event }

        // The state to which it leads is stable, and stands in the story.
        ensures steps { (answer : AnyResult AnyState AnyFault) → result ≡ stepped_as answer →
            Applies container event self.old.scm self.new.scm
            (seen (D.told self.old.scm.disk) (D.clock self.old.scm.disk) (D.image self.old.scm.disk)
            (D.faults self.old.scm.disk))
            (seen (D.told self.new.scm.disk) (D.clock self.new.scm.disk) (D.image self.new.scm.disk)
            (D.faults self.new.scm.disk))
            answer }
        ensures halted { self.old.scm.stopped ≡ true → (self.new.scm ≡ self.old.scm)
            × (result ≡ Err (StepFault.Stopped (D.faults self.old.scm.disk))) }
        ensures own { self.new.mine ≡ own_stepped self.old.scm.stopped container self.old.mine result }
        ensures refused { IfErr result (IsStepRefusal O.opening self.new.mine container event) }
        ensures no_memory { result ≡ Err NoMemory → self.new.scm ≡ self.old.scm }
        ensures goes_on { BeginsWith self.new.seen self.old.seen }

        // The seat has seen it then.
        ensures shown { own_entries (λ event. event.seat) scm_seat (seen_of seat.new) ≡ self.new.mine }
        ensures follow { AllFollow (Follows O.coherent O.opening O.bytes O.script) [] (seen_of seat.new) }
        ensures ready { IsReady R.turn (number_of seat.old) seat.new }
        ensures begins { BeginsWith (seen_of seat.new) (seen_of seat.old) }
        ensures mine { mine_of seat.new ≡ mine_of seat.old }
        ensures room { room_of seat.new ≡ room_of seat.old }
    {
        let answer = self.stepped(rt, alloc, turn, seat, container, event);
        self.show(rt, turn, seat);
        answer
    }

    /// The same, without the last look.
    fn stepped<W: Wait>(
        &mut self,
        rt: &W,
        alloc: Global,
        turn: &Turn<Ledger<O>>,
        seat: &mut Seat<Ledger<O>>,
        container: u64,
        event: Step,
    ) -> Result<State, StepFault>
        requires turn { turn_id turn.now ≡ R.turn }
        requires ready { IsReady R.turn (number_of seat.old) seat.old }
        requires made { IsSome (state_at self.old.scm.made.containers container) }
        requires may { O.coherent → MayStep O.opening O.script (seen_of seat.old) self.old.mine container event }
        ensures steps { (answer : AnyResult AnyState AnyFault) → result ≡ stepped_as answer →
            Applies container event self.old.scm self.new.scm
            (seen (D.told self.old.scm.disk) (D.clock self.old.scm.disk) (D.image self.old.scm.disk)
            (D.faults self.old.scm.disk))
            (seen (D.told self.new.scm.disk) (D.clock self.new.scm.disk) (D.image self.new.scm.disk)
            (D.faults self.new.scm.disk))
            answer }
        ensures halted { self.old.scm.stopped ≡ true → (self.new.scm ≡ self.old.scm)
            × (result ≡ Err (StepFault.Stopped (D.faults self.old.scm.disk))) }
        ensures own { self.new.mine ≡ own_stepped self.old.scm.stopped container self.old.mine result }
        ensures refused { IfErr result (IsStepRefusal O.opening self.new.mine container event) }
        ensures no_memory { result ≡ Err NoMemory → self.new.scm ≡ self.old.scm }
        ensures goes_on { BeginsWith self.new.seen self.old.seen }
        ensures ready { IsReady R.turn (number_of seat.old) seat.new }
        ensures begins { BeginsWith (seen_of seat.new) (seen_of seat.old) }
        ensures mine { mine_of seat.new ≡ mine_of seat.old }
        ensures room { room_of seat.new ≡ room_of seat.old }
    {
        if self.scm.stopped() {
            let halted = self.scm.apply(container, event);
            return seat_answer(halted);
        }
        reserve(rt, alloc, turn, &mut self.seat)?;
        let applied = self.scm.apply(container, event);
        let answer = seat_answer(applied);
        let told = told_of_step(container, &answer);
        tell(rt, turn, &mut self.seat, seat, told);
        answer
    }
}

/// What the seat answers where the storage container manager answers so.
fn seat_answer(answer: Result<State, ApplyFault>) -> Result<State, StepFault>
    ensures { result ≡ stepped_as answer }
{
    match answer {
        Ok(state) => Ok(state),
        Err(ApplyFault::Stopped { count }) => Err(StepFault::Stopped { count }),
        Err(ApplyFault::WrongState { state, event }) => Err(StepFault::WrongState { state, event }),
    }
}

/// What is told of a call that is to lead a container on.
fn told_of_step(container: u64, answer: &Result<State, StepFault>) -> Option<EventKind>
    ensures { result ≡ told_of_step container answer.now }
{
    match answer {
        Ok(state) => Some(EventKind::Closed {
            container,
            state: *state,
        }),
        Err(StepFault::Stopped { count }) => Some(EventKind::Halt {
            node: Node::Scm,
            count: *count,
        }),
        Err(_) => None,
    }
}
