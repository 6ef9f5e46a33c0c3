//! What the storage container manager grants, and tells.

ghost use Rattle.std.specs.Prelude.{◌≡◌, ◌≢◌, ◌<◌, ℕ, List, [], true, Contains, Err, IfErr, IsSome};
ghost use Rattle.std.specs.FinMap.{get};
ghost use Rattle.oz_buffer.specs.Buffer.{AllFollow, Follows};
ghost use Rattle.oz_core.specs.declared.event.Event.{Event as AnyEvent};
ghost use Rattle.oz_core.specs.Law.{IsNeeded};
ghost use Rattle.oz_core.specs.Scm.{containers};
ghost use Rattle.oz_core.specs.Seats.{scm_seat};
ghost use Rattle.oz_names.specs.declared.limits.TheConstants.{STRIPES};
ghost use Rattle.oz_scm.specs.declared.fault.GrantFault.TheVariants.{OutOfMemory as NoMemory, Stopped};
ghost use Rattle.oz_scm.specs.Granting.{Grants};
ghost use Rattle.oz_scm_events.specs.Granted.{IsRefusal, own_after, told_of};
ghost use Rattle.oz_turn.specs.Seat.{IsReady, mine_of, number_of, room_of, seen_of};
ghost use Rattle.oz_turn.specs.Told.{own_entries, BeginsWith};
ghost use Rattle.oz_turn.specs.Turn.{turn_id};
ghost use Rattle.oz_world.specs.Disk.{seen};

use crate::cell::ScmCell;
use crate::noting::{reserve, tell};
use oz_buffer::{Ledger, Opened};
use oz_core::{EventKind, Node};
use oz_requests::Exclude;
use oz_scm::{Grant, GrantFault};
use oz_turn::{Ring, Seat, Turn};
use oz_world::Disk;
use std::alloc::Global;
use std::sync::Wait;

impl<D: Disk, O: Opened, R: Ring> ScmCell<D, Ledger<O>, O, R> {
    /// Grants the ids that are due to a stripe, which is one of the sixteen, and appends the Grant. Where the disk fails
    /// it appends a Halt with the disk's count of faults, and answers Stopped with that count, now and ever after. Every
    /// other error leaves its disk and its events as they were: memory for the event is there before the disk is written.
    ///
    /// `seat` is that of who asks for the stripe. The caller answers for it that the stripe needs the grant, in each
    /// story that goes on from what that seat has seen by no event of its own and with no other event of this one: which
    /// `show` makes known, and the stripe's lock keeps.
    pub fn grant<W: Wait>(
        &mut self,
        rt: &W,
        alloc: Global,
        turn: &Turn<Ledger<O>>,
        seat: &mut Seat<Ledger<O>>,
        stripe: u8,
        exclude: &Exclude,
    ) -> Result<Grant, GrantFault>
        requires turn { turn_id turn.now ≡ R.turn }
        requires ready { IsReady R.turn (number_of seat.old) seat.old }
        requires stripe { stripe < STRIPES }
        requires needed { O.coherent → (story : List AnyEvent) → BeginsWith story (seen_of seat.old)
            → AllFollow (Follows O.coherent O.opening O.bytes O.script) [] story
            → own_entries (λ event. event.seat) (number_of seat.old) story ≡ mine_of seat.old
            → own_entries (λ event. event.seat) scm_seat story ≡ self.old.mine
            → (container pipeline : ℕ) → (Contains exclude.now.containers container → ⊥)
            → (Contains exclude.now.pipelines pipeline → ⊥)
            → IsNeeded O.opening story stripe container pipeline }
        requires made { O.coherent → (number : ℕ) → Contains exclude.now.containers number
            → IsSome (get (containers O.opening self.old.mine) number) }

        // What it grants is stable, and stands in the story.
        ensures grants { result ≢ Err NoMemory → Grants stripe exclude.now self.old.scm self.new.scm
            (seen (D.told self.old.scm.disk) (D.clock self.old.scm.disk) (D.image self.old.scm.disk)
            (D.faults self.old.scm.disk))
            (seen (D.told self.new.scm.disk) (D.clock self.new.scm.disk) (D.image self.new.scm.disk)
            (D.faults self.new.scm.disk))
            result }
        ensures halted { self.old.scm.stopped ≡ true → (self.new.scm ≡ self.old.scm)
            × (result ≡ Err (Stopped (D.faults self.old.scm.disk))) }
        ensures own { self.new.mine ≡ own_after self.old.scm.stopped stripe self.old.mine result }
        ensures refused { IfErr result (IsRefusal O.opening self.new.mine exclude.now) }
        ensures no_memory { result ≡ Err NoMemory → self.new.scm ≡ self.old.scm }
        ensures goes_on { BeginsWith self.new.seen self.old.seen }

        // The seat has seen it then.
        ensures shown { own_entries (λ event. event.seat) scm_seat (seen_of seat.new) ≡ self.new.mine }
        ensures follow { AllFollow (Follows O.coherent O.opening O.bytes O.script) [] (seen_of seat.new) }
        ensures ready { IsReady R.turn (number_of seat.old) seat.new }
        ensures begins { BeginsWith (seen_of seat.new) (seen_of seat.old) }
        ensures mine { mine_of seat.new ≡ mine_of seat.old }
        ensures room { room_of seat.new ≡ room_of seat.old }
    {
        let answer = self.granted(rt, alloc, turn, seat, stripe, exclude);
        self.show(rt, turn, seat);
        answer
    }

    /// The same, without the last look.
    fn granted<W: Wait>(
        &mut self,
        rt: &W,
        alloc: Global,
        turn: &Turn<Ledger<O>>,
        seat: &mut Seat<Ledger<O>>,
        stripe: u8,
        exclude: &Exclude,
    ) -> Result<Grant, GrantFault>
        requires turn { turn_id turn.now ≡ R.turn }
        requires ready { IsReady R.turn (number_of seat.old) seat.old }
        requires stripe { stripe < STRIPES }
        requires needed { O.coherent → (story : List AnyEvent) → BeginsWith story (seen_of seat.old)
            → AllFollow (Follows O.coherent O.opening O.bytes O.script) [] story
            → own_entries (λ event. event.seat) (number_of seat.old) story ≡ mine_of seat.old
            → own_entries (λ event. event.seat) scm_seat story ≡ self.old.mine
            → (container pipeline : ℕ) → (Contains exclude.now.containers container → ⊥)
            → (Contains exclude.now.pipelines pipeline → ⊥)
            → IsNeeded O.opening story stripe container pipeline }
        requires made { O.coherent → (number : ℕ) → Contains exclude.now.containers number
            → IsSome (get (containers O.opening self.old.mine) number) }
        ensures grants { result ≢ Err NoMemory → Grants stripe exclude.now self.old.scm self.new.scm
            (seen (D.told self.old.scm.disk) (D.clock self.old.scm.disk) (D.image self.old.scm.disk)
            (D.faults self.old.scm.disk))
            (seen (D.told self.new.scm.disk) (D.clock self.new.scm.disk) (D.image self.new.scm.disk)
            (D.faults self.new.scm.disk))
            result }
        ensures halted { self.old.scm.stopped ≡ true → (self.new.scm ≡ self.old.scm)
            × (result ≡ Err (Stopped (D.faults self.old.scm.disk))) }
        ensures own { self.new.mine ≡ own_after self.old.scm.stopped stripe self.old.mine result }
        ensures refused { IfErr result (IsRefusal O.opening self.new.mine exclude.now) }
        ensures no_memory { result ≡ Err NoMemory → self.new.scm ≡ self.old.scm }
        ensures goes_on { BeginsWith self.new.seen self.old.seen }
        ensures ready { IsReady R.turn (number_of seat.old) seat.new }
        ensures begins { BeginsWith (seen_of seat.new) (seen_of seat.old) }
        ensures mine { mine_of seat.new ≡ mine_of seat.old }
        ensures room { room_of seat.new ≡ room_of seat.old }
    {
        if self.scm.stopped() {
            return self.scm.grant(alloc, stripe, exclude);
        }
        reserve(rt, alloc, turn, &mut self.seat)?;
        let answer = self.scm.grant(alloc, stripe, exclude);
        let told = told_of(stripe, &answer);
        tell(rt, turn, &mut self.seat, seat, told);
        answer
    }
}

/// What is told of a call that is to grant ids to a stripe.
fn told_of(stripe: u8, answer: &Result<Grant, GrantFault>) -> Option<EventKind>
    ensures { result ≡ told_of stripe answer.now }
{
    match answer {
        Ok(grant) => Some(EventKind::Grant {
            stripe,
            container: grant.container,
            pipeline: grant.pipeline,
            first: grant.first,
            count: grant.count,
        }),
        Err(GrantFault::Stopped { count }) => Some(EventKind::Halt {
            node: Node::Scm,
            count: *count,
        }),
        Err(_) => None,
    }
}
