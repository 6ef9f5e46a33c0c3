//! What the manager is asked.

ghost use Rattle.std.specs.Prelude.{◌≡◌, ◌≢◌, ℕ, ◌<◌, List, [], true, false, Some, Err, IfOk, IfErr, IsSome};
ghost use Rattle.oz_asker.specs.Asked.{IsEarly, IsLate, IsSaidOtherwise, MayAdd};
ghost use Rattle.oz_asker.specs.Settled.{IsSettlement};
ghost use Rattle.oz_buffer.specs.Buffer.{AllFollow, Follows};
ghost use Rattle.oz_buffer.specs.Became.{index_of, times_said};
ghost use Rattle.oz_core.specs.declared.event.Event.{Event as AnyEvent};
ghost use Rattle.oz_core.specs.declared.event.EventKind.TheVariants as events;
ghost use Rattle.oz_core.specs.Asks.{is_script, pending};
ghost use Rattle.oz_core.specs.Fits.{EventFits};
ghost use Rattle.oz_core.specs.Law.{AskIsEnabled};
ghost use Rattle.oz_core.specs.Manager.{asked_late};
ghost use Rattle.oz_core.specs.Seats.{IsAskSeat};
ghost use Rattle.oz_om.specs.Decided.{IsDecided, IsTooMuch, WasAsSaid};
ghost use Rattle.oz_store.specs.granted.Empty.{IsPoolEmpty};
ghost use Rattle.oz_om.specs.Refusals.{AskStands, IsOfStripe};
ghost use Rattle.oz_om.specs.declared.refusal.Refusal.TheVariants as refusals;
ghost use Rattle.oz_requests.specs.declared.request.Family.TheVariants.{Service};
ghost use Rattle.oz_requests.specs.declared.request.Request.{Request as AnyRequest};
ghost use Rattle.oz_requests.specs.Families.{family_of};
ghost use Rattle.oz_turn.specs.Seat.{IsReady, mine_of, room_of, seen_of};
ghost use Rattle.oz_turn.specs.Told.{BeginsWith};
ghost use Rattle.oz_turn.specs.Turn.{turn_id};

use crate::deciding::decide_locked;
use crate::manager::Manager;
use crate::refusal::{Refusal, of_asker};
use oz_asker::{put_ask, see, what_follows_is_legal, what_was_decided};
use oz_buffer::{Ledger, Opened};
use oz_locks::Loaded;
use oz_names::stripe_of;
use oz_requests::{AskId, Reply, Request};
use oz_turn::{Ring, Seat, Turn};
use std::alloc::Global;
use std::sync::Wait;

impl<O: Opened, L: Loaded, R: Ring> Manager<Ledger<O>, O, L, R> {
    /// Asks for the id of a script's line, and answers what was decided: at one place of the story, by the stripe of
    /// the request's volume, as one thread would. `by` is the number of the asking seat.
    ///
    /// `said` has to be how often something was said of the blocks of the id's line; that is compared first. Where an Ask
    /// of the id stands undecided then, that is decided and no other is appended; the request has to be its own. The
    /// manager's own requests aren't asked so.
    pub fn ask<W: Wait>(
        &self,
        rt: &W,
        alloc: Global,
        turn: &Turn<Ledger<O>>,
        seat: &mut Seat<Ledger<O>>,
        by: u16,
        id: AskId,
        request: Request,
        said: u64,
    ) -> Result<Reply, Refusal>
        requires turn { turn_id turn.now ≡ R.turn }
        requires ready { IsReady R.turn by seat.old }
        requires seats { by < 64 }
        requires asker { IsAskSeat id by }
        requires script { is_script id ≡ true }
        requires of_client { family_of request ≢ Service }
        requires same { O.coherent → (story : List AnyEvent) → BeginsWith story (seen_of seat.old)
            → AllFollow (Follows O.coherent O.opening O.bytes O.script) [] story
            → times_said id.client id.line story ≡ said
            → (other : AnyRequest) → pending id story ≡ Some other → other ≡ request }
        requires fits { O.coherent → (story : List AnyEvent) → BeginsWith story (seen_of seat.old)
            → AllFollow (Follows O.coherent O.opening O.bytes O.script) [] story
            → times_said id.client id.line story ≡ said
            → AskIsEnabled O.opening story by id request
            → EventFits O.opening O.bytes O.script story (events.Ask id request) }
        ensures ready { IsReady R.turn by seat.new }
        ensures room { room_of seat.new ≡ room_of seat.old }
        ensures goes_on { BeginsWith (seen_of seat.new) (seen_of seat.old) }
        ensures follow { AllFollow (Follows O.coherent O.opening O.bytes O.script) [] (seen_of seat.new) }

        // At most one Ask is appended. What was decided the seat has seen, at its one place of the story, behind all that
        // it had seen before.
        ensures own { MayAdd by id request (mine_of seat.old) (mine_of seat.new) }
        ensures ok { O.coherent → IfOk result (λ reply. IsDecided O.opening (seen_of seat.old) (seen_of seat.new)
            id request reply) }
        ensures seen { IfOk result (λ reply. IsSome (index_of id (seen_of seat.new))) }

        // Unless it is refused for other blocks, so much was said at a place of the story behind all that was seen before.
        ensures as_said { result ≢ Err Refusal.OtherBlocks →
            WasAsSaid (seen_of seat.old) (seen_of seat.new) id said }

        // When each refusal comes, in the story that the seat has seen then, and what stands there.
        ensures other_blocks { result ≡ Err Refusal.OtherBlocks → (mine_of seat.new ≡ mine_of seat.old)
            × IsSaidOtherwise (seen_of seat.new) id said }
        ensures early { result ≡ Err Refusal.Early → (mine_of seat.new ≡ mine_of seat.old)
            × (O.coherent → IsEarly O.opening (seen_of seat.new) by id request) }
        ensures stopped { (count : ℕ) → result ≡ Err (refusals.Stopped count) → IsLate (seen_of seat.new) id count }
        ensures in_time { IfErr result (λ refusal. IsOfStripe refusal → asked_late id (seen_of seat.new) ≡ false) }
        ensures pool_empty { (stripe : ℕ) → result ≡ Err (refusals.PoolEmpty stripe) → O.coherent →
            IsPoolEmpty O.opening (seen_of seat.new) id stripe }
        ensures later { (held asked : ℕ) → result ≡ Err (refusals.Later held asked) →
            IsTooMuch O.coherent O.opening (seen_of seat.new) id held asked }
        ensures stands { O.coherent → AskStands (seen_of seat.new) id request result }
    {
        let stripe = stripe_of(request.volume());
        let place = match put_ask(rt, alloc, turn, seat, by, id, request, said) {
            Ok(place) => place,
            Err(fault) => return Err(of_asker(fault)),
        };
        self.opens();
        let (length, reply) = match decide_locked(
            rt,
            alloc,
            turn,
            &self.stripes,
            stripe,
            seat,
            by,
            place,
            id,
        ) {
            Ok(decided) => decided,
            Err(refusal) => return Err(refusal),
        };
        what_follows_is_legal::<O>();
        what_was_decided();
        see(rt, turn, seat, by, last_of(length), id, &reply);
        Ok(reply)
    }

    /// Whether the last Decide of an id is stable, and with it all that was decided before. Where the manager has
    /// halted before it never will be, and the answer is how often its disks had failed. `by` is the number of the
    /// asking seat.
    pub fn settle<W: Wait>(
        &self,
        rt: &W,
        turn: &Turn<Ledger<O>>,
        seat: &mut Seat<Ledger<O>>,
        by: u16,
        id: AskId,
    ) -> Result<bool, u64>
        requires turn { turn_id turn.now ≡ R.turn }
        requires ready { IsReady R.turn by seat.old }
        requires decided { IsSome (index_of id (seen_of seat.old)) }
        ensures ready { IsReady R.turn by seat.new }
        ensures room { room_of seat.new ≡ room_of seat.old }
        ensures goes_on { BeginsWith (seen_of seat.new) (seen_of seat.old) }
        ensures mine { mine_of seat.new ≡ mine_of seat.old }
        ensures follow { AllFollow (Follows O.coherent O.opening O.bytes O.script) [] (seen_of seat.new) }
        ensures told { IsSettlement O.opening (seen_of seat.new) id result }
    {
        oz_asker::settle(rt, turn, seat, by, id)
    }
}

/// The place of the last event of a story that has so many.
fn last_of(length: u64) -> usize {
    (length as usize).saturating_sub(1)
}
