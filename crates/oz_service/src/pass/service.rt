//! The service job's seat, and what it asks.

ghost use Rattle.std.specs.Prelude.{◌≡◌, [], IfErr, IfOk, IfSome, IsSome, None, OnErr, OnOk, Some, if◌then◌else◌, max, true};
ghost use Rattle.oz_buffer.specs.Buffer.{AllFollow, Follows};
ghost use Rattle.oz_core.specs.Law.{PurgesLogged};
ghost use Rattle.oz_core.specs.Manager.{durable_index};
ghost use Rattle.oz_core.specs.Seats.{service_seat};
ghost use Rattle.oz_om.specs.Served.{IsServed};
ghost use Rattle.oz_om.specs.Shown.{HasSeen};
ghost use Rattle.oz_requests.specs.declared.request.Family.TheVariants.{Service as OfService};
ghost use Rattle.oz_requests.specs.Families.{family_of};
ghost use Rattle.oz_service.specs.Pass.{AskedMore, Awaits, GoesOn, IsOfService};
ghost use Rattle.oz_service.specs.Purges.{AskRefusalHolds, is_purge, purged_with};
ghost use Rattle.oz_turn.specs.Seat.{IsNewSeat, IsReady, mine_of, seen_of};
ghost use Rattle.oz_turn.specs.Told.{BeginsWith};

use crate::pass::parts::Parts;
use oz_buffer::{Ledger, Opened};
use oz_core::Event;
use oz_fields::TryClone;
use oz_locks::Loaded;
use oz_om::Refusal;
use oz_requests::{Family, Request};
use oz_turn::{Ring, Seat, Told};
use oz_world::Disk;
use std::marker::{Model, PhantomData};
use std::sync::Wait;

/// The seat of the service job.
pub(crate) const SERVICE_SEAT: u16 = 1;

/// The service job of a run: its seat, the request that it asks and hasn't seen decided, and the transaction index up to which rows
/// were purged for it. Whatever it has asked beside that request is decided.
#[derive(Drop)]
pub struct Service<T: Told<Entry = Event>, O: Opened, R: Ring> {
    pub(crate) seat: Seat<T>,
    pub(crate) waiting: Option<Request>,
    pub(crate) purged_to: u64,
    of: PhantomData<(O, R)>,
}

impl<T: Told<Entry = Event>, O: Opened, R: Ring> Model for Service<T, O, R> {
    ghost use Rattle.std.specs.Prelude.{[]};
    ghost use Rattle.oz_buffer.specs.Buffer.{AllFollow, Follows};
    ghost use Rattle.oz_core.specs.Seats.{service_seat};
    ghost use Rattle.oz_service.specs.Pass.{Awaits, IsOfService, ServiceView};
    ghost use Rattle.oz_turn.specs.Seat.{IsReady, mine_of, seen_of};

    ghost Value = { ServiceView };

    ghost view = { λ it. record {
      seen = seen_of it.seat;
      mine = mine_of it.seat;
      waiting = it.waiting;
      purged_to = it.purged_to;
    } };

    ghost invariant = { λ it. IsReady R.turn service_seat it.seat
        × AllFollow (Follows O.coherent O.opening O.bytes O.script) [] (seen_of it.seat)
        × IsOfService it.waiting
        × (O.coherent → Awaits (seen_of it.seat) it.waiting) };
}

impl<O: Opened, R: Ring> Service<Ledger<O>, O, R> {
    /// One that has asked nothing yet.
    pub fn make(seat: Seat<Ledger<O>>) -> Service<Ledger<O>, O, R>
        requires { IsNewSeat R.turn service_seat seat }
        ensures { result ≡ record { seen = []; mine = []; waiting = None; purged_to = 0 } }
    {
        Service {
            seat,
            waiting: None,
            purged_to: 0,
            of: PhantomData,
        }
    }

    /// In what it has seen each event may follow. It does nothing when it runs.
    pub fn is_kept(&self)
        ensures { AllFollow (Follows O.coherent O.opening O.bytes O.script) [] self.now.seen }
    {
        let _waits = self.waiting.is_some();
    }

    /// Its seat, which doesn't hold the ledger.
    pub fn into_seat(self) -> Seat<Ledger<O>>
        ensures ready { IsReady R.turn service_seat result }
        ensures seen { seen_of result ≡ self.seen }
        ensures mine { mine_of result ≡ self.mine }
    {
        self.seat
    }

    /// Takes up what it is to ask next, where nothing waits. Answers whether the request is one of the service job's.
    pub(crate) fn take_up(&mut self, request: Request) -> bool
        requires none { self.old.waiting ≡ None }
        requires logged { O.coherent → PurgesLogged self.old.seen request }
        ensures taken { self.new ≡ if result then record self.old { waiting = Some request } else self.old }
        ensures of_service { family_of request ≡ OfService → result ≡ true }
    {
        if request.family() != Family::Service {
            return false;
        }
        self.waiting = Some(request);
        true
    }

    /// Asks what waits, and sees it decided, at the index that it answers. Nothing waits then; where it was a Purge, rows were purged
    /// up to that index.
    ///
    /// Errors: as `Manager::ask_service` says. It waits then as it did, and is asked again by the next call.
    pub(crate) fn ask<D: Disk, L: Loaded, W: Wait>(
        &mut self,
        parts: &Parts<'_, D, O, L, R, W>,
    ) -> Result<u64, Refusal>
        requires { IsSome self.old.waiting }
        ensures goes_on { GoesOn self.old self.new }
        ensures none { OnOk result (self.new.waiting ≡ None) }
        ensures waits { OnErr result (self.new.waiting ≡ self.old.waiting) }
        ensures served { O.coherent → IfOk result (λ index. IfSome self.old.waiting
            (λ request. IsServed O.opening self.old.seen self.new.seen request index)) }
        ensures purged { IfOk result (λ index. IfSome self.old.waiting
            (λ request. self.new.purged_to ≡ purged_with request index self.old.purged_to)) }
        ensures same { OnErr result (self.new.purged_to ≡ self.old.purged_to) }
        ensures refused { IfErr result (AskRefusalHolds O.coherent O.opening self.new.seen) }
    {
        let Some(request) = &self.waiting else {
            unreachable!()
        };
        let copy = request.try_clone(parts.lent.alloc)?;
        let purges = is_purge(&copy);
        let index = ask_at(parts, &mut self.seat, copy)?;
        self.purged_to = purged_to(purges, index, self.purged_to);
        self.waiting = None;
        Ok(index)
    }
}

fn is_purge(request: &Request) -> bool
    ensures { result ≡ is_purge request.now }
{
    matches!(request, Request::Purge { .. })
}

/// The transaction index up to which rows were purged, once a request, which purges or doesn't, was decided with this index.
fn purged_to(purges: bool, index: u64, before: u64) -> u64
    ensures { result ≡ if purges then max before index else before }
{
    if purges && before < index {
        index
    } else {
        before
    }
}

/// The seat sees all that happened until now. Answers up to which transaction index it is flushed.
pub(crate) fn see<D: Disk, O: Opened, L: Loaded, R: Ring, W: Wait>(
    parts: &Parts<'_, D, O, L, R, W>,
    seat: &mut Seat<Ledger<O>>,
) -> u64
    requires { IsReady R.turn service_seat seat.old }
    ensures durable { result ≡ durable_index O.opening (seen_of seat.new) }
    ensures shown { HasSeen R.turn O.coherent O.opening O.bytes O.script service_seat seat.old seat.new }
{
    let (ledger, held) = parts.lent.turn.take(parts.lent.rt, seat);
    ledger.all_follow();
    let durable = ledger.durable_index();
    parts.lent.turn.give_back(seat, ledger, held);
    durable
}

/// Asks by this seat, and sees it decided.
fn ask_at<D: Disk, O: Opened, L: Loaded, R: Ring, W: Wait>(
    parts: &Parts<'_, D, O, L, R, W>,
    seat: &mut Seat<Ledger<O>>,
    request: Request,
) -> Result<u64, Refusal>
    requires ready { IsReady R.turn service_seat seat.old }
    requires of_service { IsOfService (Some request) }
    requires awaits { O.coherent → Awaits (seen_of seat.old) (Some request) }
    ensures ready { IsReady R.turn service_seat seat.new }
    ensures goes_on { BeginsWith (seen_of seat.new) (seen_of seat.old) }
    ensures follow { AllFollow (Follows O.coherent O.opening O.bytes O.script) [] (seen_of seat.new) }
    ensures mine { AskedMore (mine_of seat.old) (mine_of seat.new) }
    ensures awaits { O.coherent → Awaits (seen_of seat.new) (Some request) }
    ensures decided { O.coherent → OnOk result (Awaits (seen_of seat.new) None) }
    ensures served { O.coherent → IfOk result (IsServed O.opening (seen_of seat.old) (seen_of seat.new) request) }
    ensures refused { IfErr result (AskRefusalHolds O.coherent O.opening (seen_of seat.new)) }
{
    parts.manager.ask_service(
        parts.lent.rt,
        parts.lent.alloc,
        parts.lent.turn,
        seat,
        request,
    )
}
