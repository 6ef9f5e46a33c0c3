//! What the service job asks, one step after another.

ghost use Rattle.std.specs.Prelude.{◌≡◌, false, None, Ok, IfOk, IfSome, OnOk};
ghost use Rattle.oz_core.specs.Law.{PurgesLogged};
ghost use Rattle.oz_names.specs.declared.limits.TheConstants.{STRIPES};
ghost use Rattle.oz_om.specs.Working.{NoneBelow};
ghost use Rattle.oz_service.specs.Pass.{FoundWork, GoesOn, LooksOn};

use crate::pass::parts::Parts;
use crate::pass::service::{SERVICE_SEAT, Service, see};
use oz_buffer::{Ledger, Opened};
use oz_fields::OutOfMemory;
use oz_locks::Loaded;
use oz_om::Refusal;
use oz_requests::Request;
use oz_turn::Ring;
use oz_world::Disk;
use std::sync::Wait;

impl<O: Opened, R: Ring> Service<Ledger<O>, O, R> {
    /// Asks the request that works off the first deleted snapshot, and sees it decided. Answers whether there is one. Where there is
    /// none it has given nothing.
    ///
    /// Errors: as `Manager::ask_service` says, and want of memory. What was to be asked waits then.
    pub(crate) fn chain<D: Disk, L: Loaded, W: Wait>(
        &mut self,
        parts: &Parts<'_, D, O, L, R, W>,
    ) -> Result<bool, Refusal>
        requires none { self.old.waiting ≡ None }
        ensures goes_on { GoesOn self.old self.new }
        ensures none { OnOk result (self.new.waiting ≡ None) }
        ensures idle { result ≡ Ok false → LooksOn self.old self.new }
        ensures work { O.coherent → result ≡ Ok false → NoneBelow O.opening L.rows STRIPES self.old.seen self.new.seen }
    {
        let Some(request) = self.next_work(parts)? else {
            return Ok(false);
        };
        if !self.take_up(request) {
            return Ok(false);
        }
        self.ask(parts)?;
        Ok(true)
    }

    /// The request that works off the first deleted snapshot, None where there is none.
    fn next_work<D: Disk, L: Loaded, W: Wait>(
        &mut self,
        parts: &Parts<'_, D, O, L, R, W>,
    ) -> Result<Option<Request>, OutOfMemory>
        ensures looked { LooksOn self.old self.new }
        ensures first { O.coherent → IfOk result (FoundWork O.opening L.rows self.old.seen self.new.seen) }
        ensures logged { IfOk result (λ found. IfSome found (λ request. O.coherent → PurgesLogged self.new.seen request)) }
    {
        self.seat.knows_own();
        let work = parts.manager.chain_work(
            parts.lent.rt,
            parts.lent.alloc,
            parts.lent.turn,
            &mut self.seat,
            SERVICE_SEAT,
        );
        see(parts, &mut self.seat);
        self.seat.knows_own();
        work
    }
}
