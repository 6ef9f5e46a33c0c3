//! The service job purges the deleted rows of a stripe that may go.

ghost use Rattle.std.specs.Prelude.{◌≡◌, ◌≤◌, ◌<◌, All, false, true, None, Ok, IfErr, IfOk, OnOk, length, take};
ghost use Rattle.oz_core.specs.Law.{IsPurged};
ghost use Rattle.oz_names.specs.declared.limits.TheConstants.{STRIPES};
ghost use Rattle.oz_om.specs.Purging.{HadNoRows, HasPurged, WasRefused, blocks_of_all};
ghost use Rattle.oz_service.specs.Pass.{GoesOn, LooksOn};
ghost use Rattle.oz_service.specs.Purges.{AreLogged, AskRefusalHolds, LogFaultHolds, MayBeNamed, PassFaultHolds, StripeWasPurged, WasPurged, of_log};

use crate::pass::fault::PassFault;
use crate::pass::logging::log_all;
use crate::pass::naming::{Front, front_of};
use crate::pass::parts::Parts;
use crate::pass::service::{SERVICE_SEAT, Service};
use oz_buffer::{Ledger, Opened};
use oz_fields::{Block, List};
use oz_locks::Loaded;
use oz_om::{Purged, Refusal};
use oz_rows::RowKey;
use oz_scm_events::AckFault;
use oz_turn::Ring;
use oz_world::Disk;
use std::sync::Wait;

impl<O: Opened, R: Ring> Service<Ledger<O>, O, R> {
    /// Purges the deleted rows of a stripe that may go, up to 1,024 of them: they are found and their blocks asked for, the blocks
    /// are logged, in transactions of the log of deleted blocks, and then the rows are purged, by one request for each of their
    /// volumes. Answers whether there were any.
    ///
    /// Errors: as `Manager::purge_stripe` and `Manager::ask_service` say, `ScmStopped` where the storage container manager has
    /// halted, and want of memory; the same is answered where a transaction may not be logged, which never comes. The rows that
    /// weren't purged are found again by a later call. A request that was asked and isn't decided waits.
    pub(crate) fn purge<D: Disk, L: Loaded, W: Wait>(
        &mut self,
        parts: &Parts<'_, D, O, L, R, W>,
        stripe: u8,
    ) -> Result<bool, PassFault>
        requires none { self.old.waiting ≡ None }
        requires stripe { stripe < STRIPES }
        ensures goes_on { GoesOn self.old self.new }
        ensures none { OnOk result (self.new.waiting ≡ None) }
        ensures idle { result ≡ Ok false → HadNoRows O.coherent O.opening L.rows stripe self.old.seen self.new.seen }
        ensures silent { result ≡ Ok false → (self.new.mine ≡ self.old.mine) × (self.new.purged_to ≡ self.old.purged_to) }
        ensures purged { result ≡ Ok true → StripeWasPurged O.coherent O.opening L.rows stripe self.old.seen self.new.seen self.new.purged_to }
        ensures risen { self.old.purged_to ≤ self.new.purged_to }
        ensures refused { IfErr result (PassFaultHolds O.coherent O.opening stripe self.old.seen self.new.seen) }
    {
        let purged = match self.find(parts, stripe) {
            Ok(purged) => purged,
            Err(refusal) => return Err(PassFault::Manager { refusal }),
        };
        if purged.rows.is_empty() {
            return Ok(false);
        }
        if let Err(fault) = self.log(parts, purged.rows.as_slice()) {
            return Err(of_log(fault));
        }
        match self.purge_rows(parts, purged.rows.as_slice()) {
            Ok(()) => Ok(true),
            Err(refusal) => Err(PassFault::Manager { refusal }),
        }
    }

    /// Finds the rows, and has the stripe's seat ask for their blocks to be deleted.
    ///
    /// Errors: as `Manager::purge_stripe` says.
    fn find<D: Disk, L: Loaded, W: Wait>(
        &mut self,
        parts: &Parts<'_, D, O, L, R, W>,
        stripe: u8,
    ) -> Result<Purged, Refusal>
        requires { stripe < STRIPES }
        ensures looked { LooksOn self.old self.new }
        ensures purged { IfOk result (HasPurged O.coherent O.opening L.rows stripe self.old.seen self.new.seen) }
        ensures refused { IfErr result (WasRefused stripe self.old.seen self.new.seen) }
    {
        self.seat.knows_own();
        let purged = parts.manager.purge_stripe(
            parts.lent.rt,
            parts.lent.alloc,
            parts.lent.turn,
            &mut self.seat,
            SERVICE_SEAT,
            stripe,
        );
        self.seat.knows_own();
        purged
    }

    /// Has all blocks of these rows logged, which were asked for.
    ///
    /// Errors: as `log_all` says.
    fn log<D: Disk, L: Loaded, W: Wait>(
        &mut self,
        parts: &Parts<'_, D, O, L, R, W>,
        rows: &[(RowKey, List<Block>)],
    ) -> Result<(), AckFault>
        requires { All (IsPurged self.old.seen) (blocks_of_all rows.now) }
        ensures looked { LooksOn self.old self.new }
        ensures logged { OnOk result (AreLogged self.new.seen (blocks_of_all rows.now)) }
        ensures refused { IfErr result (LogFaultHolds self.new.seen) }
    {
        self.seat.knows_own();
        let logged = log_all(parts, &mut self.seat, rows);
        self.seat.knows_own();
        logged
    }

    /// Purges rows whose blocks are logged, by one request for each of their volumes.
    ///
    /// Errors: as `Manager::ask_service` says, and want of memory. The requests before that are decided.
    fn purge_rows<D: Disk, L: Loaded, W: Wait>(
        &mut self,
        parts: &Parts<'_, D, O, L, R, W>,
        rows: &[(RowKey, List<Block>)],
    ) -> Result<(), Refusal>
        requires none { self.old.waiting ≡ None }
        requires may { O.coherent → All (MayBeNamed self.old.seen) rows.now }
        ensures goes_on { GoesOn self.old self.new }
        ensures none { OnOk result (self.new.waiting ≡ None) }
        ensures risen { self.old.purged_to ≤ self.new.purged_to }
        ensures purged { O.coherent → OnOk result (All (WasPurged O.opening self.old.seen self.new.seen self.new.purged_to) rows.now) }
        ensures refused { IfErr result (AskRefusalHolds O.coherent O.opening self.new.seen) }
    {
        let mut place = 0;
        while place < rows.len() {
            let (_, rest) = rows.split_at(place);
            let count = self.purge_front(parts, rest)?;
            place += count;
        }
        Ok(())
    }

    /// Purges those of the rows at the front that are of the first one's volume. Answers how many they are.
    ///
    /// Errors: as `Manager::ask_service` says, and want of memory.
    fn purge_front<D: Disk, L: Loaded, W: Wait>(
        &mut self,
        parts: &Parts<'_, D, O, L, R, W>,
        rows: &[(RowKey, List<Block>)],
    ) -> Result<usize, Refusal>
        requires none { self.old.waiting ≡ None }
        requires may { O.coherent → All (MayBeNamed self.old.seen) rows.now }
        ensures goes_on { GoesOn self.old self.new }
        ensures none { OnOk result (self.new.waiting ≡ None) }
        ensures risen { self.old.purged_to ≤ self.new.purged_to }
        ensures count { IfOk result (λ count. (1 ≤ count) × (count ≤ length rows.now)) }
        ensures purged { O.coherent → IfOk result (λ count.
            All (WasPurged O.opening self.old.seen self.new.seen self.new.purged_to) (take count rows.now)) }
        ensures refused { IfErr result (AskRefusalHolds O.coherent O.opening self.new.seen) }
    {
        let Front { request, count } = front_of(parts.lent.alloc, rows)?;
        if !self.take_up(request) {
            unreachable!()
        }
        self.ask(parts)?;
        Ok(count)
    }
}

/// What the service job answers where blocks weren't logged. That a transaction may not be logged never comes, since they are
/// numbered under the lock under which they are logged, and blocks are of containers that were made; as want of memory it makes a
/// later call go on.
fn of_log(fault: AckFault) -> PassFault
    ensures { result ≡ of_log fault }
{
    match fault {
        AckFault::Stopped { count } => PassFault::ScmStopped { count },
        AckFault::NotDue | AckFault::OutOfMemory => PassFault::OutOfMemory,
    }
}
