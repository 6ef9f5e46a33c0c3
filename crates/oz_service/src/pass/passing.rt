//! A pass of the service job.

ghost use Rattle.std.specs.Prelude.{◌≡◌, ◌||◌, false, length, None, Ok, OnOk, true};
ghost use Rattle.oz_kept.specs.reopened.Left.{NumbersAreApart};
ghost use Rattle.oz_names.specs.declared.limits.TheConstants.{STRIPES};
ghost use Rattle.oz_om.specs.Purging.{NoneHadAny};
ghost use Rattle.oz_om.specs.Working.{NoneBelow};
ghost use Rattle.oz_service.specs.Pass.{FoundNothing, GoesOn, LooksOn, outcome_of};

use crate::pass::fault::PassFault;
use crate::pass::parts::Parts;
use crate::pass::service::{Service, see};
use oz_buffer::{Ledger, Opened};
use oz_locks::Loaded;
use oz_names::STRIPES;
use oz_om::Refusal;
use oz_turn::Ring;
use oz_world::Disk;
use std::sync::Wait;

/// What came of a pass.
#[derive(Clone, Copy, Debug, PartialEq, Eq)]
pub enum Passed {
    /// There was nothing to do.
    Idle,
    /// Something was done.
    WentOn,
    /// What was decided has to be flushed first, and there was nothing else to do.
    Waits,
}

impl<O: Opened, R: Ring> Service<Ledger<O>, O, R> {
    /// One pass. What it had asked and hasn't seen decided is asked again. Then deleted rows that may go are purged, up to 1,024 of each
    /// stripe, unless such as were purged before aren't flushed yet; deleted snapshots are worked off; and what is logged is sent to
    /// datanodes. `count` is how many datanodes there are.
    ///
    /// Errors: the first that a step of it had. A later pass goes on from there.
    pub fn pass<D: Disk, L: Loaded, W: Wait>(
        &mut self,
        parts: &Parts<'_, D, O, L, R, W>,
        count: u8,
    ) -> Result<Passed, PassFault>
        requires all { parts.now.lent.nodes.now ≡ count }
        requires opened { count ≡ length O.opening.nodes }
        requires apart { O.coherent → NumbersAreApart O.opening }
        ensures goes_on { GoesOn self.old self.new }
        ensures idle { O.coherent → result ≡ Ok Passed.Idle → FoundNothing O.coherent O.opening L.rows self.old.seen self.new.seen }
    {
        match self.pass_on(parts, count) {
            Err(
                PassFault::Manager {
                    refusal: Refusal::Later { .. },
                },
            ) => Ok(Passed::Waits),
            passed => passed,
        }
    }

    /// The same; where the buffer is too full to decide more it is refused.
    fn pass_on<D: Disk, L: Loaded, W: Wait>(
        &mut self,
        parts: &Parts<'_, D, O, L, R, W>,
        count: u8,
    ) -> Result<Passed, PassFault>
        requires all { parts.now.lent.nodes.now ≡ count }
        requires opened { count ≡ length O.opening.nodes }
        requires apart { O.coherent → NumbersAreApart O.opening }
        ensures goes_on { GoesOn self.old self.new }
        ensures idle { O.coherent → result ≡ Ok Passed.Idle → FoundNothing O.coherent O.opening L.rows self.old.seen self.new.seen }
    {
        let asked = self.ask_again(parts)?;
        let flushed = self.is_flushed(parts);
        let purged = self.purge_where(parts, flushed)?;
        let worked = self.work_off(parts)?;
        let sent = self.send(parts, count)?;
        let any = either(either(asked, purged), either(worked, sent));
        Ok(outcome_of(any, flushed))
    }

    /// Asks again what waits. Answers whether something did.
    ///
    /// Errors: as `Manager::ask_service` says.
    fn ask_again<D: Disk, L: Loaded, W: Wait>(
        &mut self,
        parts: &Parts<'_, D, O, L, R, W>,
    ) -> Result<bool, PassFault>
        ensures goes_on { GoesOn self.old self.new }
        ensures none { OnOk result (self.new.waiting ≡ None) }
    {
        if self.waiting.is_none() {
            return Ok(false);
        }
        self.ask(parts)?;
        Ok(true)
    }

    /// Whether the rows that it purged are flushed.
    fn is_flushed<D: Disk, L: Loaded, W: Wait>(&mut self, parts: &Parts<'_, D, O, L, R, W>) -> bool
        ensures looked { LooksOn self.old self.new }
    {
        self.seat.knows_own();
        let durable = see(parts, &mut self.seat);
        self.seat.knows_own();
        self.purged_to <= durable
    }

    /// Purges the deleted rows of all stripes that may go, if those that it purged before are flushed. Answers whether there were any.
    ///
    /// Errors: those of `purge`.
    fn purge_where<D: Disk, L: Loaded, W: Wait>(
        &mut self,
        parts: &Parts<'_, D, O, L, R, W>,
        flushed: bool,
    ) -> Result<bool, PassFault>
        requires none { self.old.waiting ≡ None }
        ensures goes_on { GoesOn self.old self.new }
        ensures none { OnOk result (self.new.waiting ≡ None) }
        ensures idle { flushed ≡ true → result ≡ Ok false → NoneHadAny O.coherent O.opening L.rows STRIPES self.old.seen self.new.seen }
    {
        if !flushed {
            return Ok(false);
        }
        self.purge_all(parts)
    }

    /// Purges the deleted rows of all stripes that may go, up to 1,024 of each. Answers whether there were any.
    ///
    /// Errors: those of `purge`.
    fn purge_all<D: Disk, L: Loaded, W: Wait>(
        &mut self,
        parts: &Parts<'_, D, O, L, R, W>,
    ) -> Result<bool, PassFault>
        requires none { self.old.waiting ≡ None }
        ensures goes_on { GoesOn self.old self.new }
        ensures none { OnOk result (self.new.waiting ≡ None) }
        ensures idle { result ≡ Ok false → NoneHadAny O.coherent O.opening L.rows STRIPES self.old.seen self.new.seen }
    {
        let mut any = false;
        for stripe in 0..STRIPES {
            let purged = self.purge(parts, stripe)?;
            any = either(any, purged);
        }
        Ok(any)
    }

    /// Works off all deleted snapshots, one request after another. Answers whether there were any.
    ///
    /// Errors: those of `step`.
    fn work_off<D: Disk, L: Loaded, W: Wait>(
        &mut self,
        parts: &Parts<'_, D, O, L, R, W>,
    ) -> Result<bool, PassFault>
        requires none { self.old.waiting ≡ None }
        ensures goes_on { GoesOn self.old self.new }
        ensures none { OnOk result (self.new.waiting ≡ None) }
        ensures idle { O.coherent → result ≡ Ok false → NoneBelow O.opening L.rows STRIPES self.old.seen self.new.seen }
    {
        let mut any = false;
        for _ in parts.lent.rt.forever() {
            if !self.chain(parts)? {
                return Ok(any);
            }
            any = true;
        }
        unreachable!()
    }
}

/// Whether one of both is so.
fn either(one: bool, other: bool) -> bool
    ensures { result ≡ (one || other) }
{
    one || other
}

/// What came of a pass, by whether anything was done, and whether what was purged before it was flushed.
fn outcome_of(any: bool, flushed: bool) -> Passed
    ensures { result ≡ outcome_of any flushed }
{
    if any {
        Passed::WentOn
    } else if flushed {
        Passed::Idle
    } else {
        Passed::Waits
    }
}
