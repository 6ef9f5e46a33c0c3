//! What is done with the journal of grants.

ghost use Rattle.std.specs.Prelude.{◌≡◌, ◌≤◌, ℕ, List, true, false, length, is_err, Some, IfErr, OnOk, OnErr};
ghost use Rattle.oz_journal.specs.Appends.{Appends};
ghost use Rattle.oz_journal.specs.Journal.{body_of};
ghost use Rattle.oz_journal.specs.declared.frame.TheConstants.{LONGEST_FRAME};
ghost use Rattle.oz_world.specs.Disk.{seen, IsStable};

use crate::fault::GrantFault;
use oz_journal::Journal;
use oz_world::Disk;

/// Whether a body may be added: no call on the journal has failed.
pub(crate) fn check<D: Disk>(journal: &Journal<D>) -> Result<(), GrantFault>
    ensures running { OnOk result (journal.now.stopped ≡ false) }
    ensures at_rest { OnOk result ((bytes : List ℕ) → D.told journal.now.disk ≡ Some bytes →
        IsStable (D.image journal.now.disk) (D.clock journal.now.disk) bytes) }
    ensures stopped { OnErr result (journal.now.stopped ≡ true) }
    ensures fault { IfErr result (λ fault. fault ≡ GrantFault.Stopped (D.faults journal.now.disk)) }
{
    if journal.stopped() {
        let count = journal.faults();
        return Err(GrantFault::Stopped { count });
    }
    Ok(())
}

/// Adds a framed body.
pub(crate) fn add<D: Disk>(journal: &mut Journal<D>, frame: &mut [u8]) -> Result<(), GrantFault>
    requires running { journal.old.stopped ≡ false }
    requires least { 5 ≤ length frame.old }
    requires most { length frame.old ≤ LONGEST_FRAME }
    ensures appended { Appends (body_of frame.old)
        (seen (D.told journal.old.disk) (D.clock journal.old.disk) (D.image journal.old.disk)
        (D.faults journal.old.disk))
        (seen (D.told journal.new.disk) (D.clock journal.new.disk) (D.image journal.new.disk)
        (D.faults journal.new.disk))
        result }
    ensures stopped { journal.new.stopped ≡ is_err result }
    ensures fault { IfErr result (λ fault. fault ≡ GrantFault.Stopped (D.faults journal.new.disk)) }
{
    let Ok(_moment) = journal.append(frame) else {
        let count = journal.faults();
        return Err(GrantFault::Stopped { count });
    };
    Ok(())
}
