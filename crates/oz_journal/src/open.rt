//! How a journal is opened.

ghost use Rattle.std.specs.Prelude.{◌≡◌, ◌+◌, ◌≤◌, ◌<◌, ◌^◌, ℕ, List, [], ◌∷◌, length, Some, IfSome, IsSomeAnd, IfOk};
ghost use Rattle.std.specs.Prelude.{OnOk, OnErr, IsErrOf};
ghost use Rattle.oz_world.specs.Disk.{Same, TellsAsBefore, IsStable};
ghost use Rattle.oz_world.specs.Faults.{Rose};
ghost use Rattle.oz_journal.specs.Body.{bodies_in, places_in};
ghost use Rattle.oz_journal.specs.Grammar.{IsJournal, IsDamagedAt, records, places};
ghost use Rattle.oz_journal.specs.inner.Rest.{IsAtRest};
ghost use Rattle.oz_journal.specs.Load.{IsLoadable, IsLeftAlone, loaded_at};
ghost use Rattle.oz_world.specs.Moments.{Elapses, Spans};

use crate::frame::CLOSED;
use crate::scan::scan;
use crate::store::store;
use crate::{Body, LoadFault};
use oz_world::Disk;
use std::alloc::Global;

/// All the bytes of a disk of this length, once they are stable.
fn stable_bytes<D: Disk>(alloc: Global, disk: &mut D, size: u64) -> Result<Vec<u8>, LoadFault>
    requires { IfSome (D.told disk.old) (λ bytes. size ≡ length bytes) }
    ensures bytes { IfOk result (λ read. IfSome (D.told disk.old) (λ bytes. read.items ≡ bytes)) }
    ensures size { IfOk result (λ read. length read.items ≡ size) }
    ensures stable { OnOk result (IfSome (D.told disk.old)
        (IsStable (D.image disk.new) (D.clock disk.new))) }
    ensures contents { D.told disk.new ≡ D.told disk.old }
    ensures moment { OnOk result (D.clock disk.new ≡ D.clock disk.old + 1) }
    ensures time { Spans Same (D.clock disk.old) (D.clock disk.new) (D.image disk.old)
        (D.image disk.new) }
    ensures disk { IsErrOf result LoadFault.Disk → Rose (D.faults disk.old) (D.faults disk.new) }
    ensures no_other { (offset : ℕ) → IsErrOf result (LoadFault.Damaged offset) → ⊥ }
    ensures never_falls { D.faults disk.old ≤ D.faults disk.new }
{
    let Ok(()) = disk.sync() else {
        return Err(LoadFault::Disk);
    };
    let mut bytes = vec![in alloc; 0; size as usize]?;
    let Ok(()) = disk.read_at(0, &mut bytes) else {
        return Err(LoadFault::Disk);
    };
    Ok(bytes)
}

/// The bodies of a disk, and the place of the closed gate behind them.
pub fn open<D: Disk>(alloc: Global, disk: &mut D) -> Result<(Vec<Body>, u64), LoadFault>
    ensures bodies { IfOk result (λ found. IfSome (D.told disk.old) (λ bytes.
        IsJournal bytes (bodies_in found.0.items))) }
    ensures places { IfOk result (λ found.
        places_in found.0.items ≡ places 0 (bodies_in found.0.items)) }
    ensures gate { IfOk result (λ found.
        found.1 ≡ length (records (bodies_in found.0.items))) }
    ensures within { IfOk result (λ found. found.1 + 1 < 2 ^ 64) }
    ensures at_rest { IfOk result (λ found. (bytes : List ℕ) → D.told disk.new ≡ Some bytes →
        IsAtRest bytes found.1 (D.image disk.new) (D.clock disk.new)) }
    ensures damaged { (offset : ℕ) → IsErrOf result (LoadFault.Damaged offset) →
        IfSome (D.told disk.old) (λ bytes. IsDamagedAt bytes offset) }
    ensures disk { IsErrOf result LoadFault.Disk → Rose (D.faults disk.old) (D.faults disk.new) }
    ensures never_falls { D.faults disk.old ≤ D.faults disk.new }
    ensures telling { TellsAsBefore (D.told disk.old) (D.told disk.new) }
    ensures contents { IfSome (D.told disk.old) (λ bytes.
        2 ≤ length bytes → D.told disk.new ≡ Some bytes) }
    ensures closed { IfSome (D.told disk.old) (λ bytes.
        length bytes ≤ 1 → OnOk result (D.told disk.new ≡ Some (0 ∷ []))) }
    ensures ended { OnOk result (IfSome (D.told disk.old) (λ bytes.
        D.clock disk.new ≡ loaded_at (D.clock disk.old) bytes)) }
    ensures time { Elapses (D.clock disk.old) (D.clock disk.new) (D.image disk.old)
        (D.image disk.new) }
    ensures moments { IfSome (D.told disk.old) (λ bytes.
        IsLoadable bytes (D.image disk.old (D.clock disk.old)) →
        Spans IsLeftAlone (D.clock disk.old) (D.clock disk.new) (D.image disk.old)
        (D.image disk.new)) }
    ensures loadable { IfSome (D.told disk.old) (λ bytes.
        IsLoadable bytes (D.image disk.old (D.clock disk.old)) →
        IsSomeAnd (D.told disk.new) (λ after.
        IsLoadable after (D.image disk.new (D.clock disk.new)))) }
{
    let Ok(size) = disk.len() else {
        return Err(LoadFault::Disk);
    };
    if size <= 1 {
        let Ok(()) = store(disk, 0, &[CLOSED]) else {
            return Err(LoadFault::Disk);
        };
        return Ok((Vec::new(alloc), 0));
    }
    let bytes = stable_bytes(alloc, disk, size)?;
    scan(alloc, &bytes)
}
