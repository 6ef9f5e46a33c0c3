//! Writes that are stable once they have answered.

ghost use Rattle.std.specs.Prelude.{◌≡◌, ◌+◌, ◌<◌, ◌≤◌, ◌^◌, List, ℕ, [], ◌∷◌, length, Some, IfSome, OnOk};
ghost use Rattle.std.specs.Option.{option_map};
ghost use Rattle.oz_world.specs.Disk.{overwritten, Torn, Moves, TellsAsBefore, IsStable};
ghost use Rattle.oz_world.specs.Faults.{HasCause};
ghost use Rattle.oz_world.specs.Moments.{Elapses, Spans, LeavesOnly};
ghost use Rattle.oz_journal.specs.inner.Parts.{IsPartOf};

use crate::frame::{CLOSED, OPEN};
use oz_world::{Disk, Failed};

/// Writes, and makes it stable.
pub fn store<D: Disk>(disk: &mut D, pos: u64, bytes: &[u8]) -> Result<(), Failed>
    requires { IfSome (D.told disk.old) (λ before. pos ≤ length before) }
    ensures written { OnOk result
        (D.told disk.new ≡ option_map (overwritten pos bytes.now) (D.told disk.old)) }
    ensures torn { Moves (Torn pos (length bytes.now)) (D.told disk.old) (D.told disk.new) }
    ensures within { OnOk result (pos + length bytes.now < 2 ^ 64) }
    ensures stable { OnOk result
        (IfSome (D.told disk.new) (IsStable (D.image disk.new) (D.clock disk.new))) }
    ensures moments { OnOk result (D.clock disk.new ≡ D.clock disk.old + 2) }
    ensures time { Spans (Torn pos (length bytes.now)) (D.clock disk.old) (D.clock disk.new)
        (D.image disk.old) (D.image disk.new) }
    ensures cause { HasCause (D.faults disk.old) (D.faults disk.new) result }
{
    disk.write_at(pos, bytes)?;
    disk.sync()?;
    Ok(())
}

/// Puts a framed record behind a gate, and opens that gate once the record is stable.
pub fn put<D: Disk>(disk: &mut D, gate: u64, framed: &[u8]) -> Result<(), Failed>
    requires place { gate + 1 < 2 ^ 64 }
    requires there { IfSome (D.told disk.old) (λ bytes. gate < length bytes) }
    ensures written { OnOk result (D.told disk.new
        ≡ option_map (overwritten gate (1 ∷ []))
        (option_map (overwritten (gate + 1) framed.now) (D.told disk.old))) }
    ensures within { OnOk result (gate + 1 + length framed.now < 2 ^ 64) }
    ensures stable { OnOk result
        (IfSome (D.told disk.new) (IsStable (D.image disk.new) (D.clock disk.new))) }
    ensures telling { TellsAsBefore (D.told disk.old) (D.told disk.new) }
    ensures moments { OnOk result (D.clock disk.new ≡ D.clock disk.old + 4) }
    ensures time { Elapses (D.clock disk.old) (D.clock disk.new) (D.image disk.old)
        (D.image disk.new) }
    ensures leaves { (bytes : List ℕ) → D.told disk.old ≡ Some bytes →
        IsStable (D.image disk.old) (D.clock disk.old) bytes →
        LeavesOnly (IsPartOf gate framed.now bytes) (D.clock disk.old) (D.clock disk.new)
        (D.image disk.new) }
    ensures cause { HasCause (D.faults disk.old) (D.faults disk.new) result }
{
    store(disk, gate + 1, framed)?;
    store(disk, gate, &[OPEN])?;
    Ok(())
}

/// Leaves a closed gate and nothing else.
pub fn empty<D: Disk>(disk: &mut D) -> Result<(), Failed>
    ensures written { OnOk result (D.told disk.new ≡ option_map (λ _. 0 ∷ []) (D.told disk.old)) }
    ensures telling { TellsAsBefore (D.told disk.old) (D.told disk.new) }
    ensures moments { OnOk result (D.clock disk.new ≡ D.clock disk.old + 4) }
    ensures stable { OnOk result
        (IfSome (D.told disk.new) (IsStable (D.image disk.new) (D.clock disk.new))) }
    ensures time { Elapses (D.clock disk.old) (D.clock disk.new) (D.image disk.old)
        (D.image disk.new) }
    ensures cause { HasCause (D.faults disk.old) (D.faults disk.new) result }
{
    disk.cut(0)?;
    disk.sync()?;
    store(disk, 0, &[CLOSED])?;
    Ok(())
}
