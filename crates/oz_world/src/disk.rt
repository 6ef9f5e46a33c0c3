//! What a disk is: its calls, what a read gives, and what a stop may leave at each moment.

ghost use Rattle.std.specs.Prelude.{◌≡◌, ◌≤◌, ◌<◌, ◌+◌, ◌^◌, ℕ, List, length, take, drop, slice_range, Option, Some};
ghost use Rattle.std.specs.Prelude.{IfOk, IfSome, OnOk, OnErr, IsErr};
ghost use Rattle.std.specs.Option.{option_map};
ghost use Rattle.oz_world.specs.Faults.{HasCause};
ghost use Rattle.oz_world.specs.Disk.{last_moment, overwritten, Torn, CutShort, Same, Moves, Stands, Ticks, IsStable};

use crate::Failed;

/// A disk: bytes at places, of which a stop may lose what wasn't synced.
pub trait Disk {
    /// What a read gives, where the disk tells it.
    ghost told: { Self → Option (List ℕ) };

    /// The present moment.
    ghost clock: { Self → ℕ };

    /// What a stop at a moment may leave.
    ghost image: { Self → ℕ → List ℕ → Type 0 };

    /// How often the disk has failed.
    ghost faults: { Self → ℕ };

    /// How often the disk has failed, at most `u64::MAX`.
    fn faults(&self) -> u64
        ensures { result ≡ faults self.now };

    /// The present moment. Each write, cut and sync raises it by 1, until it stands at `u64::MAX`.
    fn clock(&self) -> u64
        ensures { result ≡ clock self.now };

    /// The length in bytes.
    fn len(&mut self) -> Result<u64, Failed>
        ensures length { IfOk result (λ n. IfSome (told self.old) (λ bytes. n ≡ length bytes)) }
        ensures contents { told self.new ≡ told self.old }
        ensures time { Stands (clock self.old) (clock self.new) (image self.old) (image self.new) }
        ensures cause { HasCause (faults self.old) (faults self.new) result };

    /// Fills `into` with the bytes from `pos` on.
    fn read_at(&mut self, pos: u64, into: &mut [u8]) -> Result<(), Failed>
        requires { IfSome (told self.old) (λ bytes. pos + length into.old ≤ length bytes) }
        ensures bytes { OnOk result
            (IfSome (told self.old) (λ bytes.
            into.new ≡ slice_range bytes pos (pos + length into.old))) }
        ensures contents { told self.new ≡ told self.old }
        ensures time { Stands (clock self.old) (clock self.new) (image self.old) (image self.new) }
        ensures cause { HasCause (faults self.old) (faults self.new) result };

    /// Writes the bytes at `pos`, over what is there and past the end. The place behind the last one
    /// is a `u64` too.
    fn write_at(&mut self, pos: u64, bytes: &[u8]) -> Result<(), Failed>
        requires { IfSome (told self.old) (λ before. pos ≤ length before) }
        ensures written { OnOk result (told self.new ≡ option_map (overwritten pos bytes.now) (told self.old)) }
        ensures failed { OnErr result (Moves (Torn pos (length bytes.now)) (told self.old) (told self.new)) }
        ensures within { OnOk result (pos + length bytes.now < 2 ^ 64) }
        ensures time { clock self.old < last_moment →
            Ticks (Torn pos (length bytes.now)) (clock self.old) (clock self.new)
            (image self.old) (image self.new) }
        ensures no_time { last_moment ≤ clock self.old →
            IsErr result
            × (told self.new ≡ told self.old)
            × Stands (clock self.old) (clock self.new) (image self.old) (image self.new) }
        ensures cause { HasCause (faults self.old) (faults self.new) result };

    /// Cuts off what stands from `size` on.
    fn cut(&mut self, size: u64) -> Result<(), Failed>
        requires { IfSome (told self.old) (λ before. size ≤ length before) }
        ensures cut { OnOk result (told self.new ≡ option_map (take size) (told self.old)) }
        ensures failed { OnErr result (Moves (CutShort size) (told self.old) (told self.new)) }
        ensures time { clock self.old < last_moment →
            Ticks (CutShort size) (clock self.old) (clock self.new) (image self.old)
            (image self.new) }
        ensures no_time { last_moment ≤ clock self.old →
            IsErr result
            × (told self.new ≡ told self.old)
            × Stands (clock self.old) (clock self.new) (image self.old) (image self.new) }
        ensures cause { HasCause (faults self.old) (faults self.new) result };

    /// Makes all that was written and cut stable.
    fn sync(&mut self) -> Result<(), Failed>
        ensures contents { told self.new ≡ told self.old }
        ensures stable { OnOk result (IfSome (told self.old) (IsStable (image self.new) (clock self.new))) }
        ensures time { clock self.old < last_moment →
            Ticks Same (clock self.old) (clock self.new) (image self.old) (image self.new) }
        ensures no_time { last_moment ≤ clock self.old →
            IsErr result
            × (told self.new ≡ told self.old)
            × Stands (clock self.old) (clock self.new) (image self.old) (image self.new) }
        ensures cause { HasCause (faults self.old) (faults self.new) result };

    /// What a read gives is what a stop may leave.
    ghost read_is_image: { (disk : Self) (bytes : List ℕ) → told disk ≡ Some bytes → image disk (clock disk) bytes };
}
