//! What a sink is: where the report goes.

ghost use Rattle.std.specs.Prelude.{◌≡◌, ◌≤◌, ◌<◌, ◌++◌, ℕ, List, length, take, Option, IfOk, OnErr};
ghost use Rattle.std.specs.Option.{option_map};
ghost use Rattle.oz_world.specs.Faults.{HasCause};

use crate::Failed;

/// Where bytes go, once and in order.
pub trait Sink {
    /// What was written so far, where the sink tells it.
    ghost held: { Self → Option (List ℕ) };

    /// How often the sink has failed.
    ghost faults: { Self → ℕ };

    /// How often the sink has failed, at most `u64::MAX`.
    fn faults(&self) -> u64
        ensures { result ≡ faults self.now };

    /// Writes the first of the bytes, at least one, and answers how many.
    fn write(&mut self, bytes: &[u8]) -> Result<usize, Failed>
        requires { 0 < length bytes.now }
        ensures some { IfOk result (λ n. 0 < n) }
        ensures fits { IfOk result (λ n. n ≤ length bytes.now) }
        ensures appended { IfOk result
            (λ n. held self.new ≡ option_map (λ before.
            before ++ take n bytes.now) (held self.old)) }
        ensures failed { OnErr result (held self.new ≡ held self.old) }
        ensures cause { HasCause (faults self.old) (faults self.new) result };
}
