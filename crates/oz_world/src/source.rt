//! What a source is: where a script comes from.

ghost use Rattle.std.specs.Prelude.{◌≡◌, ◌≤◌, ◌<◌, ◌↔◌, ℕ, List, [], length, take, drop, Option, IfOk, IfSome, OnErr};
ghost use Rattle.std.specs.Option.{option_map};
ghost use Rattle.oz_world.specs.Faults.{HasCause};

use crate::Failed;

/// Where bytes come from, once and in order.
pub trait Source {
    /// What is left to read, where the source tells it.
    ghost left: { Self → Option (List ℕ) };

    /// How often the source has failed.
    ghost faults: { Self → ℕ };

    /// How often the source has failed, at most `u64::MAX`.
    fn faults(&self) -> u64
        ensures { result ≡ faults self.now };

    /// Reads some bytes into the first places of `into`, and answers how many: 0 only at the end.
    fn read(&mut self, into: &mut [u8]) -> Result<usize, Failed>
        requires { 0 < length into.old }
        ensures fits { IfOk result (λ n. n ≤ length into.old) }
        ensures bytes { IfOk result (λ n. IfSome (left self.old) (λ rest. take n into.new ≡ take n rest)) }
        ensures end { IfOk result (λ n. IfSome (left self.old) (λ rest. (n ≡ 0) ↔ (rest ≡ []))) }
        ensures taken { IfOk result (λ n. left self.new ≡ option_map (drop n) (left self.old)) }
        ensures failed { OnErr result (left self.new ≡ left self.old) }
        ensures cause { HasCause (faults self.old) (faults self.new) result };
}
