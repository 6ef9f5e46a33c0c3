//! A sink in memory.

ghost use Rattle.std.specs.Prelude.{◌≡◌, ◌≤◌, ◌<◌, ◌++◌, Some, [], length, IfOk, OnOk, OnErr, IsErr, is_err};
ghost use Rattle.oz_world.specs.Faults.{HasCause};
ghost use Rattle.oz_world.specs.Calls.{Counts, IsToFail};

use crate::calls::Calls;
use crate::{Failed, OutOfMemory, Sink};
use std::alloc::Global;

/// A sink that keeps its bytes in memory, and whose calls fail by number.
#[derive(Drop)]
pub struct MemorySink {
    bytes: Vec<u8>,
    calls: Calls,
}

impl MemorySink {
    ghost use Rattle.oz_world.specs.MemorySink.{held_by, sink_calls};

    /// An empty sink. The calls fail whose numbers, counted from 1, stand in `fails`.
    pub fn new(alloc: Global, fails: Vec<u64>) -> Result<MemorySink, OutOfMemory>
        ensures held { IfOk result (λ sink. held_by sink ≡ []) }
        ensures fails { IfOk result (λ sink. (sink_calls sink).fails ≡ fails) }
        ensures made { IfOk result (λ sink. (sink_calls sink).made ≡ 0) }
        ensures faults { IfOk result (λ sink. (sink_calls sink).faults ≡ 0) }
    {
        Ok(MemorySink {
            bytes: Vec::new(alloc),
            calls: Calls::new(fails),
        })
    }

    /// The bytes that were written so far.
    pub fn held(&self) -> &[u8]
        ensures { result.now ≡ held_by self.now }
    {
        &self.bytes
    }
}

impl Sink for MemorySink {
    ghost use Rattle.oz_world.specs.MemorySink.{held_by, sink_calls};

    ghost held = { λ sink. Some (held_by sink) };

    ghost faults = { λ sink. (sink_calls sink).faults };

    fn faults(&self) -> u64 {
        self.calls.faults
    }

    fn write(&mut self, bytes: &[u8]) -> Result<usize, Failed>
        requires { 0 < length bytes.now }
        ensures whole { IfOk result (λ n. n ≡ length bytes.now) }
        ensures appended { OnOk result (held_by self.new ≡ held_by self.old ++ bytes.now) }
        ensures failed { OnErr result (held_by self.new ≡ held_by self.old) }
        ensures refused { IsToFail (sink_calls self.old) → IsErr result }
        ensures counted { Counts (sink_calls self.old) (sink_calls self.new) (is_err result) }
        ensures cause { HasCause (sink_calls self.old).faults (sink_calls self.new).faults result }
    {
        let refused = self.calls.count();
        if refused || self.bytes.extend_from_slice(bytes).is_err() {
            return Err(self.calls.fail());
        }
        Ok(bytes.len())
    }
}
