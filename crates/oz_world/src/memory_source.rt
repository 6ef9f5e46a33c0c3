//! A source in memory.

ghost use Rattle.std.specs.Prelude.{◌≡◌, ◌≤◌, ◌<◌, ◌↔◌, Some, [], length, take, drop, min, vec_len, IfOk, IfSome};
ghost use Rattle.std.specs.Prelude.{OnErr, IsErr, is_err};
ghost use Rattle.oz_world.specs.Faults.{HasCause};
ghost use Rattle.oz_world.specs.Calls.{Counts, IsToFail};

use crate::calls::Calls;
use crate::{Failed, Source};

/// A source over bytes in memory, whose calls fail by number.
#[derive(Drop)]
pub struct MemorySource {
    bytes: Vec<u8>,
    at: usize,
    calls: Calls,
    ghost within: { at ≤ vec_len bytes },
}

impl MemorySource {
    ghost use Rattle.oz_world.specs.MemorySource.{left_of_source, source_calls};

    /// A source of these bytes. The calls fail whose numbers, counted from 1, stand in `fails`.
    pub fn new(bytes: Vec<u8>, fails: Vec<u64>) -> MemorySource
        ensures left { left_of_source result ≡ bytes.items }
        ensures fails { (source_calls result).fails ≡ fails }
        ensures made { (source_calls result).made ≡ 0 }
        ensures faults { (source_calls result).faults ≡ 0 }
    {
        MemorySource {
            bytes,
            at: 0,
            calls: Calls::new(fails),
        }
    }
}

impl Source for MemorySource {
    ghost use Rattle.oz_world.specs.MemorySource.{left_of_source, source_calls};

    ghost left = { λ source. Some (left_of_source source) };

    ghost faults = { λ source. (source_calls source).faults };

    fn faults(&self) -> u64 {
        self.calls.faults
    }

    fn read(&mut self, into: &mut [u8]) -> Result<usize, Failed>
        requires { 0 < length into.old }
        ensures most { IfOk result (λ n. n ≡ min (length into.old) (length (left_of_source self.old))) }
        ensures bytes { IfOk result (λ n. take n into.new ≡ take n (left_of_source self.old)) }
        ensures taken { IfOk result (λ n. left_of_source self.new ≡ drop n (left_of_source self.old)) }
        ensures failed { OnErr result (left_of_source self.new ≡ left_of_source self.old) }
        ensures refused { IsErr result ↔ IsToFail (source_calls self.old) }
        ensures counted { Counts (source_calls self.old) (source_calls self.new) (is_err result) }
        ensures cause { HasCause (source_calls self.old).faults (source_calls self.new).faults result }
    {
        if self.calls.count() {
            return Err(self.calls.fail());
        }
        let count = into.len().min(self.bytes.len() - self.at);
        into[..count].copy_from_slice(&self.bytes[self.at..self.at + count]);
        self.at += count;
        Ok(count)
    }
}
