//! A body that is made ready for a journal.

ghost use Rattle.std.specs.Prelude.{◌≡◌, ◌+◌, ◌++◌, [], length, IfOk, OnOk, OnErr};
ghost use Rattle.oz_journal.specs.Journal.{body_of};

use oz_fields::OutOfMemory;
use std::alloc::Global;
use std::marker::Model;

/// A body that is being put together, with room before it for its length. In contracts it is the bytes
/// that it has so far.
#[derive(Drop)]
pub struct Frame {
    bytes: Vec<u8>,
}

impl Model for Frame {
    ghost use Rattle.std.specs.Prelude.{◌≤◌, List, ℕ, drop, vec_len};

    ghost Value = { List ℕ };

    ghost view = { λ frame. drop 4 frame.bytes.items };

    ghost invariant = { λ frame. 4 ≤ vec_len frame.bytes };
}

impl Frame {
    /// An empty body.
    pub fn new(alloc: Global) -> Result<Frame, OutOfMemory>
        ensures { IfOk result (λ frame. frame ≡ []) }
    {
        let bytes = Vec::from_slice(alloc, &[0; 4])?;
        Ok(Frame { bytes })
    }

    /// Adds bytes at the body's end. Without memory the body stays as it was.
    pub fn put(&mut self, bytes: &[u8]) -> Result<(), OutOfMemory>
        ensures ok { OnOk result (self.new ≡ self.old ++ bytes.now) }
        ensures err { OnErr result (self.new ≡ self.old) }
    {
        self.bytes.extend_from_slice(bytes)
    }

    /// The body as `append` takes it: with four bytes before it and one behind, which the journal fills.
    pub fn framed(self) -> Result<Vec<u8>, OutOfMemory>
        ensures body { IfOk result (λ framed. body_of framed.items ≡ self) }
        ensures size { IfOk result (λ framed. length framed.items ≡ length self + 5) }
    {
        let mut bytes = self.bytes;
        bytes.push(0)?;
        Ok(bytes)
    }
}
