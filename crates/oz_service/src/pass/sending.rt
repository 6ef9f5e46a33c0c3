//! The service job sends the log of deleted blocks.

ghost use Rattle.std.specs.Prelude.{◌≡◌, false, length, IfErr, Ok};
ghost use Rattle.oz_kept.specs.reopened.Left.{NumbersAreApart};
ghost use Rattle.oz_service.specs.Pass.{LooksOn};
ghost use Rattle.oz_service.specs.Sending.{NoneIsToSend, WasSendFault};

use crate::deleting::send_due;
use crate::pass::fault::PassFault;
use crate::pass::parts::Parts;
use crate::pass::service::Service;
use oz_buffer::{Ledger, Opened};
use oz_locks::Loaded;
use oz_turn::Ring;
use oz_world::Disk;
use std::sync::Wait;

impl<O: Opened, R: Ring> Service<Ledger<O>, O, R> {
    /// Sends each transaction of the log of deleted blocks that isn't retired to those members of its container that are up and
    /// haven't acknowledged it, in the order of the numbers, and has those retired that all members have acknowledged. Datanodes
    /// that have halted are taken for down then. What is logged while it runs waits for the next call. Answers whether anything was
    /// due. `count` is how many datanodes there are.
    ///
    /// Errors: the storage container manager has halted, or want of memory.
    pub(crate) fn send<D: Disk, L: Loaded, W: Wait>(
        &mut self,
        parts: &Parts<'_, D, O, L, R, W>,
        count: u8,
    ) -> Result<bool, PassFault>
        requires all { parts.now.lent.nodes.now ≡ count }
        requires opened { count ≡ length O.opening.nodes }
        requires apart { O.coherent → NumbersAreApart O.opening }
        ensures looked { LooksOn self.old self.new }
        ensures idle { O.coherent → result ≡ Ok false → NoneIsToSend O.opening self.old.seen self.new.seen }
        ensures fault { IfErr result (WasSendFault self.old.seen self.new.seen) }
    {
        self.seat.knows_own();
        let sent = send_due(&parts.lent, &mut self.seat, count);
        self.seat.knows_own();
        sent
    }
}
