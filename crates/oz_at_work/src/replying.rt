//! How a line goes on with what was replied to it.

ghost use Rattle.std.specs.Prelude.{◌≡◌, ◌+◌, ◌||◌, [], true, IsTrue, is_some};
ghost use Rattle.oz_at_work.specs.AtWork.{HasGoneOn};
ghost use Rattle.oz_at_work.specs.Part.{Gone, IsAtWorkIn};
ghost use Rattle.oz_at_work.specs.inner.Replied.{IsAsking, WasReplied};
ghost use Rattle.oz_buffer.specs.Buffer.{AllFollow, Follows};
ghost use Rattle.oz_buffer.specs.Became.{times_said};
ghost use Rattle.oz_steps.specs.Came.{granted_by};
ghost use Rattle.oz_turn.specs.Seat.{IsReady, seen_of};

use crate::at_work::LineAtWork;
use crate::shared::Shared;
use oz_asker::times_said;
use oz_buffer::{Ledger, Opened};
use oz_client::Got;
use oz_om::Loaded;
use oz_requests::{Answer, Reply};
use oz_turn::{Ring, Seat};
use oz_world::{Disk, Gate};
use std::sync::Wait;

impl<'s> LineAtWork<'s> {
    /// Goes on with what was replied to its next Ask, which has this number. Where a block is granted, or was given up
    /// before, and more is said of its blocks than it knows, it is told next that there is no memory (`look_again` says why
    /// no run comes to that).
    pub(crate) fn reply<D: Disk, O: Opened, L: Loaded, R: Ring, W: Wait, G: Gate>(
        &mut self,
        shared: &Shared<'_, D, O, L, R, W, G>,
        seat: &mut Seat<Ledger<O>>,
        by: u16,
        step: u16,
        reply: Reply,
    )
        requires ready { IsReady R.turn by seat.old }
        requires step { step ≡ self.old.asked + 1 }
        requires asks { IsAsking self.old.next }
        requires replied { O.coherent →
            WasReplied O.coherent O.opening O.bytes O.script (seen_of seat.old) self.old reply }
        ensures gone { Gone R.turn by seat.old seat.new }
        ensures line { self.new.line ≡ self.old.line }
        ensures works { IsAtWorkIn O.Opened (seen_of seat.new) self.new }
        ensures went_on { HasGoneOn self.old self.new }
    {
        let looks = self.looks(&reply);
        if !self.is_as_known(shared, seat, by, looks) {
            self.cut(step, Answer::OutOfMemory);
            return;
        }
        let (said, gave_up) = (self.said, self.gave_up);
        let _taken = self.take_up(shared.alloc, Got::Reply(reply), step, said, gave_up);
    }

    /// Whether so much is said of its blocks as it knows, if it looks.
    fn is_as_known<D: Disk, O: Opened, L: Loaded, R: Ring, W: Wait, G: Gate>(
        &self,
        shared: &Shared<'_, D, O, L, R, W, G>,
        seat: &mut Seat<Ledger<O>>,
        by: u16,
        looks: bool,
    ) -> bool
        requires { IsReady R.turn by seat.old }
        ensures gone { Gone R.turn by seat.old seat.new }
        ensures follow { AllFollow (Follows O.coherent O.opening O.bytes O.script) [] (seen_of seat.old) →
            AllFollow (Follows O.coherent O.opening O.bytes O.script) [] (seen_of seat.new) }
        ensures said { IsTrue result → looks ≡ true →
            times_said self.now.line.client self.now.line.number (seen_of seat.new) ≡ self.now.said }
    {
        if !looks {
            return true;
        }
        let (client, line) = (self.line.client, self.line.number);
        times_said(shared.rt, shared.turn, seat, by, client, line) == self.said
    }

    /// Whether it looks how much is said of its blocks, with this reply: where it grants a block, or one was given up.
    fn looks(&self, reply: &Reply) -> bool
        ensures { result ≡ (self.now.gave_up || is_some (granted_by reply.now)) }
    {
        self.gave_up || matches!(reply, Reply::Granted(..))
    }
}
