//! How a line waits, and why it stops waiting.

ghost use Rattle.std.specs.Prelude.{◌≡◌, ◌≢◌};
ghost use Rattle.oz_at_work.specs.Part.{Gone, IsAtWorkIn, StaysAtWork};
ghost use Rattle.oz_at_work.specs.inner.Replied.{holds_where_said};
ghost use Rattle.oz_turn.specs.Seat.{IsReady, seen_of};

use crate::at_work::LineAtWork;
use crate::outcome::Did;
use crate::shared::Shared;
use oz_asker::{Settlement, settle_line, times_said};
use oz_buffer::{Ledger, Opened};
use oz_client::Step;
use oz_om::{Loaded, Refusal};
use oz_requests::Answer;
use oz_turn::{Ring, Seat};
use oz_world::{Disk, Gate};
use std::sync::Wait;

impl<'s> LineAtWork<'s> {
    /// Its next Ask, which has this number, wasn't decided. That its stripe has no block for it is seen to before.
    pub(crate) fn refuse<D: Disk, O: Opened, L: Loaded, R: Ring, W: Wait, G: Gate>(
        &mut self,
        shared: &Shared<'_, D, O, L, R, W, G>,
        seat: &mut Seat<Ledger<O>>,
        by: u16,
        step: u16,
        refusal: Refusal,
    ) -> Did
        requires ready { IsReady R.turn by seat.old }
        requires step { step ≢ 0 }
        requires works { IsAtWorkIn O.Opened (seen_of seat.old) self.old }
        ensures gone { Gone R.turn by seat.old seat.new }
        ensures stays { StaysAtWork O.Opened (seen_of seat.new) (result ≡ Did.WentOn) self.old self.new }
        ensures unended { result ≢ Did.Ended }
    {
        let asked = self.asked;
        match refusal {
            Refusal::OtherBlocks => self.look_again(shared, seat, by),
            Refusal::Early => self.wait(shared, seat, by, asked),
            Refusal::Later { .. } => self.wait_for_room(shared, seat, by, step),
            Refusal::Stopped { .. } => {
                self.cut(step, Answer::ManagerStopped);
                Did::WentOn
            }
            Refusal::PoolEmpty { .. } | Refusal::OutOfMemory => {
                self.cut(asked, Answer::OutOfMemory);
                Did::WentOn
            }
        }
    }

    /// Looks how often something was said of its blocks by now, and waits. Where what comes next rests on that, and it
    /// isn't as often as it knows, it is told next that there is no memory. No run comes to that: a client has one worker,
    /// which alone says something of the blocks of its lines. But the law lets any worker's seat say more.
    pub(crate) fn look_again<D: Disk, O: Opened, L: Loaded, R: Ring, W: Wait, G: Gate>(
        &mut self,
        shared: &Shared<'_, D, O, L, R, W, G>,
        seat: &mut Seat<Ledger<O>>,
        by: u16,
    ) -> Did
        requires ready { IsReady R.turn by seat.old }
        requires works { IsAtWorkIn O.Opened (seen_of seat.old) self.old }
        ensures gone { Gone R.turn by seat.old seat.new }
        ensures stays { StaysAtWork O.Opened (seen_of seat.new) (result ≡ Did.WentOn) self.old self.new }
        ensures unended { result ≢ Did.Ended }
    {
        let (client, line) = (self.line.client, self.line.number);
        let said = times_said(shared.rt, shared.turn, seat, by, client, line);
        if !self.holds_where_said(said) {
            let asked = self.asked;
            self.cut(asked, Answer::OutOfMemory);
            return Did::WentOn;
        }
        self.said = said;
        Did::Waits
    }

    /// Whether what comes next holds where so often something is said of its blocks.
    fn holds_where_said(&self, said: u64) -> bool
        ensures { result ≡ holds_where_said self.now said }
    {
        let rests = matches!(self.next, Step::Write { .. }) || self.gave_up;
        !rests || said == self.said
    }

    /// Waits until all that was decided for the line, which has asked so often, is stable. Where that never will be it
    /// is told so next.
    pub(crate) fn wait<D: Disk, O: Opened, L: Loaded, R: Ring, W: Wait, G: Gate>(
        &mut self,
        shared: &Shared<'_, D, O, L, R, W, G>,
        seat: &mut Seat<Ledger<O>>,
        by: u16,
        asked: u16,
    ) -> Did
        requires ready { IsReady R.turn by seat.old }
        requires works { IsAtWorkIn O.Opened (seen_of seat.old) self.old }
        ensures gone { Gone R.turn by seat.old seat.new }
        ensures stays { StaysAtWork O.Opened (seen_of seat.new) (result ≡ Did.WentOn) self.old self.new }
        ensures unended { result ≢ Did.Ended }
    {
        let (client, line, last) = (self.line.client, self.line.number, self.last_of(asked));
        match settle_line(shared.rt, shared.turn, seat, by, client, line, last) {
            Settlement::Unacknowledged { .. } => {
                self.cut(asked, Answer::Unacknowledged);
                Did::WentOn
            }
            Settlement::Stable | Settlement::Waits | Settlement::Stopped { .. } => Did::Waits,
        }
    }

    /// Waits until the manager's buffer has room for its Ask of this number, which stands undecided. Where the manager
    /// has halted there never will be: then it is told next that there is no memory.
    fn wait_for_room<D: Disk, O: Opened, L: Loaded, R: Ring, W: Wait, G: Gate>(
        &mut self,
        shared: &Shared<'_, D, O, L, R, W, G>,
        seat: &mut Seat<Ledger<O>>,
        by: u16,
        step: u16,
    ) -> Did
        requires ready { IsReady R.turn by seat.old }
        requires works { IsAtWorkIn O.Opened (seen_of seat.old) self.old }
        ensures gone { Gone R.turn by seat.old seat.new }
        ensures stays { StaysAtWork O.Opened (seen_of seat.new) (result ≡ Did.WentOn) self.old self.new }
        ensures unended { result ≢ Did.Ended }
    {
        // Of no Ask the settlement says whether the manager has halted by now, and not when the line asked last.
        let (client, line) = (self.line.client, self.line.number);
        match settle_line(shared.rt, shared.turn, seat, by, client, line, None) {
            Settlement::Stopped { .. } | Settlement::Unacknowledged { .. } => {
                self.cut(step, Answer::OutOfMemory);
                Did::WentOn
            }
            Settlement::Stable | Settlement::Waits => Did::Waits,
        }
    }
}
