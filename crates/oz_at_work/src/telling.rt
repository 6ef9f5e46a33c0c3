//! How a line is told its answer.

ghost use Rattle.std.specs.Prelude.{◌≡◌, ◌≢◌, None, Some};
ghost use Rattle.oz_at_work.specs.AtWork.{IsToldNext, IsTelling};
ghost use Rattle.oz_at_work.specs.Part.{Gone, HasEnded, IsAtWorkIn, IsLinePart, StaysAtWork};
ghost use Rattle.oz_turn.specs.Seat.{IsReady, seen_of};

use crate::at_work::LineAtWork;
use crate::outcome::Did;
use crate::refused::Refused;
use crate::shared::Shared;
use oz_asker::{Untold, tell};
use oz_buffer::{Ledger, Opened};
use oz_client::Step;
use oz_om::Loaded;
use oz_requests::Answer;
use oz_turn::{Ring, Seat};
use oz_world::{Disk, Gate};
use std::mem;
use std::sync::Wait;

impl<'s> LineAtWork<'s> {
    /// The line is told its answer, if that may be.
    pub(crate) fn tell<D: Disk, O: Opened, L: Loaded, R: Ring, W: Wait, G: Gate>(
        &mut self,
        shared: &Shared<'_, D, O, L, R, W, G>,
        seat: &mut Seat<Ledger<O>>,
        by: u16,
    ) -> Did
        requires part { IsLinePart R.turn by seat.old }
        requires works { IsAtWorkIn O.Opened (seen_of seat.old) self.old }
        requires tells { IsTelling self.old.next }
        ensures gone { Gone R.turn by seat.old seat.new }
        ensures stays { StaysAtWork O.Opened (seen_of seat.new) (result ≡ Did.WentOn) self.old self.new }
        ensures ended { result ≡ Did.Ended → HasEnded O.Opened (seen_of seat.new) self.new }
    {
        let next = mem::replace(&mut self.next, Step::Tell(Answer::OutOfMemory));
        let Step::Tell(answer) = next else {
            unreachable!()
        };
        let asked = self.asked;
        let (client, line, last) = (self.line.client, self.line.number, self.last_of(asked));
        match tell(
            shared.rt,
            shared.alloc,
            shared.turn,
            seat,
            by,
            client,
            line,
            last,
            self.said,
            &[],
            answer,
        ) {
            Ok(()) => Did::Ended,
            Err((answer, cause)) => {
                self.next = Step::Tell(answer);
                self.put_off(shared, seat, by, asked, cause)
            }
        }
    }

    /// Where it is refused the line is told so, if that may be. There is nothing to tell where it isn't refused, nor where
    /// something hasn't stayed as it had to: then it isn't refused any more.
    pub(crate) fn tell_refused<D: Disk, O: Opened, L: Loaded, R: Ring, W: Wait, G: Gate>(
        &mut self,
        shared: &Shared<'_, D, O, L, R, W, G>,
        seat: &mut Seat<Ledger<O>>,
        by: u16,
    ) -> Option<Did>
        requires part { IsLinePart R.turn by seat.old }
        requires works { IsAtWorkIn O.Opened (seen_of seat.old) self.old }
        ensures gone { Gone R.turn by seat.old seat.new }
        ensures stays { StaysAtWork O.Opened (seen_of seat.new) (result ≡ Some Did.WentOn) self.old self.new }
        ensures tries { result ≡ None → self.new ≡ record self.old { refused = None } }
        ensures ended { result ≡ Some Did.Ended → HasEnded O.Opened (seen_of seat.new) self.new }
    {
        let Refused {
            answer,
            asked,
            still,
        } = self.refused.take()?;
        let (client, line, last) = (self.line.client, self.line.number, self.last_of(asked));
        match tell(
            shared.rt,
            shared.alloc,
            shared.turn,
            seat,
            by,
            client,
            line,
            last,
            self.said,
            still.as_slice(),
            answer,
        ) {
            Ok(()) => {
                self.cut(asked, Answer::OutOfMemory);
                Some(Did::Ended)
            }
            Err((_answer, Untold::Moved)) => None,
            Err((answer, cause)) => {
                self.refused = Some(Refused {
                    answer,
                    asked,
                    still,
                });
                Some(self.put_off(shared, seat, by, asked, cause))
            }
        }
    }

    /// What keeps the line from being told, that has asked so often: what isn't stable is waited for, what is said of its
    /// blocks is looked at, a datanode that has halted and is up is taken down, and where it asked once more than is known, as it
    /// may where memory ran out, it is told that there is none.
    pub(crate) fn put_off<D: Disk, O: Opened, L: Loaded, R: Ring, W: Wait, G: Gate>(
        &mut self,
        shared: &Shared<'_, D, O, L, R, W, G>,
        seat: &mut Seat<Ledger<O>>,
        by: u16,
        asked: u16,
        cause: Untold,
    ) -> Did
        requires ready { IsReady R.turn by seat.old }
        requires works { IsAtWorkIn O.Opened (seen_of seat.old) self.old }
        requires tells { IsToldNext self.old }
        ensures gone { Gone R.turn by seat.old seat.new }
        ensures stays { StaysAtWork O.Opened (seen_of seat.new) (result ≡ Did.WentOn) self.old self.new }
        ensures unended { result ≢ Did.Ended }
    {
        match (cause, asked.checked_add(1)) {
            (Untold::Unstable, _) => self.wait(shared, seat, by, asked),
            (Untold::OtherAsk, Some(more)) => {
                self.cut(more, Answer::OutOfMemory);
                Did::WentOn
            }
            (Untold::OtherBlocks, _) => self.look_again(shared, seat, by),
            (Untold::LeftUp { .. }, _) => {
                self.take_down(shared, seat, by, asked);
                Did::WentOn
            }
            (Untold::OutOfMemory, _) => Did::OutOfMemory,
            (Untold::Told | Untold::Moved | Untold::NotDue | Untold::OtherAsk, _) => Did::Waits,
        }
    }
}
