//! How a line's steps go on with what came back.

ghost use Rattle.std.specs.Prelude.{◌≡◌, IfErr, OnOk};
ghost use Rattle.oz_at_work.specs.inner.Taken.{HasStepped, IsTakenUp, IsUntaken, come_to};

use crate::at_work::LineAtWork;
use oz_client::{Got, Step};
use oz_line_blocks::Doubted;
use oz_requests::Answer;
use std::alloc::Global;

/// Why a line's steps don't go on with what came back.
#[derive(Clone, Copy, Debug, PartialEq, Eq)]
pub(crate) enum Untaken {
    /// It isn't what the last step waits for.
    NoFit,
    OutOfMemory,
}

impl<'s> LineAtWork<'s> {
    /// Its steps go on with what came back, once it has asked so often, so often something was said of its blocks, and
    /// one was given up or not. Where they can't it is told next that there is no memory.
    pub(crate) fn take_up(
        &mut self,
        alloc: Global,
        got: Got,
        asked: u16,
        said: u64,
        gave_up: bool,
    ) -> Result<(), Untaken>
        ensures taken { IsTakenUp self.old got asked said gave_up self.new }
        ensures stepped { OnOk result (HasStepped self.old got asked said gave_up self.new) }
        ensures untaken { IfErr result (IsUntaken self.old got) }
    {
        if !self.steps.fits(&got) {
            self.cut(asked, Answer::OutOfMemory);
            return Err(Untaken::NoFit);
        }
        match self.steps.next(alloc, got) {
            Ok(next) => {
                self.come_to(asked, said, gave_up, next);
                Ok(())
            }
            Err(_error) => {
                self.cut(asked, Answer::OutOfMemory);
                Err(Untaken::OutOfMemory)
            }
        }
    }

    /// This comes next by its steps.
    fn come_to(&mut self, asked: u16, said: u64, gave_up: bool, next: Step)
        ensures { self.new ≡ come_to self.old asked said gave_up next }
    {
        self.asked = asked;
        self.said = said;
        self.next = next;
        self.is_cut = false;
        self.gave_up = gave_up;
        self.doubted = Doubted::none();
        self.refused = None;
        self.was_done = false;
    }
}
