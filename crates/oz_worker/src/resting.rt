//! Whom a worker needn't look at. It is guessed by what the turn says without being taken, and nothing is claimed of it: a
//! client that is looked at is served as the story says, and each is looked at every now and then.

use crate::client::Client;
use oz_at_work::Did;
use oz_command::Command;

/// A flush tells that something is taken, and that it is stable or the manager halts.
const EVENTS_OF_A_FLUSH: u64 = 2;

/// How much a worker guesses in a pass over its clients.
#[derive(Clone, Copy, PartialEq, Eq)]
pub(crate) enum Care {
    /// Who is likely to wait for a flush isn't looked at.
    Quick,
    /// Each is looked at for whom anything may have come since the last look.
    Thorough,
    /// Each is looked at.
    Whole,
}

/// How a client stood when its worker looked last.
#[derive(Clone, Copy)]
pub(crate) struct Rest {
    /// The length of the story before the last look, where that found nothing to do: as long as the story has it nothing
    /// has come.
    waited_at: Option<u64>,
    /// The length of the story behind what the client did last.
    went_on_at: u64,
    /// Whether it did anything since its line began.
    has_gone_on: bool,
}

/// What a worker knows in one pass over its clients.
#[derive(Drop)]
pub(crate) struct Sight {
    care: Care,
    /// The length of the story behind what a client did last that waits for a flush: the shortest of these. What was
    /// decided later is flushed later.
    waits_from: Option<u64>,
}

impl Rest {
    pub(crate) fn new() -> Rest {
        Rest {
            waited_at: None,
            went_on_at: 0,
            has_gone_on: false,
        }
    }

    /// How the client stands behind a look, before which the story had `before` events, and now has `after`. `had_begun` is
    /// whether its line had begun before.
    pub(crate) fn behind(self, did: Did, had_begun: bool, before: u64, after: u64) -> Rest {
        match did {
            Did::WentOn | Did::Ended => Rest {
                waited_at: None,
                went_on_at: after,
                has_gone_on: had_begun && did == Did::WentOn,
            },
            Did::Waits => Rest {
                waited_at: Some(before),
                went_on_at: self.went_on_at,
                has_gone_on: self.has_gone_on,
            },
            Did::OutOfMemory => self,
        }
    }
}

impl Sight {
    pub(crate) fn new(care: Care) -> Sight {
        Sight {
            care,
            waits_from: None,
        }
    }

    /// A client waits that did its last thing at this length.
    fn note(&mut self, went_on_at: u64) {
        self.waits_from = match self.waits_from {
            Some(from) => Some(from.min(went_on_at)),
            None => Some(went_on_at),
        };
    }

    /// Whether what was decided before this length is likely not to be flushed where the story has so many events: fewer
    /// have come since than a flush tells, or somebody waits of whom something was decided before.
    fn is_behind(&self, went_on_at: u64, length: u64) -> bool {
        let waits = match self.waits_from {
            Some(from) => from <= went_on_at,
            None => false,
        };
        waits || length < went_on_at.saturating_add(EVENTS_OF_A_FLUSH)
    }
}

impl<'s> Client<'s> {
    /// Whether it needn't be looked at in this pass, where the story has so many events.
    pub(crate) fn rests(&self, length: u64, sight: &Sight) -> bool {
        match sight.care {
            Care::Whole => false,
            Care::Thorough => self.rest.waited_at == Some(length),
            Care::Quick => {
                self.rest.waited_at == Some(length)
                    || self.waits_for_a_flush() && sight.is_behind(self.rest.went_on_at, length)
            }
        }
    }

    /// It was found to wait, or wasn't looked at.
    pub(crate) fn note_in(&self, sight: &mut Sight) {
        if self.waits_for_a_flush() {
            sight.note(self.rest.went_on_at);
        }
    }

    /// Whether it is likely to wait for a flush: its line was found to wait, or it is one that has only asked.
    fn waits_for_a_flush(&self) -> bool {
        match &self.work {
            Some(work) => {
                self.rest.waited_at.is_some()
                    || self.rest.has_gone_on && changes_by_asking(&work.line().command)
            }
            None => false,
        }
    }
}

/// Whether a line with this command changes something, and neither writes nor reads blocks.
fn changes_by_asking(command: &Command) -> bool {
    matches!(
        command,
        Command::VolumeCreate { .. }
            | Command::VolumeDelete { .. }
            | Command::BucketCreate { .. }
            | Command::BucketDelete { .. }
            | Command::KeyCommit { .. }
            | Command::KeyDelete { .. }
            | Command::KeyRename { .. }
    )
}
