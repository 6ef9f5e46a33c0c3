//! A line that is worked for, as a type.

ghost use Rattle.std.specs.Prelude.{◌≡◌, None};
ghost use Rattle.oz_at_work.specs.AtWork.{id_of, last_of, left_of};
ghost use Rattle.oz_at_work.specs.inner.Replied.{cut_with};

use crate::counted::CountedSteps;
use crate::refused::Refused;
use oz_client::Step;
use oz_line_blocks::Doubted;
use oz_requests::{Answer, AskId};
use oz_script::Line;
use oz_steps::Label;
use std::marker::Model;

/// A line that a worker works for. It knows nothing of the turn: what its worker's seat has seen makes it fit to go on.
#[derive(Drop)]
pub struct LineAtWork<'s> {
    pub(crate) line: &'s Line,
    pub(crate) steps: CountedSteps<'s>,
    /// For how many datanodes its steps are.
    pub(crate) nodes: u8,
    pub(crate) asked: u16,
    /// How often something was said of its blocks, at its last look.
    pub(crate) said: u64,
    pub(crate) next: Step,
    /// Whether what comes next is not of its steps, but comes of want of memory or of the manager's end.
    pub(crate) is_cut: bool,
    /// Whether a block that it was granted was given up.
    pub(crate) gave_up: bool,
    /// The members of the block that it reads next which have refused it, or told that it is bad, at an earlier look.
    pub(crate) doubted: Doubted,
    /// With what it is refused for now: it is told that, or tries again what comes next.
    pub(crate) refused: Option<Refused>,
    /// Whether the datanode that it commands was stopped, started or wiped for it, or had halted: it is told so next.
    pub(crate) was_done: bool,
}

impl<'s> Model for LineAtWork<'s> {
    ghost use Rattle.oz_at_work.specs.AtWork.{WorkView};

    ghost Value = { WorkView };

    ghost view = { λ w. record {
      line = w.line.now;
      state = w.steps;
      nodes = w.nodes;
      asked = w.asked;
      said = w.said;
      next = w.next;
      is_cut = w.is_cut;
      gave_up = w.gave_up;
      doubted = w.doubted;
      refused = w.refused;
      was_done = w.was_done;
    } };
}

impl<'s> LineAtWork<'s> {
    /// The line itself.
    pub fn line(&self) -> &'s Line
        ensures { result.now ≡ self.now.line }
    {
        self.line
    }

    /// What the line left in the label that it opened, once it was told. It takes no memory.
    pub fn into_label(self) -> Option<Label>
        ensures { result ≡ left_of self.entry }
    {
        let LineAtWork {
            line: _,
            steps,
            nodes: _,
            asked: _,
            said: _,
            next: _,
            is_cut,
            gave_up: _,
            doubted: _,
            refused: _,
            was_done: _,
        } = self;
        if is_cut { None } else { steps.label() }
    }

    /// The id of its Ask of this number.
    pub(crate) fn id(&self, step: u16) -> AskId
        ensures { result ≡ id_of self.now.line step }
    {
        AskId {
            client: self.line.client,
            line: self.line.number,
            step,
        }
    }

    /// What it asked last where it asked so often.
    pub(crate) fn last_of(&self, asked: u16) -> Option<AskId>
        ensures { result ≡ last_of self.now.line asked }
    {
        if asked == 0 {
            None
        } else {
            Some(self.id(asked))
        }
    }

    /// It is told this next, whatever its steps say.
    pub(crate) fn cut(&mut self, asked: u16, answer: Answer)
        ensures { self.new ≡ cut_with self.old asked answer }
    {
        self.asked = asked;
        self.next = Step::Tell(answer);
        self.is_cut = true;
        self.gave_up = false;
        self.refused = None;
        self.was_done = false;
    }
}
