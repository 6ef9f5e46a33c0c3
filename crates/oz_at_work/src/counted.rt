//! The steps of a line, and how many pieces it has read.

ghost use Rattle.std.specs.Prelude.{◌≡◌, ◌≤◌, length, IfOk, IfSome, OnErr, true};
ghost use Rattle.std.specs.Option.{option_map};
ghost use Rattle.oz_at_work.specs.inner.Read.{gives_piece};
ghost use Rattle.oz_client.specs.LineState.{is_fit, progress_after, state_after, state_before};
ghost use Rattle.oz_client.specs.Onward.{IsNext};
ghost use Rattle.oz_client.specs.Stories.{IsStepEverywhere};
ghost use Rattle.oz_nodes.specs.declared.nodes.TheConstants.{FEWEST_NODES, MOST_NODES};

use oz_client::{Got, LineSteps, Step};
use oz_command::Command;
use oz_fields::OutOfMemory;
use oz_steps::Label;
use std::alloc::Global;
use std::marker::Model;

/// The steps of a line, which count the pieces that it has read.
#[derive(Drop)]
pub struct CountedSteps<'s> {
    steps: LineSteps<'s>,
    read: u32,
}

impl<'s> Model for CountedSteps<'s> {
    ghost use Rattle.std.specs.Prelude.{◌≡◌, length};
    ghost use Rattle.oz_client.specs.LineState.{LineState};

    ghost Value = { LineState };

    ghost view = { λ s. s.steps };

    ghost invariant = { λ s. s.read ≡ length s.steps.progress.read };
}

impl<'s> CountedSteps<'s> {
    /// As of `LineSteps`. Nothing was read yet.
    pub(crate) fn new(
        alloc: Global,
        command: &'s Command,
        nodes: u8,
        label: Option<&Label>,
    ) -> Result<CountedSteps<'s>, OutOfMemory>
        requires least { FEWEST_NODES ≤ nodes }
        requires most { nodes ≤ MOST_NODES }
        ensures { IfOk result (λ steps. steps
            ≡ state_before command.now nodes (option_map (λ label. label.now) label.entry)) }
    {
        let steps = LineSteps::new(alloc, command, nodes, label)?;
        Ok(CountedSteps { steps, read: 0 })
    }

    /// As of `LineSteps`.
    pub(crate) fn fits(&self, got: &Got) -> bool
        ensures { result ≡ is_fit self.now.progress.nodes self.now.awaited got.now }
    {
        self.steps.fits(got)
    }

    /// As of `LineSteps`. More than 4,294,967,295 pieces are as no memory: a key has no more than 65,536.
    pub(crate) fn next(&mut self, alloc: Global, got: Got) -> Result<Step, OutOfMemory>
        requires { is_fit self.old.progress.nodes self.old.awaited got ≡ true }
        ensures is { IfOk result (λ step. IsNext self.old.command self.new.progress got step) }
        ensures so { IfOk result (IsStepEverywhere self.old.command self.new.progress got) }
        ensures state { IfOk result (λ step. self.new ≡ state_after self.old got step) }
        ensures err { OnErr result (self.new ≡ self.old) }
    {
        let Some(read) = self.read_after(&got) else {
            return Err(OutOfMemory);
        };
        let step = self.steps.next(alloc, got)?;
        self.read = read;
        Ok(step)
    }

    /// How many pieces it has read once this came back, as a number of 32 bits.
    fn read_after(&self, got: &Got) -> Option<u32>
        ensures { IfSome result (λ read. read ≡ length (progress_after self.now.progress got.now).read) }
    {
        if gives_piece(got) {
            self.read.checked_add(1)
        } else {
            Some(self.read)
        }
    }

    /// How many pieces it has read.
    pub(crate) fn pieces_read(&self) -> u32
        ensures { result ≡ length self.now.progress.read }
    {
        self.read
    }

    /// As of `LineSteps`.
    pub(crate) fn label(self) -> Option<Label>
        ensures { result ≡ self.entry.left }
    {
        let CountedSteps { steps, read: _ } = self;
        steps.label()
    }
}

/// Whether what came back is a piece.
fn gives_piece(got: &Got) -> bool
    ensures { result ≡ gives_piece got.now }
{
    matches!(got, Got::Read(Some(_)))
}
