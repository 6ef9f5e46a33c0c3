//! A line's steps, one after another.

ghost use Rattle.std.specs.Prelude.{◌≡◌, ◌≤◌, IfOk, IfSome, OnErr, true};
ghost use Rattle.std.specs.Option.{option_map};
ghost use Rattle.oz_nodes.specs.declared.nodes.TheConstants.{FEWEST_NODES, MOST_NODES};
ghost use Rattle.oz_client.specs.LineState.{state_after, state_before, is_fit};
ghost use Rattle.oz_client.specs.Onward.{IsNext};
ghost use Rattle.oz_client.specs.Stories.{IsLeftEverywhere, IsStepEverywhere};

use crate::advance::advance;
use crate::fitting::is_fit;
use crate::progress::{Awaited, Progress, awaited_by};
use crate::step::{Got, Step};
use oz_command::Command;
use oz_fields::{OutOfMemory, TryClone};
use oz_steps::Label;
use std::alloc::Global;
use std::marker::Model;

/// The steps of one line. It knows nothing of disks and locks, and of the story what came back to the line: who works for
/// the line does each step, and hands in what came back.
#[derive(Drop)]
pub struct LineSteps<'a> {
    command: &'a Command,
    progress: Progress,
    awaited: Awaited,
    left: Option<Label>,
}

impl<'a> Model for LineSteps<'a> {
    ghost use Rattle.oz_client.specs.LineState.{LineState};
    ghost use Rattle.oz_client.specs.inner.Ready.{IsKept};

    ghost Value = { LineState };

    ghost view = { λ s. record { command = s.command.now; progress = s.progress; awaited = s.awaited; left = s.left } };

    ghost invariant = { λ s. IsKept s.command.now s.progress s.awaited s.left };
}

impl<'a> LineSteps<'a> {
    /// A line that starts. `nodes` is the number of datanodes, and `label` what the label that it commits stands for: none
    /// where its last opening was told something else than `OK`, or where the line commits no label.
    pub fn new(
        alloc: Global,
        command: &'a Command,
        nodes: u8,
        label: Option<&Label>,
    ) -> Result<LineSteps<'a>, OutOfMemory>
        requires least { FEWEST_NODES ≤ nodes }
        requires most { nodes ≤ MOST_NODES }
        ensures { IfOk result (λ steps. steps
            ≡ state_before command.now nodes (option_map (λ label. label.now) label.entry)) }
    {
        let label = match label {
            Some(label) => Some(label_copied(alloc, label)?),
            None => None,
        };
        Ok(LineSteps {
            command,
            progress: Progress::new(alloc, nodes, label),
            awaited: Awaited::Start,
            left: None,
        })
    }

    /// Whether this may come back now. A reply is one to what was asked, or a code; a block lies on one of the pipelines, and
    /// a key has no more than 65,536 pieces.
    pub fn fits(&self, got: &Got) -> bool
        ensures { result ≡ is_fit self.now.progress.nodes self.now.awaited got.now }
    {
        is_fit(self.progress.nodes, self.awaited, got)
    }

    /// The step behind what came back. Where memory runs out it is as if nothing had come back.
    pub fn next(&mut self, alloc: Global, got: Got) -> Result<Step, OutOfMemory>
        requires { is_fit self.old.progress.nodes self.old.awaited got ≡ true }
        ensures is { IfOk result (λ step. IsNext self.old.command self.new.progress got step) }
        ensures so { IfOk result (IsStepEverywhere self.old.command self.new.progress got) }
        ensures state { IfOk result (λ step. self.new ≡ state_after self.old got step) }
        ensures err { OnErr result (self.new ≡ self.old) }
    {
        let stepped = advance(alloc, self.command, &mut self.progress, self.awaited, got)?;
        self.awaited = awaited_by(&stepped.step);
        self.left = stepped.left;
        Ok(stepped.step)
    }

    /// What the line leaves in the label that it opened: something exactly where it was told `OK` and opens one. It takes no
    /// memory.
    pub fn label(self) -> Option<Label>
        ensures is { result ≡ self.entry.left }
        ensures so { IfSome result (IsLeftEverywhere self.entry.command self.entry.progress) }
    {
        self.left
    }
}

fn label_copied(alloc: Global, label: &Label) -> Result<Label, OutOfMemory>
    ensures { IfOk result (λ copy. copy ≡ label.now) }
{
    Ok(Label {
        volume: label.volume.try_clone(alloc)?,
        bucket: label.bucket.try_clone(alloc)?,
        key: label.key.try_clone(alloc)?,
        session: label.session,
        pieces: label.pieces.try_clone(alloc)?,
    })
}
