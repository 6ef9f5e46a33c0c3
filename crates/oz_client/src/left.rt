//! What a line leaves in the label that it opened.

ghost use Rattle.std.specs.Prelude.{◌≡◌, IfOk};
ghost use Rattle.oz_core.specs.Steps.{session_in, target};
ghost use Rattle.oz_client.specs.LineState.{label_in, label_of, left_by};

use crate::step::Step;
use oz_command::Command;
use oz_fields::{Name, OutOfMemory, TryClone};
use oz_requests::Answer;
use oz_steps::{Came, Label, pieces_of, session_in, written_blocks};
use std::alloc::Global;

/// What the line leaves that does this, nothing unless it is told `OK`.
pub(crate) fn left_by(
    alloc: Global,
    command: &Command,
    came: &Came,
    step: &Step,
) -> Result<Option<Label>, OutOfMemory>
    ensures { IfOk result (λ label. label ≡ left_by command.now came.now step.now) }
{
    match step {
        Step::Tell(Answer::Ok(_)) => label_of(alloc, command, came),
        _ => Ok(None),
    }
}

fn label_of(alloc: Global, command: &Command, came: &Came) -> Result<Option<Label>, OutOfMemory>
    ensures { IfOk result (λ label. label ≡ label_of command.now came.now) }
{
    match command {
        Command::KeyOpen {
            volume,
            bucket,
            key,
            ..
        } => label_in(alloc, command, volume, bucket, key, came),
        _ => Ok(None),
    }
}

fn label_in(
    alloc: Global,
    command: &Command,
    volume: &Name,
    bucket: &Name,
    key: &Name,
    came: &Came,
) -> Result<Option<Label>, OutOfMemory>
    ensures { IfOk result (λ label. label
        ≡ label_in command.now (target volume.now bucket.now key.now) came.now (session_in came.now.replies)) }
{
    let Some(session) = session_in(came.replies.items()) else {
        return Ok(None);
    };
    let written = written_blocks(alloc, came.attempts.items())?;
    let pieces = pieces_of(alloc, command, written.as_slice())?;
    Ok(Some(Label {
        volume: volume.try_clone(alloc)?,
        bucket: bucket.try_clone(alloc)?,
        key: key.try_clone(alloc)?,
        session,
        pieces,
    }))
}
