//! What a line does next, given that nothing was refused.

ghost use Rattle.std.specs.Prelude.{◌≡◌, IfOk, Some, true};
ghost use Rattle.oz_client.specs.Onward.{IsIdle, IsOnward};
ghost use Rattle.oz_client.specs.inner.Ready.{IsReady, is_commit, is_get, is_plain, is_writing};

use crate::progress::Progress;
use crate::reading::{joined, piece_left};
use crate::step::Step;
use crate::values::last_values;
use oz_command::{Command, PIECE_BYTES};
use oz_fields::OutOfMemory;
use oz_nodes::Nodes;
use oz_requests::{Answer, Values};
use oz_steps::{Granted, data_length, next_request, written_blocks};
use std::alloc::Global;

/// A block that was granted is written. Else the line asks what it is to ask; where it asks nothing more it reads, or does
/// what an admin wants, or is told.
pub(crate) fn onward(
    alloc: Global,
    command: &Command,
    progress: &Progress,
) -> Result<Step, OutOfMemory>
    requires { IsReady command.now progress.now }
    ensures { IfOk result (λ step. IsOnward command.now progress.now step) }
{
    if let Some(granted) = progress.came.writing {
        return write_step(alloc, command, progress, granted);
    }
    match next_request(alloc, command, &progress.label, &progress.came)? {
        Some(request) => Ok(Step::Ask(request)),
        None => over(alloc, command, progress),
    }
}

fn write_step(
    alloc: Global,
    command: &Command,
    progress: &Progress,
    granted: Granted,
) -> Result<Step, OutOfMemory>
    requires ready { IsReady command.now progress.now }
    requires its { progress.now.came.writing ≡ Some granted }
    ensures { IfOk result (λ step. IsOnward command.now progress.now step) }
{
    let bytes = data_length(command);
    let written = written_blocks(alloc, progress.came.attempts.items())?;
    let first = u64::from(PIECE_BYTES) * written.len() as u64;
    let length = (bytes - first).min(u64::from(PIECE_BYTES)) as u32;
    let members = Nodes::new(progress.nodes).members(granted.pipeline);
    Ok(Step::Write {
        block: granted.block,
        members,
        first,
        length,
    })
}

/// What a line does that asks nothing more.
fn over(alloc: Global, command: &Command, progress: &Progress) -> Result<Step, OutOfMemory>
    requires ready { IsReady command.now progress.now }
    requires idle { IsIdle command.now progress.now }
    ensures { IfOk result (λ step. IsOnward command.now progress.now step) }
{
    match command {
        Command::Admin(admin) => Ok(Step::Admin(*admin)),
        Command::KeyPut { .. } | Command::KeyOpen { .. } => Ok(put_told(command, progress)),
        Command::KeyGet { .. } => read_step(alloc, command, progress),
        Command::KeyCommit { .. } => commit_told(alloc, command, progress),
        _ => single_told(alloc, command, progress),
    }
}

fn put_told(command: &Command, progress: &Progress) -> Step
    requires ready { IsReady command.now progress.now }
    requires idle { IsIdle command.now progress.now }
    requires writes { is_writing command.now ≡ true }
    ensures { IsOnward command.now progress.now result }
{
    let _progress = progress;
    Step::Tell(Answer::Ok(Values::Length(data_length(command))))
}

fn read_step(alloc: Global, command: &Command, progress: &Progress) -> Result<Step, OutOfMemory>
    requires ready { IsReady command.now progress.now }
    requires idle { IsIdle command.now progress.now }
    requires reads { is_get command.now ≡ true }
    ensures { IfOk result (λ step. IsOnward command.now progress.now step) }
{
    let _reads = command;
    match piece_left(progress) {
        Some(piece) => Ok(Step::Read { piece }),
        None => {
            let bytes = joined(alloc, progress.read.items())?;
            Ok(Step::Tell(Answer::Ok(Values::Bytes(bytes))))
        }
    }
}

fn commit_told(alloc: Global, command: &Command, progress: &Progress) -> Result<Step, OutOfMemory>
    requires ready { IsReady command.now progress.now }
    requires idle { IsIdle command.now progress.now }
    requires commits { is_commit command.now ≡ true }
    ensures { IfOk result (λ step. IsOnward command.now progress.now step) }
{
    match &progress.label {
        Some(_) => {
            let values = last_values(alloc, command, &progress.came)?;
            Ok(Step::Tell(Answer::Ok(values)))
        }
        None => Ok(Step::Tell(Answer::NotOpen)),
    }
}

fn single_told(alloc: Global, command: &Command, progress: &Progress) -> Result<Step, OutOfMemory>
    requires ready { IsReady command.now progress.now }
    requires idle { IsIdle command.now progress.now }
    requires single { is_plain command.now ≡ true }
    ensures { IfOk result (λ step. IsOnward command.now progress.now step) }
{
    let values = last_values(alloc, command, &progress.came)?;
    Ok(Step::Tell(Answer::Ok(values)))
}
