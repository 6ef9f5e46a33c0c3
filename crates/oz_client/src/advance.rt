//! What comes back is noted, and the line goes on. Where memory runs out nothing is noted.

ghost use Rattle.std.specs.Prelude.{◌≡◌, ◌++◌, ◌∷◌, [], IfOk, OnErr, None, Some, true};
ghost use Rattle.oz_client.specs.LineState.{is_fit, is_reply_fit};
ghost use Rattle.oz_client.specs.inner.Ready.{GoesOn, GoesOnBehind, IsReady, IsStepped, Waits, code_in, stepped_by};
ghost use Rattle.oz_steps.specs.Came.{with_answers, with_reply};

use crate::left::left_by;
use crate::onward::onward;
use crate::progress::{Awaited, Progress};
use crate::reading::piece_left;
use crate::step::{Got, Step, Written};
use oz_command::Command;
use oz_fields::{List, OutOfMemory};
use oz_names::Code;
use oz_requests::{Answer, Reply};
use oz_steps::{Came, Granted, Label, note_answers, note_reply};
use std::alloc::Global;

/// A step, and what the line that does it leaves in the label that it opened.
#[derive(Drop)]
pub struct Stepped {
    pub step: Step,
    pub left: Option<Label>,
}

/// Notes what came back, and goes on.
pub(crate) fn advance(
    alloc: Global,
    command: &Command,
    progress: &mut Progress,
    awaited: Awaited,
    got: Got,
) -> Result<Stepped, OutOfMemory>
    requires waits { Waits command.now progress.old awaited }
    requires fits { is_fit progress.old.nodes awaited got ≡ true }
    ensures ok { IfOk result (λ stepped. IsStepped command.now progress.old got progress.new stepped) }
    ensures err { OnErr result (progress.new ≡ progress.old) }
{
    match got {
        Got::Start => go_on(alloc, command, progress),
        Got::Reply(reply) => replied(alloc, command, progress, awaited, reply),
        Got::Written(written) => was_written(alloc, command, progress, written),
        Got::Read(Some(bytes)) => was_read(alloc, command, progress, bytes),
        Got::Read(None) => was_unread(alloc, command, progress),
        Got::Answered(answer) => does(alloc, command, progress, Step::Tell(answer)),
    }
}

/// The step, with what it leaves.
fn does(
    alloc: Global,
    command: &Command,
    progress: &Progress,
    step: Step,
) -> Result<Stepped, OutOfMemory>
    ensures { IfOk result (λ stepped. stepped ≡ stepped_by command.now progress.now step) }
{
    let left = left_by(alloc, command, &progress.came, &step)?;
    Ok(Stepped { step, left })
}

fn go_on(alloc: Global, command: &Command, progress: &Progress) -> Result<Stepped, OutOfMemory>
    requires { IsReady command.now progress.now }
    ensures { IfOk result (GoesOn command.now progress.now) }
{
    let step = onward(alloc, command, progress)?;
    does(alloc, command, progress, step)
}

// ---- a reply

fn replied(
    alloc: Global,
    command: &Command,
    progress: &mut Progress,
    awaited: Awaited,
    reply: Reply,
) -> Result<Stepped, OutOfMemory>
    requires waits { Waits command.now progress.old awaited }
    requires fits { is_reply_fit progress.old.nodes awaited reply ≡ true }
    ensures ok { IfOk result (λ stepped. IsStepped command.now progress.old (Got.Reply reply) progress.new stepped) }
    ensures err { OnErr result (progress.new ≡ progress.old) }
{
    let _awaited = awaited;
    let code = code_in(&reply);
    note_reply(&mut progress.came, alloc, reply)?;
    match after_reply(alloc, command, progress, code) {
        Ok(stepped) => Ok(stepped),
        Err(error) => {
            forget_reply(&mut progress.came);
            Err(error)
        }
    }
}

fn code_in(reply: &Reply) -> Option<Code>
    ensures { result ≡ code_in reply.now }
{
    match reply {
        Reply::Code(code) => Some(*code),
        _ => None,
    }
}

/// A code is told at once.
fn after_reply(
    alloc: Global,
    command: &Command,
    progress: &Progress,
    code: Option<Code>,
) -> Result<Stepped, OutOfMemory>
    requires { code ≡ None → IsReady command.now progress.now }
    ensures { IfOk result (GoesOnBehind command.now progress.now code) }
{
    match code {
        Some(code) => does(alloc, command, progress, Step::Tell(Answer::Code(code))),
        None => go_on(alloc, command, progress),
    }
}

/// Takes back what a reply left.
fn forget_reply(came: &mut Came)
    ensures { (before : _) (reply : _) → before.writing ≡ None → came.old ≡ with_reply before reply
        → came.new ≡ before }
{
    let _reply = came.replies.pop();
    came.writing = None;
}

// ---- a block

fn was_written(
    alloc: Global,
    command: &Command,
    progress: &mut Progress,
    written: Written,
) -> Result<Stepped, OutOfMemory>
    requires { Waits command.now progress.old Awaited.Written }
    ensures ok { IfOk result (λ stepped. IsStepped command.now progress.old (Got.Written written) progress.new stepped) }
    ensures err { OnErr result (progress.new ≡ progress.old) }
{
    let Some(granted) = progress.came.writing else {
        unreachable!()
    };
    note_answers(&mut progress.came, alloc, granted, written.answers)?;
    match go_on(alloc, command, progress) {
        Ok(stepped) => Ok(stepped),
        Err(error) => {
            forget_answers(&mut progress.came, granted);
            Err(error)
        }
    }
}

/// Takes back what the answers of a block's members left.
fn forget_answers(came: &mut Came, granted: Granted)
    ensures { (before : _) (answers : _) → before.writing ≡ Some granted
        → came.old ≡ with_answers before granted answers → came.new ≡ before }
{
    let _attempt = came.attempts.pop();
    came.writing = Some(granted);
}

// ---- a piece

fn was_read(
    alloc: Global,
    command: &Command,
    progress: &mut Progress,
    bytes: Vec<u8>,
) -> Result<Stepped, OutOfMemory>
    requires { Waits command.now progress.old Awaited.Read }
    ensures ok { IfOk result (λ stepped.
        IsStepped command.now progress.old (Got.Read (Some bytes)) progress.new stepped) }
    ensures err { OnErr result (progress.new ≡ progress.old) }
{
    note_read(alloc, &mut progress.read, List::of(bytes))?;
    match go_on(alloc, command, progress) {
        Ok(stepped) => Ok(stepped),
        Err(error) => {
            forget_read(&mut progress.read);
            Err(error)
        }
    }
}

fn note_read(alloc: Global, read: &mut List<List<u8>>, bytes: List<u8>) -> Result<(), OutOfMemory>
    ensures ok { IfOk result (λ _. read.new ≡ read.old ++ bytes ∷ []) }
    ensures err { OnErr result (read.new ≡ read.old) }
{
    match read.push(alloc, bytes) {
        Ok(()) => Ok(()),
        Err((_, error)) => Err(error),
    }
}

/// Takes back the last piece.
fn forget_read(read: &mut List<List<u8>>)
    ensures { (before : _) (bytes : _) → read.old ≡ before ++ bytes ∷ [] → read.new ≡ before }
{
    let _bytes = read.pop();
}

/// No replica gave the next piece.
fn was_unread(alloc: Global, command: &Command, progress: &Progress) -> Result<Stepped, OutOfMemory>
    requires { Waits command.now progress.now Awaited.Read }
    ensures { IfOk result (λ stepped. IsStepped command.now progress.now (Got.Read None) progress.now stepped) }
{
    let Some(piece) = piece_left(progress) else {
        unreachable!()
    };
    let answer = Answer::NoReplica {
        piece: progress.read.len() as u16,
        block: piece.block,
    };
    does(alloc, command, progress, Step::Tell(answer))
}
