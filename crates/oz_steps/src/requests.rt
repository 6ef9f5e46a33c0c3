//! What a line asks the manager next.

ghost use Rattle.std.specs.Prelude.{◌≡◌, ◌<◌, IfOk, Some, true};
ghost use Rattle.std.specs.List.{list_any};
ghost use Rattle.oz_core.specs.Steps.{is_code, is_done, next_step, opened_session, session_in, target};
ghost use Rattle.oz_steps.specs.Lines.{ShowsThat, commit_of_label};
ghost use Rattle.oz_steps.specs.Requests.{block_by, command_by, commit_by, once_by, put_by, request_by, write_by};
ghost use Rattle.oz_steps.specs.Single.{asks_once, single_of};

use crate::came::Came;
use crate::exclude::exclude_of;
use crate::label::Label;
use crate::pieces::{pieces_needed, pieces_of};
use crate::single::request_of;
use crate::written::written_blocks;
use oz_command::Command;
use oz_fields::{List, Name, OutOfMemory, Piece, TryClone};
use oz_requests::{Exclude, Reply, Request};
use std::alloc::Global;

pub(crate) fn is_code(reply: &Reply) -> bool
    ensures { result ≡ is_code reply.now }
{
    match reply {
        Reply::Code(_) => true,
        _ => false,
    }
}

fn is_done(reply: &Reply) -> bool
    ensures { result ≡ is_done reply.now }
{
    match reply {
        Reply::Done => true,
        _ => false,
    }
}

fn is_refused(replies: &List<Reply>) -> bool
    ensures { result ≡ list_any is_code replies.now }
{
    replies.iter().any(|reply| is_code(reply))
}

fn is_committed(replies: &List<Reply>) -> bool
    ensures { result ≡ list_any is_done replies.now }
{
    replies.iter().any(|reply| is_done(reply))
}

fn opened_session(reply: &Reply) -> Option<u64>
    ensures { result ≡ opened_session reply.now }
{
    match reply {
        Reply::Session(number) => Some(*number),
        _ => None,
    }
}

/// The session that a line opened.
pub fn session_in(replies: &[Reply]) -> Option<u64>
    ensures { result ≡ session_in replies.now }
{
    let mut session = None;
    for reply in replies {
        session = session.or(opened_session(reply));
    }
    session
}

/// What the line asks next, if it asks anything more: by the definition of a line's next step, over each story that has
/// of the line what came back.
pub fn next_request(
    alloc: Global,
    command: &Command,
    label: &Option<Label>,
    came: &Came,
) -> Result<Option<Request>, OutOfMemory>
    ensures is { IfOk result (λ request. request ≡ request_by command.now label.now came.now) }
    ensures so { IfOk result (λ request. ShowsThat command.now label.now came.now
        (λ opening script story line. next_step opening script story line ≡ request)) }
{
    if is_refused(&came.replies) {
        return Ok(None);
    }
    step_of(alloc, command, label, came)
}

/// The same, given that nothing was refused.
fn step_of(
    alloc: Global,
    command: &Command,
    label: &Option<Label>,
    came: &Came,
) -> Result<Option<Request>, OutOfMemory>
    ensures { IfOk result (λ request. request ≡ command_by command.now label.now came.now) }
{
    match command {
        Command::KeyPut {
            volume,
            bucket,
            key,
            ..
        } => next_of_put(alloc, command, volume, bucket, key, true, came),
        Command::KeyOpen {
            volume,
            bucket,
            key,
            ..
        } => next_of_put(alloc, command, volume, bucket, key, false, came),
        Command::KeyCommit { .. } => commit_request(alloc, label, came),
        Command::Admin(_) => Ok(None),
        Command::VolumeCreate { .. }
        | Command::VolumeDelete { .. }
        | Command::VolumeInfo { .. }
        | Command::BucketCreate { .. }
        | Command::BucketDelete { .. }
        | Command::BucketInfo { .. }
        | Command::BucketList { .. }
        | Command::KeyGet { .. }
        | Command::KeyDelete { .. }
        | Command::KeyRename { .. }
        | Command::KeyList { .. }
        | Command::KeyExpire { .. }
        | Command::SnapshotCreate { .. }
        | Command::SnapshotDelete { .. }
        | Command::SnapshotInfo { .. }
        | Command::SnapshotList { .. } => single(alloc, command, came),
    }
}

/// The request of a line that asks once.
fn single(alloc: Global, command: &Command, came: &Came) -> Result<Option<Request>, OutOfMemory>
    requires { asks_once command.now ≡ true }
    ensures { IfOk result (λ request. request ≡ once_by came.now (single_of command.now)) }
{
    if !came.replies.is_empty() {
        return Ok(None);
    }
    Ok(Some(request_of(alloc, command)?))
}

/// The commit of what the label stands for.
fn commit_request(
    alloc: Global,
    label: &Option<Label>,
    came: &Came,
) -> Result<Option<Request>, OutOfMemory>
    ensures { IfOk result (λ request. request ≡ once_by came.now (commit_by label.now)) }
{
    if !came.replies.is_empty() {
        return Ok(None);
    }
    match label {
        Some(label) => Ok(Some(commit_of_label(alloc, label)?)),
        None => Ok(None),
    }
}

fn commit_of_label(alloc: Global, label: &Label) -> Result<Request, OutOfMemory>
    ensures { IfOk result (λ request. request ≡ commit_of_label label.now) }
{
    Ok(Request::CommitKey {
        volume: label.volume.try_clone(alloc)?,
        bucket: label.bucket.try_clone(alloc)?,
        key: label.key.try_clone(alloc)?,
        session: label.session,
        pieces: label.pieces.try_clone(alloc)?,
    })
}

/// What a line that writes asks: a session, blocks for its data, and then the commit, where it commits.
fn next_of_put(
    alloc: Global,
    command: &Command,
    volume: &Name,
    bucket: &Name,
    key: &Name,
    commits: bool,
    came: &Came,
) -> Result<Option<Request>, OutOfMemory>
    ensures { IfOk result (λ request. request
        ≡ put_by command.now came.now (target volume.now bucket.now key.now) commits (session_in came.now.replies)) }
{
    match session_in(came.replies.items()) {
        Some(session) => write_step(alloc, command, volume, bucket, key, commits, session, came),
        None => Ok(Some(create_key(alloc, volume, bucket, key)?)),
    }
}

fn write_step(
    alloc: Global,
    command: &Command,
    volume: &Name,
    bucket: &Name,
    key: &Name,
    commits: bool,
    session: u64,
    came: &Came,
) -> Result<Option<Request>, OutOfMemory>
    ensures { IfOk result (λ request. request
        ≡ write_by command.now came.now (target volume.now bucket.now key.now) commits session) }
{
    let written = written_blocks(alloc, came.attempts.items())?;
    if (written.len() as u64) < pieces_needed(command) {
        return block_step(alloc, volume, bucket, key, session, came);
    }
    if !commits || is_committed(&came.replies) {
        return Ok(None);
    }
    let pieces = pieces_of(alloc, command, &written)?;
    Ok(Some(commit_key(alloc, volume, bucket, key, session, pieces)?))
}

/// A further block, once nothing is being written.
fn block_step(
    alloc: Global,
    volume: &Name,
    bucket: &Name,
    key: &Name,
    session: u64,
    came: &Came,
) -> Result<Option<Request>, OutOfMemory>
    ensures { IfOk result (λ request. request
        ≡ block_by came.now (target volume.now bucket.now key.now) session) }
{
    if came.writing.is_some() {
        return Ok(None);
    }
    let exclude = exclude_of(alloc, came.attempts.items())?;
    Ok(Some(allocate_block(alloc, volume, bucket, key, session, exclude)?))
}

fn create_key(
    alloc: Global,
    volume: &Name,
    bucket: &Name,
    key: &Name,
) -> Result<Request, OutOfMemory>
    ensures { IfOk result (λ request. request ≡ Request.CreateKey volume.now bucket.now key.now) }
{
    Ok(Request::CreateKey {
        volume: volume.try_clone(alloc)?,
        bucket: bucket.try_clone(alloc)?,
        key: key.try_clone(alloc)?,
    })
}

fn allocate_block(
    alloc: Global,
    volume: &Name,
    bucket: &Name,
    key: &Name,
    session: u64,
    exclude: Exclude,
) -> Result<Request, OutOfMemory>
    ensures { IfOk result (λ request. request ≡ Request.AllocateBlock volume.now bucket.now key.now session exclude) }
{
    Ok(Request::AllocateBlock {
        volume: volume.try_clone(alloc)?,
        bucket: bucket.try_clone(alloc)?,
        key: key.try_clone(alloc)?,
        session,
        exclude,
    })
}

fn commit_key(
    alloc: Global,
    volume: &Name,
    bucket: &Name,
    key: &Name,
    session: u64,
    pieces: List<Piece>,
) -> Result<Request, OutOfMemory>
    ensures { IfOk result (λ request. request ≡ Request.CommitKey volume.now bucket.now key.now session pieces) }
{
    Ok(Request::CommitKey {
        volume: volume.try_clone(alloc)?,
        bucket: bucket.try_clone(alloc)?,
        key: key.try_clone(alloc)?,
        session,
        pieces,
    })
}
