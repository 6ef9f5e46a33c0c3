//! Lines of what the manager decided.

ghost use Rattle.std.specs.Prelude.{◌≡◌, ◌++◌, OnOk, option_copied};
ghost use Rattle.oz_report.specs.Report.{decide_text, request_name, request_text, reply_text};

use crate::answers::push_text;
use oz_fields::OutOfMemory;
use oz_requests::{AskId, Reply, Request};
use std::alloc::Global;

/// The reply to what this id had pending.
pub fn push_decide(
    alloc: Global,
    out: &mut Vec<u8>,
    id: AskId,
    request: Option<&Request>,
    reply: &Reply,
) -> Result<(), OutOfMemory>
    ensures { OnOk result
        (out.new.items ≡ out.old.items ++ decide_text id (option_copied request.entry) reply.now) }
{
    let AskId { client, line, step } = id;
    push_text(out, &format!(in alloc; "d {client} {line} {step} ")?)?;
    push_text(out, request_text(request))?;
    push_text(out, " ")?;
    push_text(out, reply_text(reply))?;
    push_text(out, "\n")
}

fn request_text(request: Option<&Request>) -> &'static str
    ensures { result.now ≡ request_text (option_copied request.entry) }
{
    match request {
        None => "",
        Some(asked) => request_name(asked),
    }
}

fn request_name(request: &Request) -> &'static str
    ensures { result.now ≡ request_name request.now }
{
    match request {
        Request::CreateVolume { .. } => "CreateVolume",
        Request::InfoVolume { .. } => "InfoVolume",
        Request::DeleteVolume { .. } => "DeleteVolume",
        Request::CreateBucket { .. } => "CreateBucket",
        Request::InfoBucket { .. } => "InfoBucket",
        Request::DeleteBucket { .. } => "DeleteBucket",
        Request::ListBuckets { .. } => "ListBuckets",
        Request::CreateKey { .. } => "CreateKey",
        Request::AllocateBlock { .. } => "AllocateBlock",
        Request::CommitKey { .. } => "CommitKey",
        Request::DeleteKey { .. } => "DeleteKey",
        Request::RenameKey { .. } => "RenameKey",
        Request::LookupKey { .. } => "LookupKey",
        Request::ListKeys { .. } => "ListKeys",
        Request::ExpireOpen { .. } => "ExpireOpen",
        Request::CreateSnapshot { .. } => "CreateSnapshot",
        Request::DeleteSnapshot { .. } => "DeleteSnapshot",
        Request::ListSnapshots { .. } => "ListSnapshots",
        Request::InfoSnapshot { .. } => "InfoSnapshot",
        Request::Purge { .. } => "Purge",
        Request::MoveDeleted { .. } => "MoveDeleted",
        Request::PurgeSnapshot { .. } => "PurgeSnapshot",
    }
}

fn reply_text(reply: &Reply) -> &'static str
    ensures { result.now ≡ reply_text reply.now }
{
    match reply {
        Reply::Code(code) => code.text(),
        _ => "OK",
    }
}
