//! Which kind of reply a request gets.

ghost use Rattle.std.specs.Prelude.{◌≡◌};
ghost use Rattle.oz_core.specs.Steps.{is_done};
ghost use Rattle.oz_client.specs.Replies.{is_count, is_counts, is_granted, is_names, is_of_kind, is_pieces, is_session, kind_for};

use oz_requests::{Reply, Request};

/// The kinds of replies to requests that aren't refused.
#[derive(Clone, Copy, Debug, PartialEq, Eq)]
pub enum ReplyKind {
    Done,
    Count,
    Counts,
    Names,
    Session,
    Granted,
    Pieces,
}

/// The kind of the reply to a request that isn't refused.
pub(crate) fn kind_for(request: &Request) -> ReplyKind
    ensures { result ≡ kind_for request.now }
{
    match request {
        Request::CreateVolume { .. }
        | Request::DeleteVolume { .. }
        | Request::CreateBucket { .. }
        | Request::DeleteBucket { .. }
        | Request::CommitKey { .. }
        | Request::DeleteKey { .. }
        | Request::RenameKey { .. }
        | Request::CreateSnapshot { .. }
        | Request::DeleteSnapshot { .. }
        | Request::Purge { .. }
        | Request::MoveDeleted { .. }
        | Request::PurgeSnapshot { .. } => ReplyKind::Done,
        Request::InfoVolume { .. } | Request::ExpireOpen { .. } | Request::InfoSnapshot { .. } => {
            ReplyKind::Count
        }
        Request::InfoBucket { .. } => ReplyKind::Counts,
        Request::ListBuckets { .. } | Request::ListKeys { .. } | Request::ListSnapshots { .. } =>
            ReplyKind::Names,
        Request::CreateKey { .. } => ReplyKind::Session,
        Request::AllocateBlock { .. } => ReplyKind::Granted,
        Request::LookupKey { .. } => ReplyKind::Pieces,
    }
}

fn is_done(reply: &Reply) -> bool
    ensures { result ≡ is_done reply.now }
{
    match reply {
        Reply::Done => true,
        _ => false,
    }
}

fn is_count(reply: &Reply) -> bool
    ensures { result ≡ is_count reply.now }
{
    match reply {
        Reply::Count(_) => true,
        _ => false,
    }
}

fn is_counts(reply: &Reply) -> bool
    ensures { result ≡ is_counts reply.now }
{
    match reply {
        Reply::Counts(_) => true,
        _ => false,
    }
}

fn is_names(reply: &Reply) -> bool
    ensures { result ≡ is_names reply.now }
{
    match reply {
        Reply::Names(_) => true,
        _ => false,
    }
}

fn is_session(reply: &Reply) -> bool
    ensures { result ≡ is_session reply.now }
{
    match reply {
        Reply::Session(_) => true,
        _ => false,
    }
}

fn is_granted(reply: &Reply) -> bool
    ensures { result ≡ is_granted reply.now }
{
    match reply {
        Reply::Granted(..) => true,
        _ => false,
    }
}

fn is_pieces(reply: &Reply) -> bool
    ensures { result ≡ is_pieces reply.now }
{
    match reply {
        Reply::Pieces(_) => true,
        _ => false,
    }
}

pub(crate) fn is_of_kind(kind: ReplyKind, reply: &Reply) -> bool
    ensures { result ≡ is_of_kind kind reply.now }
{
    match kind {
        ReplyKind::Done => is_done(reply),
        ReplyKind::Count => is_count(reply),
        ReplyKind::Counts => is_counts(reply),
        ReplyKind::Names => is_names(reply),
        ReplyKind::Session => is_session(reply),
        ReplyKind::Granted => is_granted(reply),
        ReplyKind::Pieces => is_pieces(reply),
    }
}
