//! Which crate decides a request.

ghost use Rattle.std.specs.Prelude.{◌≡◌};
ghost use Rattle.oz_om.specs.decider.Deciders.{decider_of};

use oz_requests::Request;
use oz_rows::MOST_REMOVALS;

/// What a request is about, by which the crate is chosen that decides it.
#[derive(Clone, Copy, Debug, PartialEq, Eq)]
pub enum Decider {
    /// Volumes and buckets.
    Buckets,
    /// What keys there are.
    Reading,
    /// Keys that are there.
    Changing,
    /// Sessions that begin, and all of a bucket that end.
    Opening,
    /// A block for a session.
    Granting,
    /// A session that becomes a key.
    Committing,
    /// Snapshots of a bucket.
    Snapshots,
    /// What the manager asks itself: deleted rows that move or go, and snapshots that were deleted.
    Reclaiming,
    /// No crate decides it: a Purge that names more rows than may be removed at a time.
    Nobody,
}

pub fn who_decides(request: &Request) -> Decider
    ensures { result ≡ decider_of request.now }
{
    match request {
        Request::CreateVolume { .. }
        | Request::InfoVolume { .. }
        | Request::DeleteVolume { .. }
        | Request::CreateBucket { .. }
        | Request::InfoBucket { .. }
        | Request::DeleteBucket { .. }
        | Request::ListBuckets { .. } => Decider::Buckets,
        Request::LookupKey { .. } | Request::ListKeys { .. } => Decider::Reading,
        Request::DeleteKey { .. } | Request::RenameKey { .. } => Decider::Changing,
        Request::CreateKey { .. } | Request::ExpireOpen { .. } => Decider::Opening,
        Request::AllocateBlock { .. } => Decider::Granting,
        Request::CommitKey { .. } => Decider::Committing,
        Request::CreateSnapshot { .. }
        | Request::DeleteSnapshot { .. }
        | Request::ListSnapshots { .. }
        | Request::InfoSnapshot { .. } => Decider::Snapshots,
        Request::Purge { rows, .. } => {
            if rows.len() <= MOST_REMOVALS {
                Decider::Reclaiming
            } else {
                Decider::Nobody
            }
        }
        Request::MoveDeleted { .. } | Request::PurgeSnapshot { .. } => Decider::Reclaiming,
    }
}
