//! What a line reads.

ghost use Rattle.std.specs.Prelude.{◌≡◌, [], length, slice_get, IfOk, MatchOption, Some};
ghost use Rattle.std.specs.List.{flat_map};
ghost use Rattle.oz_core.specs.Stories.{last_in};
ghost use Rattle.oz_client.specs.LineState.{pieces_in};

use crate::progress::Progress;
use oz_fields::{List, OutOfMemory, Piece};
use oz_requests::Reply;
use std::alloc::Global;

/// What the manager replied last.
pub(crate) fn last_reply(replies: &[Reply]) -> Option<&Reply>
    ensures { MatchOption result (replies.now ≡ []) (λ reply. last_in replies.now ≡ Some reply.now) }
{
    if replies.is_empty() {
        return None;
    }
    Some(&replies[replies.len() - 1])
}

/// The next piece that is to be read.
pub(crate) fn piece_left(progress: &Progress) -> Option<Piece>
    ensures { result ≡ slice_get (pieces_in progress.now.came.replies) (length progress.now.read) }
{
    match last_reply(progress.came.replies.items()) {
        Some(Reply::Pieces(pieces)) => piece_at(pieces.items(), progress.read.len()),
        _ => None,
    }
}

fn piece_at(pieces: &[Piece], place: usize) -> Option<Piece>
    ensures { result ≡ slice_get pieces.now place }
{
    if place < pieces.len() {
        Some(pieces[place])
    } else {
        None
    }
}

/// The bytes of some pieces, joined.
pub(crate) fn joined(alloc: Global, contents: &[List<u8>]) -> Result<List<u8>, OutOfMemory>
    ensures { IfOk result (λ bytes. bytes ≡ flat_map (λ content. content) contents.now) }
{
    let mut bytes = Vec::new(alloc);
    for content in contents {
        bytes.extend_from_slice(content.items())?;
    }
    Ok(List::of(bytes))
}
