//! The row of a session.

ghost use Rattle.std.specs.Prelude.{◌≡◌, ◌∷◌, [], None, IfOk};
ghost use Rattle.std.specs.List.{list_all};
ghost use Rattle.oz_decision.specs.Replies.{ShowsThat};
ghost use Rattle.oz_model.specs.Buckets.{bucket_in};
ghost use Rattle.oz_model.specs.Refusals.{first_of, no_volume, no_bucket, no_session};
ghost use Rattle.oz_model.specs.Scope.{scope_of};
ghost use Rattle.oz_decision.specs.Sessions.{blocks_at, IsOpen, is_good, are_good, is_open as is_open_row};

use crate::lookups::missing_bucket;
use oz_fields::{Block, GREATEST_BLOCK_NUMBER, Name, OutOfMemory};
use oz_names::{Code, MOST_BLOCKS};
use oz_rows::{Row, RowKey, RowMap};
use std::alloc::Global;

/// The code where the volume isn't there, or the bucket, or the session of this number, whose row has this key.
pub fn missing_session<M: RowMap>(
    alloc: Global,
    rows: &M,
    volume: &Name,
    bucket: &Name,
    key: &Name,
    number: u64,
    of_session: &RowKey,
) -> Result<Option<Code>, OutOfMemory>
    requires { of_session.now ≡ RowKey.Open volume.now bucket.now key.now number }
    ensures code { IfOk result (λ code. ShowsThat (M.rows rows.now) (λ namespace. code ≡ first_of
        (no_volume (scope_of namespace volume.now) ∷ no_bucket (scope_of namespace volume.now) bucket.now
        ∷ no_session (bucket_in (scope_of namespace volume.now) bucket.now) key.now number ∷ []))) }
    ensures none { IfOk result (λ code. code ≡ None → IsOpen (M.rows rows.now) volume.now bucket.now key.now number) }
{
    let of_bucket = RowKey::of_bucket(alloc, volume, bucket)?;
    if let Some(code) = missing_bucket(alloc, rows, volume, bucket, &of_bucket)? {
        return Ok(Some(code));
    }
    if is_open(rows, of_session, number) {
        Ok(None)
    } else {
        Ok(Some(Code::KeyNotFound))
    }
}

/// Whether a session of this number has the row of this key.
fn is_open<M: RowMap>(rows: &M, of_session: &RowKey, number: u64) -> bool
    ensures { result ≡ is_open_row number (M.rows rows.now of_session.now) }
{
    match rows.get(of_session) {
        Some(Row::Open { blocks }) => number > 0 && are_good(blocks.items()),
        _ => false,
    }
}

fn are_good(blocks: &[Block]) -> bool
    ensures { result ≡ are_good blocks.now }
{
    blocks.len() <= MOST_BLOCKS as usize && each_is_good(blocks)
}

fn each_is_good(blocks: &[Block]) -> bool
    ensures { result ≡ list_all is_good blocks.now }
{
    blocks.iter().all(|block| is_good(*block))
}

/// Whether the numbers of a block are as those of blocks have to be.
pub fn is_good(block: Block) -> bool
    ensures { result ≡ is_good block }
{
    1 <= block.container
        && block.container <= GREATEST_BLOCK_NUMBER
        && 1 <= block.local
        && block.local <= GREATEST_BLOCK_NUMBER
}

/// The blocks of the session whose row has this key.
pub fn session_blocks<'r, M: RowMap>(rows: &'r M, of_session: &RowKey) -> &'r [Block]
    ensures { result.now ≡ blocks_at (M.rows rows.now of_session.now) }
{
    match rows.get(of_session) {
        Some(Row::Open { blocks }) => blocks.items(),
        _ => &[],
    }
}
