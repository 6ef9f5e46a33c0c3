//! The deleted row of blocks that a key has left.

ghost use Rattle.std.specs.Prelude.{◌≡◌, ◌++◌, None, IfOk};
ghost use Rattle.oz_decision.specs.Drafts.{row_by_row};
ghost use Rattle.oz_decision.specs.Versions.{deleted};
ghost use Rattle.oz_requests.specs.declared.request.Request.{Request};
ghost use Rattle.oz_requests.specs.Names.{name_fault};
ghost use Rattle.oz_rows.specs.Operations.{batch_bytes};
ghost use Rattle.oz_rows.specs.Rows.{AreItems, IsBlock};

use crate::draft::Draft;
use oz_fields::{Block, List, Name, OutOfMemory};
use oz_rows::{Row, RowKey};
use std::alloc::Global;

/// Blocks that the key has left stand in a deleted row of the bucket itself; none stand in none.
pub fn put_deleted(
    alloc: Global,
    draft: Draft,
    volume: &Name,
    bucket: &Name,
    key: &Name,
    blocks: List<Block>,
) -> Result<Draft, OutOfMemory>
    requires named { name_fault (Request.DeleteKey volume.now bucket.now key.now) ≡ None }
    requires blocks { AreItems IsBlock blocks }
    ensures bytes { IfOk result (λ more. more.bytes ≡ draft.bytes ++ batch_bytes (row_by_row (deleted volume.now bucket.now key.now blocks))) }
    ensures changes { IfOk result (λ more. more.changes ≡ draft.changes ++ deleted volume.now bucket.now key.now blocks) }
{
    let Some(first) = blocks.items().first() else {
        return Ok(draft);
    };
    let of_deleted = RowKey::of_deleted(alloc, volume, bucket, 0, key, first.local)?;
    draft.put(alloc, of_deleted, Row::Deleted { blocks })
}
