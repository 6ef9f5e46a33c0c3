//! The row of a key.

ghost use Rattle.std.specs.Prelude.{◌≡◌, ◌<◌, ◌^◌, ◌∷◌, [], true, None, IfOk};
ghost use Rattle.std.specs.List.{list_all};
ghost use Rattle.oz_decision.specs.Replies.{ShowsThat};
ghost use Rattle.oz_model.specs.Buckets.{bucket_in};
ghost use Rattle.oz_model.specs.Refusals.{first_of, no_volume, no_bucket, no_key};
ghost use Rattle.oz_model.specs.Scope.{scope_of};
ghost use Rattle.oz_om_key.specs.om_change.Keys.{IsKey, is_key as is_key_row, is_good_piece as good_piece, are_good_pieces, number_at};

use oz_decision::{is_good, missing_bucket};
use oz_fields::{LONGEST_PIECE, Name, OutOfMemory, Piece};
use oz_names::{Code, MOST_BLOCKS};
use oz_rows::{Row, RowKey, RowMap};
use std::alloc::Global;

/// The code where the volume isn't there, or the bucket, or the key, whose row is named.
pub(crate) fn missing_key<M: RowMap>(
    alloc: Global,
    rows: &M,
    volume: &Name,
    bucket: &Name,
    key: &Name,
    of_key: &RowKey,
) -> Result<Option<Code>, OutOfMemory>
    requires { of_key.now ≡ RowKey.Key volume.now bucket.now key.now }
    ensures code { IfOk result (λ code. ShowsThat (M.rows rows.now) (λ namespace. code ≡ first_of
        (no_volume (scope_of namespace volume.now) ∷ no_bucket (scope_of namespace volume.now) bucket.now
        ∷ no_key (bucket_in (scope_of namespace volume.now) bucket.now).keys key.now ∷ []))) }
    ensures none { IfOk result (λ code. code ≡ None → IsKey (M.rows rows.now) volume.now bucket.now key.now) }
{
    let of_bucket = RowKey::of_bucket(alloc, volume, bucket)?;
    if let Some(code) = missing_bucket(alloc, rows, volume, bucket, &of_bucket)? {
        return Ok(Some(code));
    }
    if is_key(rows, of_key) {
        Ok(None)
    } else {
        Ok(Some(Code::KeyNotFound))
    }
}

/// Whether a key has this row, which keeps the rules of rows.
fn is_key<M: RowMap>(rows: &M, of_key: &RowKey) -> bool
    ensures same { result ≡ is_key_row (M.rows rows.now of_key.now) }
    ensures small { result ≡ true → number_at (M.rows rows.now of_key.now) < 2 ^ 64 }
{
    match rows.get(of_key) {
        Some(Row::Key { number, pieces }) => *number > 0 && are_good_pieces(pieces.items()),
        _ => false,
    }
}

fn are_good_pieces(pieces: &[Piece]) -> bool
    ensures { result ≡ are_good_pieces pieces.now }
{
    pieces.len() <= MOST_BLOCKS as usize && each_is_good_piece(pieces)
}

fn each_is_good_piece(pieces: &[Piece]) -> bool
    ensures { result ≡ list_all good_piece pieces.now }
{
    pieces.iter().all(|piece| is_good_piece(piece))
}

fn is_good_piece(piece: &Piece) -> bool
    ensures { result ≡ good_piece piece.now }
{
    is_good(piece.block) && piece.length > 0 && piece.length <= LONGEST_PIECE
}
