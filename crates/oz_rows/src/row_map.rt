//! What a map of rows is.

ghost use Rattle.std.specs.Prelude.{◌≡◌, option_copied, MatchOption};
ghost use Rattle.oz_rows.specs.Counts.{IsCount};
ghost use Rattle.oz_rows.specs.RowMaps.{Rows, IsNext, HasNoNext};

use crate::key::RowKey;
use crate::row::Row;

/// Rows by their keys, in the order of the keys, with their number between two keys.
pub trait RowMap {
    /// Which row each key has.
    ghost rows: { Self → Rows };

    /// The row of a key.
    fn get(&self, key: &RowKey) -> Option<&Row>
        ensures { option_copied result ≡ rows self.now key.now };

    /// The least key above this one that is of the same kind and has a row, and its row. The key
    /// itself may have none.
    fn next(&self, key: &RowKey) -> Option<(&RowKey, &Row)>
        ensures { MatchOption result
            (HasNoNext (rows self.now) key.now)
            (λ found. IsNext (rows self.now) key.now found.0.now found.1.now) };

    /// How many keys from one on and below another have a row, found by searches and not by a walk.
    fn count(&self, from: &RowKey, to: &RowKey) -> usize
        ensures { IsCount (rows self.now) from.now to.now result };
}
