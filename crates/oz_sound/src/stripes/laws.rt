//! What a batch over one stripe's rows is to the rows of the whole store.

ghost use Rattle.std.specs.Prelude.{◌≡◌, ◌==◌, true, false, ℕ, Bool, List};
ghost use Rattle.std.specs.List.{AllByRecursion};
ghost use Rattle.oz_rows.specs.declared.key.RowKey.{RowKey as AnyKey};
ghost use Rattle.oz_rows.specs.declared.entry.RowEntry.{RowEntry as AnyEntry};
ghost use Rattle.oz_rows.specs.declared.operation.Change.{Change as AnyChange};
ghost use Rattle.oz_rows.specs.declared.operation.Operation.{Operation as AnyOperation};
ghost use Rattle.oz_rows.specs.RowMaps.{Rows as AnyRows, KeysRise, row_of};
ghost use Rattle.oz_effects.specs.Batches.{IsBatchOf};
ghost use Rattle.oz_effects.specs.Effects.{operation_changes};
ghost use Rattle.oz_sound.specs.stripes.Stripes.{stripe_of_key, only, AreOf, ChangeOnly, AllApart};
ghost use Rattle.oz_sound.specs.stripes.Parts.{part_of, HasBucket, IsApart};

/// A batch over the rows of one stripe alone is a batch over the rows of the whole store: where each of its operations
/// and its changes is of the stripe, and no block of a session that it drops stands in a key of another one.
pub fn a_stripes_batch_is_one_of_all()
    ensures { (stripe : ℕ) (rows : AnyRows) (bytes : List ℕ) (changes : List AnyChange)
        (batch : IsBatchOf (only stripe rows) bytes changes)
        → AreOf stripe batch.items → ChangeOnly stripe changes → AllApart stripe rows batch.items
        → IsBatchOf rows bytes changes }
{}

/// The end of a bucket's sessions changes the same whether all rows are looked at or a part of them that has all of the
/// bucket's: where no block of these sessions stands in a key of the others.
pub fn sessions_are_dropped_among_their_own()
    ensures { (part : AnyKey → Bool) (all : List AnyEntry) (volume bucket : List ℕ)
        → KeysRise all → HasBucket part volume bucket → IsApart part (row_of all) (row_of all) volume bucket
        → operation_changes (part_of part all) (AnyOperation.DropOpen volume bucket)
        ≡ operation_changes all (AnyOperation.DropOpen volume bucket) }
{}
