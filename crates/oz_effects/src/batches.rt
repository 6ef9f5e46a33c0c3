//! Which bytes are the batch of changes, and what a body adds to those before it.

ghost use Rattle.std.specs.Prelude.{◌≡◌, ◌++◌, ◌<◌, [], ◌∷◌, ℕ, List, Some, IsSome};
ghost use Rattle.oz_rows.specs.declared.key.RowKey.{RowKey as AnyKey};
ghost use Rattle.oz_rows.specs.declared.row.Row.{Row as AnyRow};
ghost use Rattle.oz_rows.specs.declared.operation.Change.{Change as AnyChange};
ghost use Rattle.oz_rows.specs.Rows.{RowFits, KeyFits, row_bytes, key_bytes};
ghost use Rattle.oz_rows.specs.Operations.{IsIndex, OperationFits, head_bytes, new_head, operation_bytes};
ghost use Rattle.oz_rows.specs.declared.operation.Operation.{Operation as AnyOperation};
ghost use Rattle.oz_effects.specs.Effects.{operation_changes};
ghost use Rattle.oz_rows.specs.declared.entry.RowEntry.{RowEntry as AnyEntry};
ghost use Rattle.oz_rows.specs.RowMaps.{AreRows, put, gone, Rows as AnyRows, row_of, after_changes};
ghost use Rattle.oz_effects.specs.Batches.{IsBatchOf};
ghost use Rattle.oz_effects.specs.Build.{base_of, AllAreBased, Builds};

/// The batch of no changes has no bytes.
pub fn no_bytes_are_no_changes()
    ensures { (rows : AnyRows) → IsBatchOf rows [] [] }
{}

/// A row whose base is there may be put.
pub fn a_put_is_a_batch()
    ensures { (rows : AnyRows) (key : AnyKey) (row : AnyRow) → RowFits key row →
        ((base : AnyKey) → base_of key row ≡ Some base → IsSome (rows base)) →
        IsBatchOf rows (1 ∷ row_bytes key row) (put key row ∷ []) }
{}

/// A row that is there may go where none stands on it.
pub fn a_removal_is_a_batch()
    ensures { (rows : AnyRows) (key : AnyKey) → KeyFits key → IsSome (rows key) →
        ((other : AnyKey) (row : AnyRow) → rows other ≡ Some row → base_of other row ≡ Some key → ⊥) →
        IsBatchOf rows (2 ∷ key_bytes key) (gone key ∷ []) }
{}

/// A batch, and a second one over the rows after it, are one batch of the changes of both.
pub fn batches_are_one_batch()
    ensures { (rows : AnyRows) (bytes later : List ℕ) (changes others : List AnyChange) →
        IsBatchOf rows bytes changes → IsBatchOf (after_changes changes rows) later others →
        IsBatchOf rows (bytes ++ later) (changes ++ others) }
{}

/// Any key rows may be copied.
pub fn copied_keys_are_a_batch()
    ensures { (rows : AnyRows) (volume bucket : List ℕ) (number : ℕ) (changes : List AnyChange) →
        let operation = AnyOperation.CopyKeys volume bucket number in
        OperationFits operation →
        ((all : List AnyEntry) → AreRows all rows → changes ≡ operation_changes all operation) →
        IsBatchOf rows (operation_bytes operation) changes }
{}

/// Any deleted and renamed rows may be moved.
pub fn moved_rows_are_a_batch()
    ensures { (rows : AnyRows) (volume bucket : List ℕ) (from to : ℕ) (changes : List AnyChange) →
        let operation = AnyOperation.MoveDeleted volume bucket from to in
        OperationFits operation →
        ((all : List AnyEntry) → AreRows all rows → changes ≡ operation_changes all operation) →
        IsBatchOf rows (operation_bytes operation) changes }
{}

/// Any snapshot key rows may go.
pub fn dropped_keys_are_a_batch()
    ensures { (rows : AnyRows) (volume bucket : List ℕ) (number : ℕ) (changes : List AnyChange) →
        let operation = AnyOperation.DropKeys volume bucket number in
        OperationFits operation →
        ((all : List AnyEntry) → AreRows all rows → changes ≡ operation_changes all operation) →
        IsBatchOf rows (operation_bytes operation) changes }
{}

/// Any open rows may go.
pub fn closed_sessions_are_a_batch()
    ensures { (rows : AnyRows) (volume bucket : List ℕ) (changes : List AnyChange) →
        let operation = AnyOperation.DropOpen volume bucket in
        OperationFits operation →
        ((all : List AnyEntry) → AreRows all rows → changes ≡ operation_changes all operation) →
        IsBatchOf rows (operation_bytes operation) changes }
{}

/// A body of a greater index, with a batch of the rows so far, leads to the rows after its changes. The rows of bodies
/// have what they need, and keep the rules of the grammar.
pub fn a_batch_makes_a_body()
    ensures follows { (bodies : List (List ℕ)) (all : List AnyEntry) (last index : ℕ) (batch : List ℕ)
        (changes : List AnyChange) →
        Builds bodies all last → IsIndex index → last < index → IsBatchOf (row_of all) batch changes →
        (after : List AnyEntry) × Builds (bodies ++ (head_bytes (new_head index) ++ batch) ∷ []) after index
        × AreRows after (after_changes changes (row_of all)) }
    ensures based { (bodies : List (List ℕ)) (all : List AnyEntry) (last : ℕ) → Builds bodies all last
        → AllAreBased all }
    ensures fit { (bodies : List (List ℕ)) (all : List AnyEntry) (last : ℕ) → Builds bodies all last →
        (key : AnyKey) (row : AnyRow) → row_of all key ≡ Some row → RowFits key row }
{}
