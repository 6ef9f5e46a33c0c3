//! What holds of all rows and operations.

ghost use Rattle.std.specs.Prelude.{◌≡◌, true, ◌⊎◌, ◌≤◌, ◌<◌, ◌^◌, ◌∷◌, ◌++◌, ℕ, List, length};
ghost use Rattle.std.specs.List.{flat_map, AllByRecursion};
ghost use Rattle.oz_rows.specs.declared.key.RowKey.{RowKey as AnyKey};
ghost use Rattle.oz_rows.specs.declared.row.Row.{Row as AnyRow};
ghost use Rattle.oz_rows.specs.declared.operation.Operation.{Operation as AnyOperation};
ghost use Rattle.oz_fields.specs.Field.{AreBytes};
ghost use Rattle.oz_rows.specs.declared.operation.Operations.{Operations as AnyBody};
ghost use Rattle.oz_rows.specs.declared.fault.RowFault.TheVariants.{At};
ghost use Rattle.oz_rows.specs.Faults.{IsBodyFault};
ghost use Rattle.oz_rows.specs.Rows.{KeyFits, RowFits, key_bytes, row_bytes};
ghost use Rattle.oz_rows.specs.Operations.{OperationFits, operation_bytes, IsBody};
ghost use Rattle.oz_rows.specs.Order.{key_order};
ghost use Rattle.oz_rows.specs.RowMaps.{is_same};
ghost use Rattle.oz_rows.specs.declared.operation.TheConstants.{LONGEST_OPERATION, MOST_REMOVALS};

use crate::key::RowKey;

/// No two rows have one spelling, and no spelling of a row begins that of another.
pub fn one_row_for_a_spelling()
    ensures { (key other : AnyKey) (row value : AnyRow) (rest left : List ℕ)
        → RowFits key row → RowFits other value
        → row_bytes key row ++ rest ≡ row_bytes other value ++ left
        → (key ≡ other) × (row ≡ value) × (rest ≡ left) }
{}

/// No two operations have one spelling, and no spelling of an operation begins that of another.
pub fn one_operation_for_a_spelling()
    ensures { (operation other : AnyOperation) (rest left : List ℕ)
        → OperationFits operation → OperationFits other
        → operation_bytes operation ++ rest ≡ operation_bytes other ++ left
        → (operation ≡ other) × (rest ≡ left) }
{}

/// Bytes are a body, or a fault stands at one place of them.
pub fn bytes_are_a_body_or_at_fault()
    ensures each { (bytes : List ℕ) → AreBytes bytes
        → ((body : AnyBody) × IsBody bytes body) ⊎ ((place : ℕ) × IsBodyFault bytes (At place)) }
    ensures not_both { (bytes : List ℕ) (body : AnyBody) (place : ℕ)
        → IsBody bytes body → IsBodyFault bytes (At place) → ⊥ }
    ensures one_place { (bytes : List ℕ) (place other : ℕ)
        → IsBodyFault bytes (At place) → IsBodyFault bytes (At other) → place ≡ other }
{}

/// An operation has at most `LONGEST_OPERATION` bytes, and `MOST_REMOVALS` removals are below 2 MiB.
pub fn longest_batch()
    ensures operation { (operation : AnyOperation) → OperationFits operation
        → length (operation_bytes operation) ≤ LONGEST_OPERATION }
    ensures removals { (rows : List AnyKey) → AllByRecursion KeyFits rows → length rows ≤ MOST_REMOVALS
        → length (flat_map (λ key. 2 ∷ key_bytes key) rows) < 2 ^ 21 }
{}

/// Row keys are in the order that the tables keep.
pub fn keys_are_in_order()
    ensures { (a b : AnyKey) → ⟦<RowKey as Ord>⟧.cmp a b ≡ key_order a b }
{}

/// Keys that the order takes for the same are one key.
pub fn same_keys_are_one()
    ensures { (a b : AnyKey) → is_same a b ≡ true → a ≡ b }
{}
