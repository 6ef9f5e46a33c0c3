//! What holds of all bodies of a journal.

ghost use Rattle.std.specs.Prelude.{◌≡◌, ◌⊎◌, ◌≤◌, ℕ, List, Some, length, slice_get};
ghost use Rattle.std.specs.List.{AllByRecursion};
ghost use Rattle.oz_fields.specs.Field.{AreBytes};
ghost use Rattle.oz_rows.specs.declared.entry.RowEntry.{RowEntry as AnyEntry};
ghost use Rattle.oz_effects.specs.Build.{Builds, FailsAt};

/// The bodies of a journal make one thing, or are damaged at one place.
pub fn bodies_make_one_thing()
    ensures each { (bodies : List (List ℕ)) → AllByRecursion AreBytes bodies
        → ((all : List AnyEntry) × (index : ℕ) × Builds bodies all index)
        ⊎ ((count : ℕ) × (place : ℕ) × FailsAt bodies count place) }
    ensures one_table { (bodies : List (List ℕ)) (all other : List AnyEntry) (index last : ℕ)
        → Builds bodies all index → Builds bodies other last → (all ≡ other) × (index ≡ last) }
    ensures not_both { (bodies : List (List ℕ)) (all : List AnyEntry) (index count place : ℕ)
        → Builds bodies all index → FailsAt bodies count place → ⊥ }
    ensures one_fault { (bodies : List (List ℕ)) (count place other at : ℕ)
        → FailsAt bodies count place → FailsAt bodies other at → (count ≡ other) × (place ≡ at) }
    ensures within { (bodies : List (List ℕ)) (count place : ℕ) → FailsAt bodies count place
        → (body : List ℕ) × (slice_get bodies count ≡ Some body) × (place ≤ length body) }
{}
