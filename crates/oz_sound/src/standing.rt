//! What rows stand for.

ghost use Rattle.std.specs.Prelude.{◌≡◌, [], ◌∷◌, List, ℕ, false};
ghost use Rattle.std.specs.FinMap.{empty};
ghost use Rattle.oz_namespace.specs.declared.namespace.Namespace.{Namespace as AnyNamespace};
ghost use Rattle.oz_namespace.specs.Namespace.{nothing, has_volume, with_volume};
ghost use Rattle.oz_rows.specs.declared.key.RowKey.{RowKey as AnyKey};
ghost use Rattle.oz_rows.specs.declared.key.RowKey.TheVariants as keys;
ghost use Rattle.oz_rows.specs.declared.row.Row.TheVariants as values;
ghost use Rattle.oz_rows.specs.RowMaps.{put, Rows, row_of, row_after};
ghost use Rattle.oz_sound.specs.StandsFor.{StandsFor};

/// No rows stand for the namespace without volumes.
pub fn no_rows_stand_for_nothing()
    ensures { StandsFor (row_of []) nothing }
{}

/// Rows stand for one namespace at most.
pub fn rows_stand_for_one_namespace()
    ensures { (all : Rows) (namespace other : AnyNamespace) →
        StandsFor all namespace → StandsFor all other → namespace ≡ other }
{}

/// The row of a volume that was not there makes it, and nothing else.
pub fn a_row_makes_a_volume()
    ensures { (all now : Rows) (namespace : AnyNamespace) (volume : List ℕ) →
        StandsFor all namespace → has_volume namespace volume ≡ false →
        ((key : AnyKey) → now key ≡ row_after (put (keys.Volume volume) values.Volume ∷ []) key (all key)) →
        StandsFor now (with_volume namespace volume empty) }
{}
