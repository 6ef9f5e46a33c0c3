//! That the example's rows are what rows of a manager have to be.

ghost use Rattle.std.specs.List.{AllByRecursion};
ghost use Rattle.oz_sound.specs.example.Example.{rows, namespace};
ghost use Rattle.oz_rows.specs.Rows.{RowFits};
ghost use Rattle.oz_effects.specs.Build.{AllAreBased};
ghost use Rattle.oz_sound.specs.Sound.{IsSound};
ghost use Rattle.oz_sound.specs.StandsFor.{StandsFor};
ghost use Rattle.oz_rows.specs.RowMaps.{KeysRise, row_of};

/// The example's rows are in the grammar and in their order, and each has the row that it needs. They stand for its
/// namespace, and are sound.
pub fn these_rows_are_sound()
    ensures grammar { AllByRecursion (λ entry. RowFits entry.key entry.row) rows }
    ensures in_order { KeysRise rows }
    ensures based { AllAreBased rows }
    ensures stands { StandsFor (row_of rows) namespace }
    ensures sound { IsSound (row_of rows) }
{}
