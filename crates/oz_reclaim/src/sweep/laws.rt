//! How a sweep goes on with the rows.

ghost use Rattle.std.specs.Prelude.{ℕ, ◌≤◌, List};
ghost use Rattle.oz_reclaim.specs.sweep.Changes.{DifferByNotes, SnapshotKeysStay};
ghost use Rattle.oz_reclaim.specs.sweep.Dates.{AreDated};
ghost use Rattle.oz_reclaim.specs.sweep.History.{AreDatedSo, AreExact, GoOn, HasBegun, History};
ghost use Rattle.oz_reclaim.specs.sweep.Notes.{notes_of, up_to};
ghost use Rattle.oz_reclaim.specs.sweep.Swept.{IsSwept, IsSweptTo};
ghost use Rattle.oz_reclaim.specs.sweep.View.{SweepView};
ghost use Rattle.oz_rows.specs.declared.operation.Change.{Change as AnyChange};
ghost use Rattle.oz_rows.specs.RowMaps.{Rows, after_changes};

/// A sweep that has the dead rows up to an index has them up to a later one, but for what is noted, where the rows changed no
/// more than is noted.
pub fn what_is_noted_may_change()
    ensures { (sweep : SweepView) (upto later : ℕ) (before now : Rows) → upto ≤ later
        → DifferByNotes (up_to later sweep.noted) before now → IsSweptTo sweep upto before → IsSweptTo sweep later now }
{}

/// The notes of changes say where they change rows, as long as the keys of snapshots come and go with these alone.
pub fn changes_are_noted()
    ensures { (changes : List AnyChange) (before : Rows)
        → SnapshotKeysStay (notes_of changes) before (after_changes changes before)
        → DifferByNotes (notes_of changes) before (after_changes changes before) }
{}

/// A block is out of reach since the date of its row, and no earlier: so it is where a sweep is brought on over rows that go on
/// as the manager's do, and no deleted snapshot was worked off before the sweep was brought past its deletion.
pub fn dates_are_exact()
    ensures { (rows : History) (base from upto : ℕ) (old now : SweepView) → base ≤ from → from ≤ upto
        → GoOn rows from upto old.noted → HasBegun rows base from old → AreDated old.dead old.dates → AreExact rows base old
        → IsSwept now (rows upto) → AreDatedSo rows upto old now → AreExact rows base now }
{}
