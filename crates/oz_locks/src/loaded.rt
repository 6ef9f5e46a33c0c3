//! How a type says which rows the manager's disk had as a run began.

use std::marker::Brand;

/// What was loaded from the manager's disk. A type that replays Decides takes it as a parameter, so that all of them go on from
/// the same rows.
pub trait Loaded {
    ghost use Rattle.std.specs.Prelude.{ℕ, List};
    ghost use Rattle.oz_core.specs.declared.event.Event.{Event};
    ghost use Rattle.oz_rows.specs.RowMaps.{Rows};

    /// The rows of all stripes.
    ghost rows: { Rows };

    /// The last transaction index of the disk.
    ghost last_index: { ℕ };

    /// That the disks agree with one another, as far as what is kept of Grants rests on it.
    ghost coherent: { Type 0 };

    /// What holds of each stripe that nobody works on: of its number, the events of its own seat, what its seat has
    /// seen, and its newest rows.
    ghost keeps: { ℕ → List Event → List Event → Rows → Type 0 };
}

impl Loaded for Brand {
    ghost use Rattle.std.specs.Prelude.{None};

    ghost rows = { λ key. None };

    ghost last_index = { 0 };

    ghost coherent = { ⊥ };

    ghost keeps = { λ stripe mine seen rows. Unit {0} };
}
