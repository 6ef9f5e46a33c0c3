//! How a type says how the manager's disk was once it had been loaded.

use std::marker::Brand;

/// The manager's disk as a run found it. A type that keeps what became of it takes it as a parameter, so that all of
/// them count from there.
pub trait Mounted {
    ghost use Rattle.oz_world.specs.Disk.{Seen};

    /// What was seen of it.
    ghost disk: { Seen };
}

// What stands there until a run picks its disk.
impl Mounted for Brand {
    ghost use Rattle.std.specs.Prelude.{None};
    ghost use Rattle.oz_world.specs.Disk.{seen};

    ghost disk = { seen None 0 (λ moment left. ⊥) 0 };
}
