//! How a transfer ends.

ghost use Rattle.std.specs.Prelude.{◌≡◌};
ghost use Rattle.oz_cluster.specs.files.Outcomes.{outcome_number};

/// How a transfer ended. `docs/SCRIPT.md` says when each comes.
#[derive(Clone, Copy, Debug, PartialEq, Eq)]
pub enum Outcome {
    Done = 0,
    TooLong = 1,
    Words = 2,
    Read = 3,
    Unwritten = 4,
    Disk = 5,
    Damaged = 6,
    OutOfMemory = 7,
    /// The line was told another answer.
    Refused = 8,
}

impl Outcome {
    /// The status that the program ends with.
    pub fn number(self) -> u8
        ensures { result ≡ outcome_number self }
    {
        self as u8
    }
}
