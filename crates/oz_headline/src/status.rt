//! How a run ends.

ghost use Rattle.std.specs.Prelude.{◌≡◌};
ghost use Rattle.oz_headline.specs.Statuses.{status_number};

/// How a run ended. `docs/SCRIPT.md` says when each comes.
#[derive(Clone, Copy, Debug, PartialEq, Eq)]
pub enum Status {
    Done = 0,
    Script = 1,
    Words = 2,
    Read = 3,
    Unwritten = 4,
    Disk = 5,
    Damaged = 6,
    OutOfMemory = 7,
}

impl Status {
    /// The status that the program ends with.
    pub fn number(self) -> u8
        ensures { result ≡ status_number self }
    {
        self as u8
    }
}
