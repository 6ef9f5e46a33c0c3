//! What has to stay as it is.

ghost use Rattle.std.specs.Prelude.{◌≡◌, []};
ghost use Rattle.oz_line_blocks.specs.reading.Lacks.{stills_in};

use oz_asker::Still;
use oz_line_blocks::Lack;
use std::marker::Model;

/// What has to stay as it is, at most three things.
#[derive(Drop)]
pub struct Stills {
    all: [Still; 3],
    count: usize,
}

impl Model for Stills {
    ghost use Rattle.std.specs.Prelude.{◌≤◌, List, take};
    ghost use Rattle.oz_asker.specs.declared.telling.still.Still.{Still};

    ghost Value = { List Still };

    ghost view = { λ s. take s.count s.all };

    ghost invariant = { λ s. s.count ≤ 3 };
}

impl Stills {
    /// These two.
    pub(crate) fn two(all: [Still; 2]) -> Stills
        ensures { result ≡ all }
    {
        let [first, second] = all;
        Stills {
            all: [first, second, second],
            count: 2,
        }
    }

    /// So that three members lack a block as they do: those that were doubted will, whatever comes.
    pub(crate) fn of(lacks: [Lack; 3]) -> Stills
        ensures { result ≡ stills_in lacks }
    {
        match lacks {
            [
                Lack::Absent(first),
                Lack::Absent(second),
                Lack::Absent(third),
            ] => Stills {
                all: [first, second, third],
                count: 3,
            },
            [Lack::Absent(first), Lack::Absent(second), Lack::Doubted(_)]
            | [Lack::Absent(first), Lack::Doubted(_), Lack::Absent(second)]
            | [Lack::Doubted(_), Lack::Absent(first), Lack::Absent(second)] => {
                Stills::two([first, second])
            }
            [Lack::Absent(one), Lack::Doubted(_), Lack::Doubted(_)]
            | [Lack::Doubted(_), Lack::Absent(one), Lack::Doubted(_)]
            | [Lack::Doubted(_), Lack::Doubted(_), Lack::Absent(one)] => Stills {
                all: [one, one, one],
                count: 1,
            },
            [Lack::Doubted(_), Lack::Doubted(_), Lack::Doubted(_)] => Stills::none(),
        }
    }

    /// Nothing.
    fn none() -> Stills
        ensures { result ≡ [] }
    {
        let unused = Still::Seat { seat: 0, place: 0 };
        Stills {
            all: [unused, unused, unused],
            count: 0,
        }
    }

    /// All of it, in order.
    pub(crate) fn as_slice(&self) -> &[Still]
        ensures { result.now ≡ self.now }
    {
        &self.all[..self.count]
    }
}
