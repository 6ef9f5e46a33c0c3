//! A noter that knows whether it noted anything.

use oz_fields::OutOfMemory;
use oz_replicas::{Kept, Note, Noter};
use oz_world::Disk;

/// Another noter, and whether it noted anything.
#[derive(Drop)]
pub(crate) struct Watching<N: Drop> {
    pub noter: N,
    pub has_noted: bool,
}

impl<D: Disk, K: Kept<D>, N: Noter<D, K> + Drop> Noter<D, K> for Watching<N> {
    ghost use Rattle.std.specs.Prelude.{◌≡◌, ◌||◌};
    ghost use Rattle.oz_line_blocks.specs.reading.Lacks.{has_notes};
    ghost use Rattle.oz_line_blocks.specs.reading.laws.Watched.{noted_joined};

    ghost subject = { λ watching. N.subject watching.noter };

    ghost noted = { λ before notes after. N.noted before.noter notes after.noter
        × (after.has_noted ≡ (before.has_noted || has_notes notes)) };

    ghost knows = { λ watching kept. N.knows watching.noter kept };

    ghost may_put = { λ watching kept. N.may_put watching.noter kept };

    ghost joins = { λ first second third before after one two. (
      N.joins first.noter second.noter third.noter before after one.0 two.0,
      noted_joined first.has_noted second.has_noted third.has_noted before after one.1 two.1,
    ) };

    fn ready(&mut self, kept: &mut K) -> Result<(), OutOfMemory> {
        self.noter.ready(kept)
    }

    fn note(&mut self, kept: &mut K, note: Note) {
        self.noter.note(kept, note);
        self.has_noted = true;
    }
}
