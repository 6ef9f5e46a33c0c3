//! The members of a container.

ghost use Rattle.std.specs.Prelude.{◌≡◌, ◌%◌, [], MatchOption};
ghost use Rattle.oz_core.specs.Scm.{members};

use oz_core::{Event, Opening};
use oz_law::pipeline_of;

fn modulo(number: usize, count: usize) -> usize
    ensures { result ≡ number % count }
{
    if count == 0 { number } else { number % count }
}

/// The datanodes that have a replica of the container, None where it wasn't made.
pub fn members(opening: &Opening, story: &[Event], number: u64) -> Option<[usize; 3]>
    ensures { MatchOption result
        (members opening.now story.now number ≡ [])
        (λ all. members opening.now story.now number ≡ all) }
{
    let count = opening.nodes.len();
    match pipeline_of(opening, story, number) {
        None => None,
        Some(pipeline) => {
            let first = usize::from(pipeline);
            Some([
                modulo(first, count),
                modulo(first + 1, count),
                modulo(first + 2, count),
            ])
        }
    }
}
