//! Whether a pipeline is there and up.

ghost use Rattle.std.specs.Prelude.{◌≡◌, ◌↔◌, ◌<◌, IsTrue, length};
ghost use Rattle.oz_core.specs.Scm.{ups};
ghost use Rattle.oz_nodes.specs.Pipelines.{IsUp, is_node_up, pipelines_of};

use crate::containers::modulo;
use oz_core::{Event, Opening};
use oz_law::is_up;
use oz_nodes::FEWEST_NODES;

/// How many members of a pipeline are up where it is.
const QUORUM: u8 = 2;

fn pipelines_of(count: usize) -> usize
    ensures { result ≡ pipelines_of count }
{
    if count == usize::from(FEWEST_NODES) {
        1
    } else {
        count
    }
}

fn is_node_up(opening: &Opening, story: &[Event], dn: usize) -> bool
    ensures { result ≡ is_node_up (ups opening.now story.now) dn }
{
    dn < opening.nodes.len() && is_up(dn, story)
}

fn is_pipeline_up(opening: &Opening, story: &[Event], pipeline: u8) -> bool
    ensures { IsTrue result ↔ IsUp (ups opening.now story.now) pipeline }
{
    let count = opening.nodes.len();
    let first = usize::from(pipeline);
    let one = is_node_up(opening, story, modulo(first, count));
    let two = is_node_up(opening, story, modulo(first + 1, count));
    let three = is_node_up(opening, story, modulo(first + 2, count));
    u8::from(one) + u8::from(two) + u8::from(three) >= QUORUM
}

/// Whether the datanodes have the pipeline, and it is up.
pub(crate) fn is_there_and_up(opening: &Opening, story: &[Event], pipeline: u8) -> bool
    ensures { IsTrue result
        ↔ (pipeline < pipelines_of (length opening.now.nodes)) × IsUp (ups opening.now story.now) pipeline }
{
    usize::from(pipeline) < pipelines_of(opening.nodes.len())
        && is_pipeline_up(opening, story, pipeline)
}
