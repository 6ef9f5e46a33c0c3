//! The blocks that a line has written.

ghost use Rattle.std.specs.Prelude.{◌≡◌, IfOk};
ghost use Rattle.oz_steps.specs.Grants.{has_fate_written, written_blocks};

use crate::came::Attempt;
use crate::fate::Fate;
use oz_fields::{Block, OutOfMemory};
use std::alloc::Global;

fn has_fate_written(attempt: &Attempt) -> bool
    ensures { result ≡ has_fate_written attempt.now }
{
    match attempt.fate {
        Fate::Written => true,
        Fate::ContainerRefused | Fate::PipelineRefused => false,
    }
}

/// The blocks that were written, in order.
pub fn written_blocks(alloc: Global, attempts: &[Attempt]) -> Result<Vec<Block>, OutOfMemory>
    ensures { IfOk result (λ blocks. blocks.items ≡ written_blocks attempts.now) }
{
    attempts
        .iter()
        .filter(|attempt| has_fate_written(attempt))
        .map(|attempt| attempt.granted.block)
        .collect(alloc)
}
