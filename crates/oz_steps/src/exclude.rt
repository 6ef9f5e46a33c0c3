//! What a line excludes.

ghost use Rattle.std.specs.Prelude.{◌≡◌, IfOk, filter, map};
ghost use Rattle.oz_steps.specs.Grants.{excluded_by, is_of_container, is_of_pipeline};

use crate::came::Attempt;
use crate::fate::Fate;
use oz_fields::{List, OutOfMemory};
use oz_requests::Exclude;
use std::alloc::Global;

fn is_of_container(attempt: &Attempt) -> bool
    ensures { result ≡ is_of_container attempt.now }
{
    match attempt.fate {
        Fate::ContainerRefused => true,
        Fate::Written | Fate::PipelineRefused => false,
    }
}

fn is_of_pipeline(attempt: &Attempt) -> bool
    ensures { result ≡ is_of_pipeline attempt.now }
{
    match attempt.fate {
        Fate::PipelineRefused => true,
        Fate::Written | Fate::ContainerRefused => false,
    }
}

fn containers(alloc: Global, attempts: &[Attempt]) -> Result<Vec<u64>, OutOfMemory>
    ensures { IfOk result (λ containers. containers.items
        ≡ map (λ attempt. attempt.granted.block.container) (filter is_of_container attempts.now)) }
{
    attempts
        .iter()
        .filter(|attempt| is_of_container(attempt))
        .map(|attempt| attempt.granted.block.container)
        .collect(alloc)
}

fn pipelines(alloc: Global, attempts: &[Attempt]) -> Result<Vec<u8>, OutOfMemory>
    ensures { IfOk result (λ pipelines. pipelines.items
        ≡ map (λ attempt. attempt.granted.pipeline) (filter is_of_pipeline attempts.now)) }
{
    attempts
        .iter()
        .filter(|attempt| is_of_pipeline(attempt))
        .map(|attempt| attempt.granted.pipeline)
        .collect(alloc)
}

/// The containers and the pipelines of the blocks that were given up.
pub(crate) fn exclude_of(alloc: Global, attempts: &[Attempt]) -> Result<Exclude, OutOfMemory>
    ensures { IfOk result (λ exclude. exclude ≡ excluded_by attempts.now) }
{
    let containers = List::of(containers(alloc, attempts)?);
    let pipelines = List::of(pipelines(alloc, attempts)?);
    Ok(Exclude {
        containers,
        pipelines,
    })
}
