//! Which ids are granted next.

ghost use Rattle.std.specs.Prelude.{◌≡◌, ◌⊎◌, ◌<◌, ◌^◌, length, false, IfOk, IfErr, OnErr};
ghost use Rattle.oz_scm.specs.grants.Made.{MayGrant};
ghost use Rattle.oz_nodes.specs.Pipelines.{IsAnyUp};
ghost use Rattle.oz_scm.specs.Granting.{IsDue, IsRefusedFor, says_stopped};
ghost use Rattle.oz_scm.specs.declared.fault.GrantFault.TheVariants.{NoPipeline as IsDown, Excluded as IsExcluded};

use crate::fault::GrantFault;
use crate::grants::{Containers, GRANTED_IDS, Grant, are_ids_spent};
use oz_nodes::Nodes;
use oz_requests::Exclude;

/// The grant that is due to a stripe.
pub(crate) fn due(
    containers: &Containers,
    nodes: &Nodes,
    stripe: u8,
    exclude: &Exclude,
) -> Result<Grant, GrantFault>
    requires { length nodes.now ≡ containers.now.made.nodes }
    ensures due { IfOk result (IsDue containers.now.made nodes.now stripe exclude.now) }
    ensures next { IfOk result (MayGrant containers.now.made) }
    ensures fits { IfOk result (λ grant. (grant.container < 2 ^ 64) × (grant.pipeline < 2 ^ 8)) }
    ensures goes_on { OnErr result (says_stopped result ≡ false) }
    ensures refused { IfErr result (IsRefusedFor containers.now.made nodes.now exclude.now) }
{
    let Some(pipeline) = nodes.pick(stripe, exclude.pipelines.items()) else {
        return Err(none_free(nodes));
    };
    let first = containers.next_id();
    let count = GRANTED_IDS;
    if are_ids_spent(first) {
        return Err(GrantFault::IdsSpent { next: first, count });
    }
    let container = containers.choose(pipeline, exclude.containers.items());
    Ok(Grant {
        container,
        pipeline,
        first,
        count,
    })
}

/// Why there is no pipeline that isn't excluded.
fn none_free(nodes: &Nodes) -> GrantFault
    ensures { (IsAnyUp nodes.now × (result ≡ IsExcluded)) ⊎ ((¬ IsAnyUp nodes.now) × (result ≡ IsDown)) }
{
    if nodes.any_up() {
        GrantFault::Excluded
    } else {
        GrantFault::NoPipeline
    }
}
