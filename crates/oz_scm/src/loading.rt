//! What the bodies of a loaded journal make.

ghost use Rattle.std.specs.Prelude.{◌≡◌, ◌≢◌, ◌<◌, ◌^◌, ℕ, length, IfOk, IfErr, IfSome, Some};
ghost use Rattle.oz_scm.specs.grants.Build.{Makes};
ghost use Rattle.oz_scm.specs.grants.Made.{Made};
ghost use Rattle.oz_scm.specs.grants.Steps.{made_in};
ghost use Rattle.oz_journal.specs.Body.{bodies_in, places_in};
ghost use Rattle.oz_journal.specs.Grammar.{places, records};
ghost use Rattle.oz_scm.specs.Scm.{IsFaultIn};

use crate::fault::ScmFault;
use crate::grants::{BuildFault, Containers, bodies_make_one_thing, build};
use oz_journal::Body;
use std::alloc::Global;

/// What the bodies of a disk make, which have to name this number of datanodes; None where there is no body. A fault's
/// place is that on the disk.
pub(crate) fn containers_of(
    alloc: Global,
    bodies: &[Body],
    nodes: u8,
) -> Result<Option<Containers>, ScmFault>
    requires places { places_in bodies.now ≡ places 0 (bodies_in bodies.now) }
    requires ends { length (records (bodies_in bodies.now)) < 2 ^ 64 }
    ensures made { IfOk result (λ found. Makes (bodies_in bodies.now) (made_in found)) }
    ensures agrees { IfOk result (λ found. IfSome (made_in found) (λ (made : Made). made.nodes ≡ nodes)) }
    ensures damaged { IfErr result (λ fault. (offset : ℕ) → fault ≡ ScmFault.Damaged offset →
        IsFaultIn (bodies_in bodies.now) offset) }
    ensures nodes { IfErr result (λ fault. (recorded given : ℕ) → fault ≡ ScmFault.Nodes recorded given →
        (given ≡ nodes) × (recorded ≢ nodes)
        × ((made : Made) × Makes (bodies_in bodies.now) (Some made) × (made.nodes ≡ recorded))) }
    ensures disk { IfErr result (λ fault. fault ≡ ScmFault.Disk → ⊥) }
{
    bodies_make_one_thing();
    let found = match build(alloc, bodies) {
        Ok(found) => found,
        Err(BuildFault::Damaged { body, at }) => {
            let Some(damaged) = bodies.get(body) else {
                unreachable!()
            };
            return Err(ScmFault::Damaged {
                offset: damaged.at + at as u64,
            });
        }
        Err(BuildFault::OutOfMemory) => return Err(ScmFault::OutOfMemory),
    };
    if let Some(containers) = &found {
        let recorded = containers.nodes();
        if recorded != nodes {
            return Err(ScmFault::Nodes {
                recorded,
                given: nodes,
            });
        }
    }
    Ok(found)
}
