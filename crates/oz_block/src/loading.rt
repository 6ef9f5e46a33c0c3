//! What the bodies of a loaded journal make.

ghost use Rattle.std.specs.Prelude.{◌≡◌, ◌<◌, ◌^◌, ℕ, length, IfOk, IfErr};
ghost use Rattle.oz_block.specs.Blocks.{IsFaultIn};
ghost use Rattle.oz_entries.specs.Build.{Makes};
ghost use Rattle.oz_entries.specs.Held.{node_of};
ghost use Rattle.oz_journal.specs.Body.{bodies_in, places_in};
ghost use Rattle.oz_journal.specs.Grammar.{places, records};

use oz_entries::{BuildFault, Held, bodies_make_one_node, build};
use oz_journal::{Body, LoadFault};
use std::alloc::Global;

/// What the bodies of a disk make. A fault's place is that on the disk.
pub(crate) fn held_of(alloc: Global, bodies: &[Body]) -> Result<Held, LoadFault>
    requires places { places_in bodies.now ≡ places 0 (bodies_in bodies.now) }
    requires ends { length (records (bodies_in bodies.now)) < 2 ^ 64 }
    ensures made { IfOk result (λ held. Makes (bodies_in bodies.now) (node_of held)) }
    ensures damaged { IfErr result (λ fault. (offset : ℕ) → fault ≡ LoadFault.Damaged offset →
        IsFaultIn (bodies_in bodies.now) offset) }
    ensures disk { IfErr result (λ fault. fault ≡ LoadFault.Disk → ⊥) }
{
    bodies_make_one_node();
    match build(alloc, bodies) {
        Ok(held) => Ok(held),
        Err(BuildFault::Damaged { body, at }) => {
            let Some(damaged) = bodies.get(body) else {
                unreachable!()
            };
            Err(LoadFault::Damaged {
                offset: damaged.at + at as u64,
            })
        }
        Err(BuildFault::OutOfMemory) => Err(LoadFault::OutOfMemory),
    }
}
