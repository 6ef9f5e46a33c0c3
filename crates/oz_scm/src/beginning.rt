//! The first entry of a journal that has none.

ghost use Rattle.std.specs.Prelude.{◌≡◌, ◌≢◌, Some, None, false, Err, IfOk, OnOk, OnErr, IfErr};
ghost use Rattle.oz_scm.specs.declared.grants.entry.Entry.TheVariants.{Nodes as Names};
ghost use Rattle.oz_scm.specs.grants.Entries.{entry_bytes};
ghost use Rattle.oz_scm.specs.grants.Made.{Made};
ghost use Rattle.oz_scm.specs.grants.Steps.{made_in};
ghost use Rattle.oz_journal.specs.Appends.{Appends};
ghost use Rattle.oz_nodes.specs.declared.nodes.TheConstants.{FEWEST_NODES, MOST_NODES};
ghost use Rattle.oz_world.specs.Disk.{seen};
ghost use Rattle.oz_scm.specs.declared.fault.ScmFault.TheVariants.{Disk as DiskFailed, OutOfMemory as NoMemory};
ghost use Rattle.oz_scm.specs.Scm.{made_for};
ghost use Rattle.std.specs.Prelude.{◌≤◌};

use crate::adding::add;
use crate::fault::ScmFault;
use crate::grants::Containers;
use crate::planning::plan_nodes;
use oz_journal::Journal;
use oz_world::Disk;
use std::alloc::Global;

/// What was found, or what there is before any grant, once the entry is added that names this number of datanodes.
pub(crate) fn found_or_first<D: Disk>(
    alloc: Global,
    journal: &mut Journal<D>,
    found: Option<Containers>,
    nodes: u8,
) -> Result<Containers, ScmFault>
    requires running { journal.old.stopped ≡ false }
    requires least { FEWEST_NODES ≤ nodes }
    requires most { nodes ≤ MOST_NODES }
    ensures made { IfOk result (λ containers. containers.made ≡ made_for nodes (made_in found)) }
    ensures found { (made : Made) → made_in found ≡ Some made → (journal.new ≡ journal.old) × OnErr result ⊥ }
    ensures first { made_in found ≡ None → result ≢ Err NoMemory → Appends (entry_bytes (Names nodes))
        (seen (D.told journal.old.disk) (D.clock journal.old.disk) (D.image journal.old.disk)
        (D.faults journal.old.disk))
        (seen (D.told journal.new.disk) (D.clock journal.new.disk) (D.image journal.new.disk)
        (D.faults journal.new.disk))
        result }
    ensures no_memory { result ≡ Err NoMemory → journal.new ≡ journal.old }
    ensures running { OnOk result (journal.new.stopped ≡ false) }
    ensures fault { IfErr result (λ fault. fault ≢ NoMemory → fault ≡ DiskFailed) }
{
    match found {
        Some(containers) => Ok(containers),
        None => {
            let Ok(frame) = plan_nodes(alloc, nodes) else {
                return Err(ScmFault::OutOfMemory);
            };
            let mut frame = frame;
            match add(journal, &mut frame) {
                Ok(()) => Ok(Containers::new(alloc, nodes)),
                Err(_) => Err(ScmFault::Disk),
            }
        }
    }
}
