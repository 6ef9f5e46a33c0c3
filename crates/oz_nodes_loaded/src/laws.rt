//! Disks that load.

ghost use Rattle.std.specs.Prelude.{◌≡◌, ℕ, List, false};
ghost use Rattle.oz_datanode.specs.declared.disks.NodeDisks.{NodeDisks};
ghost use Rattle.oz_nodes_loaded.specs.AllLoad.{AllLoad, is_of_bytes};
ghost use Rattle.oz_nodes_loaded.specs.Refused.{IsSo};
ghost use Rattle.oz_nodes_loaded.specs.declared.fault.StoreFault.{StoreFault};
ghost use Rattle.oz_world.specs.Disk.{seen};

use oz_block::a_disk_stands_for_one_node;
use oz_datanode::what_loads_is_not_damaged;
use oz_scm::a_disk_stands_for_one_thing;
use oz_world::Disk;

/// Where all disks tell bytes that stand for something, and the ids of their blocks are below the next one, no fault comes
/// but that a disk failed or memory ran out.
pub fn what_loads_is_not_refused<D: Disk>()
    ensures { (greatest : ℕ) (scm : D) (nodes : List (NodeDisks D)) (scm_left : D) (nodes_left : List (NodeDisks D))
        (fault : StoreFault) →
        let see = (λ (d : D). seen (D.told d) (D.clock d) (D.image d) (D.faults d)) in
        AllLoad see greatest scm nodes → IsSo see greatest scm nodes scm_left nodes_left fault →
        is_of_bytes fault ≡ false }
{
    a_disk_stands_for_one_thing();
    a_disk_stands_for_one_node();
    what_loads_is_not_damaged();
}
