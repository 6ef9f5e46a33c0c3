//! Laws of nodes that were loaded, in the words in which their seats ask for them.

ghost use Rattle.std.specs.Prelude.{◌≡◌, ◌<◌, ℕ, List, [], Some, IsSome, All, length, replicate, slice_get, false, true};
ghost use Rattle.oz_datanode.specs.Datanode.{Runs, State as AnyDatanode};
ghost use Rattle.oz_datanode.specs.declared.disks.NodeDisks.{NodeDisks};
ghost use Rattle.oz_node_events.specs.full.Full.{JournalStands};
ghost use Rattle.oz_scm.specs.grants.Made.{Made, log_of};
ghost use Rattle.oz_loaded.specs.Unseated.{UnseatedView};
ghost use Rattle.oz_namespace.specs.declared.namespace.Namespace.{Namespace as AnyNamespace};
ghost use Rattle.oz_node_events.specs.NodeSeat.{IsAsOpened, NumbersAreOld};
ghost use Rattle.oz_nodes_loaded.specs.Loads.{AreNodesFrom, IsScmFrom};
ghost use Rattle.oz_rows.specs.RowMaps.{Rows as AnyRows};
ghost use Rattle.oz_scm.specs.Scm.{State as AnyScm};
ghost use Rattle.oz_scm_events.specs.Kept.{AreContainers, IsLogOf};
ghost use Rattle.oz_nodes_loaded.specs.store_opening.Agreeing.{BlocksAgree};
ghost use Rattle.oz_nodes_loaded.specs.store_opening.Openings.{opened_log, opening_bytes, opening_of};
ghost use Rattle.oz_owned.specs.Ordered.{LogIsOrdered};
ghost use Rattle.oz_world.specs.Disk.{seen};

use crate::{
    an_opening_has_what_was_loaded, bytes_that_are_intact_have_their_digests,
    each_row_has_the_length_of_its_block,
};
use oz_block::a_disk_stands_for_one_node;
use oz_node_events::a_journal_keeps_slots_apart;
use oz_world::Disk;

/// The storage container manager that was loaded for so many datanodes runs, takes each of them for up, and has the next id,
/// the containers and the last transaction of the opening, whose log of deleted blocks is its log, in order and as the law reads it.
pub fn a_loaded_scm_stands_for_the_opening<D: Disk>()
    ensures running { (given : ℕ) (disk : D) (scm : AnyScm D) →
        let see = (λ (d : D). seen (D.told d) (D.clock d) (D.image d) (D.faults d)) in
        IsScmFrom see given disk scm → scm.stopped ≡ false }
    ensures nodes { (disk : D) (scm : AnyScm D) (disks : List (NodeDisks D)) (nodes : List (AnyDatanode D))
        (unseated : UnseatedView) (namespace : AnyNamespace) →
        let see = (λ (d : D). seen (D.told d) (D.clock d) (D.image d) (D.faults d)) in
        IsScmFrom see (length disks) disk scm → AreNodesFrom see 0 disks nodes →
        scm.made.nodes ≡ length (opening_of unseated namespace scm.made nodes).nodes }
    ensures next { (scm : AnyScm D) (nodes : List (AnyDatanode D)) (unseated : UnseatedView) (namespace : AnyNamespace) →
        scm.made.next_id ≡ (opening_of unseated namespace scm.made nodes).next_id }
    ensures containers { (scm : AnyScm D) (nodes : List (AnyDatanode D)) (unseated : UnseatedView)
        (namespace : AnyNamespace) →
        AreContainers scm.made.containers (opening_of unseated namespace scm.made nodes).containers }
    ensures up { (disk : D) (scm : AnyScm D) (disks : List (NodeDisks D)) (nodes : List (AnyDatanode D))
        (unseated : UnseatedView) (namespace : AnyNamespace) →
        let see = (λ (d : D). seen (D.told d) (D.clock d) (D.image d) (D.faults d)) in
        IsScmFrom see (length disks) disk scm → AreNodesFrom see 0 disks nodes →
        scm.up ≡ replicate (length (opening_of unseated namespace scm.made nodes).nodes) true }
    ensures last { (scm : AnyScm D) (nodes : List (AnyDatanode D)) (unseated : UnseatedView) (namespace : AnyNamespace) →
        scm.made.last_txn ≡ (opening_of unseated namespace scm.made nodes).last_txn }
    ensures log { (scm : AnyScm D) (nodes : List (AnyDatanode D)) (unseated : UnseatedView) (namespace : AnyNamespace) →
        (opening_of unseated namespace scm.made nodes).unretired ≡ opened_log scm.made.unretired }
    ensures ordered { (disk : D) (scm : AnyScm D) (disks : List (NodeDisks D)) (nodes : List (AnyDatanode D))
        (unseated : UnseatedView) (namespace : AnyNamespace) →
        let see = (λ (d : D). seen (D.told d) (D.clock d) (D.image d) (D.faults d)) in
        IsScmFrom see (length disks) disk scm → AreNodesFrom see 0 disks nodes →
        LogIsOrdered (opening_of unseated namespace scm.made nodes) }
    ensures deletions { (given : ℕ) (disk : D) (scm : AnyScm D) (nodes : List (AnyDatanode D)) (unseated : UnseatedView)
        (namespace : AnyNamespace) →
        let see = (λ (d : D). seen (D.told d) (D.clock d) (D.image d) (D.faults d)) in
        IsScmFrom see given disk scm → IsLogOf (opening_of unseated namespace scm.made nodes) [] (log_of scm.made) }
{
    an_opening_has_what_was_loaded::<D>();
}

/// Each datanode that was loaded has the number of its place, which the opening has too, and runs. Where the journals told
/// their bytes its own stands for what it holds; where the disks of slots did too, and the blocks agree, that is what the opening
/// says, and the bytes of its blocks stand beside the opening. No transaction of the opening's log has a number above the last
/// where the storage container manager was loaded too.
pub fn loaded_datanodes_stand_for_the_opening<D: Disk>()
    ensures number { (disks : List (NodeDisks D)) (nodes : List (AnyDatanode D)) (dn : ℕ) (node : AnyDatanode D) →
        let see = (λ (d : D). seen (D.told d) (D.clock d) (D.image d) (D.faults d)) in
        AreNodesFrom see 0 disks nodes → slice_get nodes dn ≡ Some node → node.id ≡ dn }
    ensures runs { (disks : List (NodeDisks D)) (nodes : List (AnyDatanode D)) (dn : ℕ) (node : AnyDatanode D) →
        let see = (λ (d : D). seen (D.told d) (D.clock d) (D.image d) (D.faults d)) in
        AreNodesFrom see 0 disks nodes → slice_get nodes dn ≡ Some node → Runs D.faults node }
    ensures there { (unseated : UnseatedView) (namespace : AnyNamespace) (made : Made) (nodes : List (AnyDatanode D)) (dn : ℕ)
        (node : AnyDatanode D) → slice_get nodes dn ≡ Some node →
        dn < length (opening_of unseated namespace made nodes).nodes }
    ensures numbered { (disk : D) (scm : AnyScm D) (disks : List (NodeDisks D)) (nodes : List (AnyDatanode D))
        (unseated : UnseatedView) (namespace : AnyNamespace) →
        let see = (λ (d : D). seen (D.told d) (D.clock d) (D.image d) (D.faults d)) in
        IsScmFrom see (length disks) disk scm → AreNodesFrom see 0 disks nodes →
        NumbersAreOld (opening_of unseated namespace scm.made nodes) }
    ensures journal { (disks : List (NodeDisks D)) (nodes : List (AnyDatanode D)) (dn : ℕ) (node : AnyDatanode D) →
        let see = (λ (d : D). seen (D.told d) (D.clock d) (D.image d) (D.faults d)) in
        All (λ (own : NodeDisks D). IsSome (D.told own.meta)) disks → AreNodesFrom see 0 disks nodes →
        slice_get nodes dn ≡ Some node → JournalStands D.told node }
    ensures opened { (all : AnyRows) (unseated : UnseatedView) (namespace : AnyNamespace) (made : Made)
        (disks : List (NodeDisks D)) (nodes : List (AnyDatanode D)) (dn : ℕ) (node : AnyDatanode D) →
        let see = (λ (d : D). seen (D.told d) (D.clock d) (D.image d) (D.faults d)) in
        All (λ (own : NodeDisks D). IsSome (D.told own.meta) × IsSome (D.told own.slots)) disks →
        AreNodesFrom see 0 disks nodes →
        BlocksAgree all (opening_of unseated namespace made nodes) (opening_bytes see nodes) →
        slice_get nodes dn ≡ Some node → IsAsOpened D.told D.clock D.image D.faults
        (opening_of unseated namespace made nodes) (opening_bytes see nodes) node }
{
    a_loaded_scm_stands_for_the_opening::<D>();
    an_opening_has_what_was_loaded::<D>();
    each_row_has_the_length_of_its_block::<D>();
    bytes_that_are_intact_have_their_digests();
    a_journal_keeps_slots_apart::<D>();
    a_disk_stands_for_one_node();
}
