//! Laws of what loaded disks stand for together.

ghost use Rattle.std.specs.Prelude.{◌≡◌, ◌↔◌, ◌<◌, ◌≤◌, ℕ, List, [], None, Some, IsSome, All, Contains, length, not, map, option_map, slice_get};
ghost use Rattle.std.specs.FinMap.{empty, get};
ghost use Rattle.oz_core.specs.Coherent.{IdsAreFresh};
ghost use Rattle.oz_core.specs.Contents.{OpeningBytes};
ghost use Rattle.oz_core.specs.Nodes.{is_open, length_in, length_of, was_closed, was_held};
ghost use Rattle.oz_core.specs.declared.opening.Opening.{Opening as AnyOpening};
ghost use Rattle.oz_core.specs.declared.opening.Replica.{Replica as AnyReplica};
ghost use Rattle.oz_core.specs.Stories.{first_in};
ghost use Rattle.oz_datanode.specs.Datanode.{State as AnyDatanode, node_in};
ghost use Rattle.oz_datanode.specs.Pairs.{HaveDigests, bytes_of};
ghost use Rattle.oz_datanode.specs.declared.disks.NodeDisks.{NodeDisks};
ghost use Rattle.oz_entries.specs.Build.{Makes};
ghost use Rattle.oz_entries.specs.Node.{is_held};
ghost use Rattle.oz_entries.specs.declared.row.BlockRow.{BlockRow as AnyRow};
ghost use Rattle.oz_fields.specs.declared.block.Block.{Block as AnyBlock};
ghost use Rattle.oz_scm.specs.grants.Made.{Made, begun, container_at};
ghost use Rattle.oz_journal.specs.Grammar.{IsJournal};
ghost use Rattle.oz_kept.specs.reopened.Left.{was_greatest};
ghost use Rattle.oz_loaded.specs.Loads.{IsLoaded};
ghost use Rattle.oz_loaded.specs.Unseated.{UnseatedView};
ghost use Rattle.oz_namespace.specs.declared.namespace.Namespace.{Namespace as AnyNamespace};
ghost use Rattle.oz_namespace.specs.Namespace.{nothing};
ghost use Rattle.oz_nodes_loaded.specs.Ids.{AreBelow};
ghost use Rattle.oz_nodes_loaded.specs.Loads.{AreNodesFrom, IsScmFrom};
ghost use Rattle.oz_rows.specs.declared.key.RowKey.{RowKey as AnyKey};
ghost use Rattle.oz_rows.specs.RowMaps.{Rows as AnyRows, row_of};
ghost use Rattle.oz_scm.specs.Scm.{State as AnyScm};
ghost use Rattle.oz_sound.specs.Sound.{IsSoundButRenames};
ghost use Rattle.oz_sound.specs.StandsFor.{StandsFor};
ghost use Rattle.oz_store.specs.Store.{IsInARow, IsStore, local_in};
ghost use Rattle.oz_nodes_loaded.specs.store_opening.Agreeing.{BlocksAgree, HoldsNothing};
ghost use Rattle.oz_nodes_loaded.specs.store_opening.Openings.{intact_bytes, opened_container, opened_node, opening_bytes, opening_of};
ghost use Rattle.oz_nodes_loaded.specs.store_opening.Same.{SayTheSame};
ghost use Rattle.oz_world.specs.Disk.{seen};

use oz_block::a_disk_stands_for_one_node;
use oz_loaded::a_disk_loads_as_one_thing;
use oz_node_events::blocks_have_slots_of_their_own;
use oz_scm::a_disk_stands_for_one_thing;
use oz_world::Disk;

/// Where the ids that were loaded are below the next one, no id that a row, its key or a datanode has is granted again.
pub fn no_id_is_granted_again<D: Disk>()
    ensures rows { (bodies : List (List ℕ)) (unseated : UnseatedView) (this : IsLoaded bodies unseated) (made : Made)
        (nodes : List (AnyDatanode D)) (block : AnyBlock) → AreBelow unseated.greatest_id (map node_in nodes) made.next_id →
        IsInARow (row_of this.all) block → block.local < made.next_id }
    ensures keys { (bodies : List (List ℕ)) (unseated : UnseatedView) (this : IsLoaded bodies unseated) (made : Made)
        (nodes : List (AnyDatanode D)) (key : AnyKey) (local : ℕ) →
        AreBelow unseated.greatest_id (map node_in nodes) made.next_id →
        IsSome (row_of this.all key) → local_in key ≡ Some local → local < made.next_id }
    ensures disks { (bodies : List (List ℕ)) (unseated : UnseatedView) (this : IsLoaded bodies unseated) (made : Made)
        (nodes : List (AnyDatanode D)) (namespace : AnyNamespace) → StandsFor (row_of this.all) namespace →
        AreBelow unseated.greatest_id (map node_in nodes) made.next_id →
        IdsAreFresh (opening_of unseated namespace made nodes) }
{
    oz_loaded::what_is_left_stands_in_deleted_rows();
    oz_store::what_is_reached_stands_in_a_row();
}

/// Where the rows that were loaded are sound but for what renamed rows say, and stand for a namespace, the ids that were
/// loaded are below the next one, and the blocks agree, all disks are a store. The blocks of each store agree.
pub fn all_disks_are_a_store<D: Disk>()
    ensures store { (bodies : List (List ℕ)) (unseated : UnseatedView) (this : IsLoaded bodies unseated)
        (namespace : AnyNamespace) (made : Made) (nodes : List (AnyDatanode D)) →
        let see = (λ (d : D). seen (D.told d) (D.clock d) (D.image d) (D.faults d)) in
        StandsFor (row_of this.all) namespace → IsSoundButRenames (row_of this.all) →
        AreBelow unseated.greatest_id (map node_in nodes) made.next_id →
        BlocksAgree (row_of this.all) (opening_of unseated namespace made nodes) (opening_bytes see nodes) →
        IsStore (row_of this.all) (opening_of unseated namespace made nodes) (opening_bytes see nodes) }
    ensures only { (all : AnyRows) (opening : AnyOpening) (bytes : OpeningBytes) →
        IsStore all opening bytes → BlocksAgree all opening bytes }
{
    oz_loaded::what_is_left_stands_in_deleted_rows();
    oz_store::what_is_reached_stands_in_a_row();
}

/// Where neither a row nor a datanode has a block and no deletion is logged the blocks agree, and where no datanode has one
/// their ids are below the first that is granted. So it is where nothing was written to the journals of datanodes yet.
pub fn an_empty_store_agrees<D: Disk>()
    ensures agree { (unseated : UnseatedView) (namespace : AnyNamespace) (made : Made) (nodes : List (AnyDatanode D))
        (bytes : OpeningBytes) → All HoldsNothing nodes → made.unretired ≡ empty →
        BlocksAgree (row_of []) (opening_of unseated namespace made nodes) bytes }
    ensures below { (count : ℕ) (nodes : List (AnyDatanode D)) → All HoldsNothing nodes →
        AreBelow 0 (map node_in nodes) (begun count).next_id }
    ensures unwritten { (node : AnyDatanode D) → Makes [] (node_in node) → HoldsNothing node }
{}

/// Where no journal has a body all disks are a store.
pub fn unwritten_disks_are_a_store<D: Disk>()
    ensures { (unseated : UnseatedView) (this : IsLoaded [] unseated) (count : ℕ) (nodes : List (AnyDatanode D)) →
        let see = (λ (d : D). seen (D.told d) (D.clock d) (D.image d) (D.faults d)) in
        All (λ (node : AnyDatanode D). Makes [] (node_in node)) nodes →
        IsStore (row_of this.all) (opening_of unseated nothing (begun count) nodes) (opening_bytes see nodes) }
{
    oz_loaded::what_is_left_stands_in_deleted_rows();
    oz_store::an_empty_store_is_one();
    oz_store::what_is_reached_stands_in_a_row();
}

/// An opening has the blocks of the datanodes, with their lengths, the states and greatest transactions of their replicas,
/// each of which is listed that is closed or has a transaction, and the containers of the storage container manager.
pub fn an_opening_has_what_was_loaded<D: Disk>()
    ensures held { (unseated : UnseatedView) (namespace : AnyNamespace) (made : Made) (nodes : List (AnyDatanode D)) (dn : ℕ)
        (node : AnyDatanode D) (block : AnyBlock) → slice_get nodes dn ≡ Some node →
        was_held (opening_of unseated namespace made nodes) dn block ≡ is_held (node_in node) block }
    ensures lengths { (node : AnyDatanode D) (block : AnyBlock) →
        first_in (length_in block (opened_node node.blocks.held))
        ≡ option_map (λ (row : AnyRow). row.length) ((node_in node).rows block) }
    ensures closed { (unseated : UnseatedView) (namespace : AnyNamespace) (made : Made) (nodes : List (AnyDatanode D)) (dn : ℕ)
        (node : AnyDatanode D) (container : ℕ) → slice_get nodes dn ≡ Some node →
        was_closed (opening_of unseated namespace made nodes) dn container
        ≡ not (is_open ((node_in node).states container)) }
    ensures greatest { (unseated : UnseatedView) (namespace : AnyNamespace) (made : Made) (nodes : List (AnyDatanode D)) (dn : ℕ)
        (node : AnyDatanode D) (container : ℕ) → slice_get nodes dn ≡ Some node →
        was_greatest (opening_of unseated namespace made nodes) dn container ≡ (node_in node).greatest container }
    ensures replicas { (node : AnyDatanode D) (replica : AnyReplica) →
        Contains (opened_node node.blocks.held).replicas replica →
        (replica.state ≡ (node_in node).states replica.container)
        × (replica.greatest ≡ (node_in node).greatest replica.container) }
    ensures applied { (node : AnyDatanode D) (container : ℕ) → 1 ≤ (node_in node).greatest container →
        Contains (opened_node node.blocks.held).replicas (record {
          container = container;
          state = (node_in node).states container;
          greatest = (node_in node).greatest container;
        }) }
    ensures containers { (unseated : UnseatedView) (namespace : AnyNamespace) (made : Made) (nodes : List (AnyDatanode D))
        (number : ℕ) → get (opening_of unseated namespace made nodes).containers number
        ≡ option_map opened_container (container_at made.containers number) }
{}

/// Where the blocks agree, and the journals of all datanodes told their bytes as they were loaded, an opening has the length
/// of a block that each datanode's row says.
pub fn each_row_has_the_length_of_its_block<D: Disk>()
    ensures { (all : AnyRows) (unseated : UnseatedView) (namespace : AnyNamespace) (made : Made) (disks : List (NodeDisks D))
        (nodes : List (AnyDatanode D)) (dn : ℕ) (node : AnyDatanode D) (block : AnyBlock) (row : AnyRow) →
        let see = (λ (d : D). seen (D.told d) (D.clock d) (D.image d) (D.faults d)) in
        All (λ (own : NodeDisks D). IsSome (D.told own.meta)) disks → AreNodesFrom see 0 disks nodes →
        BlocksAgree all (opening_of unseated namespace made nodes) (opening_bytes see nodes) →
        slice_get nodes dn ≡ Some node → (node_in node).rows block ≡ Some row →
        length_of (opening_of unseated namespace made nodes) [] block ≡ Some row.length }
{
    blocks_have_slots_of_their_own();
}

/// Where the blocks agree, and the journals of all datanodes told their bytes as they were loaded, an opening has the length of
/// a block that the bytes have which the disks had of it.
pub fn each_block_has_the_length_of_its_bytes<D: Disk>()
    ensures { (all : AnyRows) (unseated : UnseatedView) (namespace : AnyNamespace) (made : Made) (disks : List (NodeDisks D))
        (nodes : List (AnyDatanode D)) (block : AnyBlock) (dn count : ℕ) (content : List ℕ) →
        let see = (λ (d : D). seen (D.told d) (D.clock d) (D.image d) (D.faults d)) in
        All (λ (own : NodeDisks D). IsSome (D.told own.meta)) disks → AreNodesFrom see 0 disks nodes →
        BlocksAgree all (opening_of unseated namespace made nodes) (opening_bytes see nodes) →
        opening_bytes see nodes dn block ≡ Some content →
        length_of (opening_of unseated namespace made nodes) [] block ≡ Some count → count ≡ length content }
{
    blocks_have_slots_of_their_own();
}

/// Disks that tell their bytes are loaded as one opening: of the manager one last index, one greatest id and the same blocks
/// that are left, of the storage container manager one thing, and of the datanodes what says the same.
pub fn disks_have_one_opening<D: Disk>()
    ensures manager { (bytes : List ℕ) (bodies others : List (List ℕ)) (unseated other : UnseatedView) →
        IsJournal bytes bodies → IsLoaded bodies unseated → IsJournal bytes others → IsLoaded others other →
        (unseated.last_index ≡ other.last_index) × (unseated.greatest_id ≡ other.greatest_id)
        × (unseated.left ≡ other.left) }
    ensures scm { (given : ℕ) (disk : D) (scm other : AnyScm D) →
        let see = (λ (d : D). seen (D.told d) (D.clock d) (D.image d) (D.faults d)) in
        IsSome (D.told disk) → IsScmFrom see given disk scm → IsScmFrom see given disk other → scm.made ≡ other.made }
    ensures nodes { (all : List (NodeDisks D)) (nodes others : List (AnyDatanode D)) (unseated : UnseatedView)
        (namespace : AnyNamespace) (made : Made) →
        let see = (λ (d : D). seen (D.told d) (D.clock d) (D.image d) (D.faults d)) in
        All (λ (disks : NodeDisks D). IsSome (D.told disks.meta)) all →
        AreNodesFrom see 0 all nodes → AreNodesFrom see 0 all others →
        SayTheSame (opening_of unseated namespace made nodes) (opening_of unseated namespace made others)
        (opening_bytes see nodes) (opening_bytes see others) }
{
    a_disk_stands_for_one_node();
    a_disk_stands_for_one_thing();
    a_disk_loads_as_one_thing();
}

/// The bytes of a block that a disk of slots has stand beside the opening where the digests that are kept are theirs, and
/// only there.
pub fn bytes_that_are_intact_have_their_digests()
    ensures { (row : AnyRow) (slots content : List ℕ) →
        (intact_bytes row slots ≡ Some content)
        ↔ ((bytes_of row slots ≡ content) × HaveDigests row.length row.chunks slots) }
{}
