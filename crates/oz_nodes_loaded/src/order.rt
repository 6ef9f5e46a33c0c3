//! Loading in order: the storage container manager, then each datanode, and then the ids are compared.

ghost use Rattle.std.specs.Prelude.{◌≡◌, ◌≤◌, ◌<◌, ℕ, [], length, map, vec_len, vec_capacity, IfOk, IfErr};
ghost use Rattle.std.specs.List.{AllZip};
ghost use Rattle.oz_datanode.specs.Datanode.{node_in};
ghost use Rattle.oz_nodes.specs.declared.nodes.TheConstants.{FEWEST_NODES, MOST_NODES};
ghost use Rattle.oz_nodes_loaded.specs.Disks.{LeavesScm, LeavesNode};
ghost use Rattle.oz_nodes_loaded.specs.Ids.{AreBelow};
ghost use Rattle.oz_nodes_loaded.specs.Loads.{IsNodeFrom, IsScmFrom, AreNodesFrom};
ghost use Rattle.oz_nodes_loaded.specs.Refused.{IsSo};
ghost use Rattle.oz_nodes_loaded.specs.Steps.{Agrees, Disagrees, EndsWith, IsOfNode, IsOfScm};
ghost use Rattle.oz_world.specs.Disk.{seen};

use crate::fault::{StoreFault, of_node, of_scm};
use crate::ids::greatest_seen;
use crate::loaded::{LoadedNodes, RefusedNodes, disks_of, put_back};
use oz_datanode::{Datanode, NodeDisks};
use oz_scm::Scm;
use oz_world::Disk;
use std::alloc::Global;

/// Loads the storage container manager and then each datanode, whose number is its place, and compares their ids with
/// the next one that is granted. `greatest` is the greatest local id in any row of the manager, 0 for none. All disks
/// come back where it can't: those that were loaded as that left them, and those behind the fault as they were.
pub fn load_nodes<D: Disk>(
    alloc: Global,
    scm: D,
    nodes: Vec<NodeDisks<D>>,
    greatest: u64,
) -> Result<LoadedNodes<D>, RefusedNodes<D>>
    requires least { FEWEST_NODES ≤ length nodes.items }
    requires most { length nodes.items ≤ MOST_NODES }
    ensures scm { IfOk result (λ loaded.
        let see = (λ (d : D). seen (D.told d) (D.clock d) (D.image d) (D.faults d)) in
        IsScmFrom see (length nodes.items) scm loaded.scm) }
    ensures nodes { IfOk result (λ loaded.
        let see = (λ (d : D). seen (D.told d) (D.clock d) (D.image d) (D.faults d)) in
        AreNodesFrom see 0 nodes.items loaded.nodes.items) }
    ensures fresh { IfOk result (λ loaded.
        AreBelow greatest (map node_in loaded.nodes.items) loaded.scm.made.next_id) }

    // Why it can't, and what comes back.
    ensures so { IfErr result (λ refused.
        let see = (λ (d : D). seen (D.told d) (D.clock d) (D.image d) (D.faults d)) in
        IsSo see greatest scm nodes.items refused.scm refused.nodes.items refused.fault) }
    ensures scm_left { IfErr result (λ refused.
        let see = (λ (d : D). seen (D.told d) (D.clock d) (D.image d) (D.faults d)) in
        LeavesScm (length nodes.items) (see scm) (see refused.scm)) }
    ensures nodes_left { IfErr result (λ refused.
        let see = (λ (d : D). seen (D.told d) (D.clock d) (D.image d) (D.faults d)) in
        AllZip (LeavesNode see) nodes.items refused.nodes.items) }
{
    let given = nodes.len() as u8;
    let scm = match load_scm(alloc, scm, given) {
        Ok(scm) => scm,
        Err((scm, fault)) => return Err(RefusedNodes { scm, nodes, fault }),
    };
    let Ok(room) = Vec::with_capacity(alloc, nodes.len()) else {
        return Err(RefusedNodes {
            scm: scm.into_disk(),
            nodes,
            fault: StoreFault::OutOfMemory,
        });
    };
    match load_datanodes(alloc, room, nodes) {
        Ok((nodes, room)) => compared(scm, nodes, room, greatest),
        Err((nodes, fault)) => Err(RefusedNodes {
            scm: scm.into_disk(),
            nodes,
            fault,
        }),
    }
}

/// Loads the storage container manager.
fn load_scm<D: Disk>(alloc: Global, disk: D, given: u8) -> Result<Scm<D>, (D, StoreFault)>
    requires least { FEWEST_NODES ≤ given }
    requires most { given ≤ MOST_NODES }
    ensures scm { IfOk result (λ scm.
        let see = (λ (d : D). seen (D.told d) (D.clock d) (D.image d) (D.faults d)) in
        IsScmFrom see given disk scm) }
    ensures says { IfErr result (λ refused.
        let see = (λ (d : D). seen (D.told d) (D.clock d) (D.image d) (D.faults d)) in
        IsOfScm given refused.1 (see disk) (see refused.0)) }
    ensures left { IfErr result (λ refused.
        let see = (λ (d : D). seen (D.told d) (D.clock d) (D.image d) (D.faults d)) in
        LeavesScm given (see disk) (see refused.0)) }
{
    match Scm::load(alloc, disk, given) {
        Ok(scm) => Ok(scm),
        Err((disk, fault)) => Err((disk, of_scm(fault))),
    }
}

/// Loads the datanodes in their order, into a list that has room for them. With them comes the list that had their disks.
fn load_datanodes<D: Disk>(
    alloc: Global,
    room: Vec<Datanode<D>>,
    nodes: Vec<NodeDisks<D>>,
) -> Result<(Vec<Datanode<D>>, Vec<NodeDisks<D>>), (Vec<NodeDisks<D>>, StoreFault)>
    requires empty { room.items ≡ [] }
    requires enough { vec_len nodes ≤ vec_capacity room }
    requires few { vec_len nodes ≤ MOST_NODES }
    ensures nodes { IfOk result (λ loaded.
        let see = (λ (d : D). seen (D.told d) (D.clock d) (D.image d) (D.faults d)) in
        AreNodesFrom see 0 nodes.items loaded.0.items) }
    ensures emptied { IfOk result (λ loaded. loaded.1.items ≡ []) }
    ensures enough { IfOk result (λ loaded. vec_len loaded.0 ≤ vec_capacity loaded.1) }
    ensures ends { IfErr result (λ refused.
        let see = (λ (d : D). seen (D.told d) (D.clock d) (D.image d) (D.faults d)) in
        EndsWith see refused.1 nodes.items refused.0.items) }
    ensures left { IfErr result (λ refused.
        let see = (λ (d : D). seen (D.told d) (D.clock d) (D.image d) (D.faults d)) in
        AllZip (LeavesNode see) nodes.items refused.0.items) }
{
    let mut loaded = room;
    let mut behind = nodes;
    behind.reverse();
    while let Some(disks) = behind.pop() {
        match load_one(alloc, loaded.len() as u8, disks) {
            Ok(node) => loaded.push_reserved(node),
            Err((disks, fault)) => {
                behind.push_reserved(disks);
                return Err((put_back(loaded, behind), fault));
            }
        }
    }
    Ok((loaded, behind))
}

/// Loads one datanode.
fn load_one<D: Disk>(
    alloc: Global,
    dn: u8,
    disks: NodeDisks<D>,
) -> Result<Datanode<D>, (NodeDisks<D>, StoreFault)>
    ensures node { IfOk result (λ node.
        let see = (λ (d : D). seen (D.told d) (D.clock d) (D.image d) (D.faults d)) in
        IsNodeFrom see dn disks node) }
    ensures says { IfErr result (λ refused.
        let see = (λ (d : D). seen (D.told d) (D.clock d) (D.image d) (D.faults d)) in
        IsOfNode see dn refused.1 disks refused.0) }
    ensures left { IfErr result (λ refused.
        let see = (λ (d : D). seen (D.told d) (D.clock d) (D.image d) (D.faults d)) in
        LeavesNode see disks refused.0) }
{
    match Datanode::load(alloc, dn, disks) {
        Ok(node) => Ok(node),
        Err((disks, fault)) => Err((disks, of_node(dn, fault))),
    }
}

/// What was loaded, unless an id isn't below the next one.
fn compared<D: Disk>(
    scm: Scm<D>,
    nodes: Vec<Datanode<D>>,
    room: Vec<NodeDisks<D>>,
    greatest: u64,
) -> Result<LoadedNodes<D>, RefusedNodes<D>>
    requires empty { room.items ≡ [] }
    requires enough { vec_len nodes ≤ vec_capacity room }
    ensures agrees { IfOk result (λ loaded. Agrees greatest scm nodes.items loaded.scm loaded.nodes.items) }
    ensures not { IfErr result (λ refused.
        Disagrees greatest scm nodes.items refused.scm refused.nodes.items refused.fault) }
{
    let next = scm.next_id();
    let seen = greatest_seen(&nodes, greatest);
    if seen < next {
        return Ok(LoadedNodes { scm, nodes, room });
    }
    Err(RefusedNodes {
        scm: scm.into_disk(),
        nodes: disks_of(nodes, room),
        fault: StoreFault::Ids { next, seen },
    })
}
