//! A run over the disks of a store.

ghost use Rattle.std.specs.Prelude.{◌≡◌, ◌≤◌, [], All, length, map, vec_capacity, vec_len, IfOk, IfErr};
ghost use Rattle.std.specs.List.{list_any};
ghost use Rattle.oz_datanode.specs.Datanode.{is_halted};
ghost use Rattle.oz_running.specs.disk_run.Refused.{AreAtMostLoaded, IsRefusedFor, store_fault_of};
ghost use Rattle.oz_running.specs.disk_run.Reopens.{NodeReopens, ScmReopens};
ghost use Rattle.oz_running.specs.disk_run.StoreRun.{IsStoreRun};
ghost use Rattle.oz_running.specs.disk_run.Told.{left_by};
ghost use Rattle.oz_headline.specs.halts.Disks.{some_halted};
ghost use Rattle.oz_script.specs.lines.Numbered.{IsNumbered};
ghost use Rattle.oz_nodes.specs.declared.nodes.TheConstants.{FEWEST_NODES, MOST_NODES};
ghost use Rattle.oz_headline.specs.Loads.{disks_in};
ghost use Rattle.oz_world.specs.Disk.{seen};

use crate::disk_run::disks::{Disks, RefusedStore};
use crate::disk_run::loaded::run_loaded;
use crate::{Ran, Unstarted};
use oz_core::Event;
use oz_datanode::{Datanode, NodeDisks};
use oz_effects::a_batch_makes_a_body;
use oz_headline::{
    DiskName, LoadedNodes, RefusedNodes, StoreFault, all_disks_are_a_store, disks_of, load_nodes,
};
use oz_journal::LoadFault;
use oz_loaded::{load, parts_show_their_namespace, the_parts_are_the_whole};
use oz_script::Script;
use oz_world::{Disk, Gate};
use std::alloc::Global;
use std::sync::Wait;
use std::thread::Threads;

/// What a run leaves: what happened in it, whether a call on a node's disk failed, whether its work is done (all lines were
/// told, and nothing that was decided is left to be flushed), and the disks.
#[derive(Drop)]
pub struct StoreRan<D> {
    pub story: Vec<Event>,
    pub any_halted: bool,
    pub is_done: bool,
    pub disks: Disks<D>,
}

/// Runs the lines of a script over the disks of a store, by so many workers and a flusher on threads, and then by this
/// thread what they leave. First all disks are loaded: the manager's, the storage container manager's, and of each
/// datanode its journal and its slots; and no block id on one of them may be granted again. The run opens by all of
/// them, and writes to each. Where one of this can't be had, or memory ran out before the work, the disks come back as
/// loading left them, and nothing else was done.
pub fn run_over_disks<D: Disk + Send, W: Threads + Wait + Sync, G: Gate + Sync>(
    rt: &W,
    alloc: Global,
    gate: &G,
    script: &Script,
    disks: Disks<D>,
    workers: u8,
) -> Result<StoreRan<D>, RefusedStore<D>>
    requires numbered { IsNumbered script.now }
    requires some { 1 ≤ workers }
    requires few { workers ≤ 16 }
    requires least { FEWEST_NODES ≤ length disks.nodes.items }
    requires most { length disks.nodes.items ≤ MOST_NODES }
    ensures ran { IfOk result (λ ran. let see = (λ (d : D). seen (D.told d) (D.clock d) (D.image d) (D.faults d)) in
        IsStoreRun see script.now disks ran.disks ran.any_halted ran.story.items ran.is_done) }
    ensures refused { IfErr result (λ refused. let see = (λ (d : D). seen (D.told d) (D.clock d) (D.image d) (D.faults d)) in
        IsRefusedFor see disks refused.disks refused.fault) }
    ensures spared { IfErr result (λ refused. let see = (λ (d : D). seen (D.told d) (D.clock d) (D.image d) (D.faults d)) in
        AreAtMostLoaded see disks refused.disks) }
{
    a_batch_makes_a_body();
    the_parts_are_the_whole();
    parts_show_their_namespace();
    all_disks_are_a_store::<D>();
    let Disks {
        manager,
        scm,
        nodes,
    } = disks;
    let (unseated, flusher) = match load(alloc, manager) {
        Ok(loaded) => loaded,
        Err((manager, fault)) => {
            return Err(refused(manager, scm, nodes, fault_of(fault)));
        }
    };
    let LoadedNodes { scm, nodes, room } = match load_nodes(
        alloc,
        scm,
        nodes,
        unseated.greatest_id(),
    ) {
        Ok(loaded) => loaded,
        Err(RefusedNodes { scm, nodes, fault }) => {
            return Err(refused(flusher.into_journal().into_disk(), scm, nodes, fault));
        }
    };
    match run_loaded(
        rt, alloc, gate, script, unseated, flusher, scm, nodes, workers,
    ) {
        Ok(ran) => Ok(ran_over(ran, room)),
        Err((unstarted, _)) => Err(not_started(unstarted, room)),
    }
}

/// A fault of the manager's disk.
fn fault_of(fault: LoadFault) -> StoreFault
    ensures { result ≡ store_fault_of fault }
{
    match fault {
        LoadFault::Disk => StoreFault::Disk {
            name: DiskName::Manager,
        },
        LoadFault::Damaged { offset } => StoreFault::Damaged {
            name: DiskName::Manager,
            offset,
        },
        LoadFault::OutOfMemory => StoreFault::OutOfMemory,
    }
}

/// The disks of a run that didn't come to its work.
fn refused<D>(manager: D, scm: D, nodes: Vec<NodeDisks<D>>, fault: StoreFault) -> RefusedStore<D>
    ensures manager { result.disks.manager ≡ manager }
    ensures scm { result.disks.scm ≡ scm }
    ensures nodes { result.disks.nodes ≡ nodes }
    ensures fault { result.fault ≡ fault }
{
    RefusedStore {
        disks: Disks {
            manager,
            scm,
            nodes,
        },
        fault,
    }
}

/// The disks of a run whose work didn't start, since memory ran out. The list has room for those of the datanodes.
fn not_started<D: Disk>(unstarted: Unstarted<D>, room: Vec<NodeDisks<D>>) -> RefusedStore<D>
    requires empty { room.items ≡ [] }
    requires enough { vec_len unstarted.nodes ≤ vec_capacity room }
    ensures manager { result.disks.manager ≡ unstarted.journal.disk }
    ensures scm { result.disks.scm ≡ unstarted.scm.disk }
    ensures nodes { result.disks.nodes.items ≡ map disks_in unstarted.nodes.items }
    ensures fault { result.fault ≡ StoreFault.OutOfMemory }
{
    let Unstarted {
        journal,
        scm,
        nodes,
    } = unstarted;
    refused(
        journal.into_disk(),
        scm.into_disk(),
        disks_of(nodes, room),
        StoreFault::OutOfMemory,
    )
}

/// What a run leaves. The list has room for the disks of the datanodes.
fn ran_over<D: Disk>(ran: Ran<D>, room: Vec<NodeDisks<D>>) -> StoreRan<D>
    requires empty { room.items ≡ [] }
    requires enough { vec_len ran.nodes ≤ vec_capacity room }
    ensures story { result.story ≡ ran.story }
    ensures any_halted { result.any_halted ≡ some_halted ran.journal.stopped (left_by ran) }
    ensures is_done { result.is_done ≡ ran.is_done }
    ensures manager { result.disks.manager ≡ ran.journal.disk }
    ensures scm { result.disks.scm ≡ ran.scm.disk }
    ensures nodes { result.disks.nodes.items ≡ map disks_in ran.nodes.items }
    ensures scm_reopens { let see = (λ (d : D). seen (D.told d) (D.clock d) (D.image d) (D.faults d)) in
        ScmReopens see ran.scm.made.nodes ran.scm }
    ensures nodes_reopen { let see = (λ (d : D). seen (D.told d) (D.clock d) (D.image d) (D.faults d)) in
        All (NodeReopens see) ran.nodes.items }
{
    let Ran {
        story,
        journal,
        scm,
        nodes,
        is_done,
    } = ran;
    let stopped = journal.stopped();
    let scm_halted = scm.stopped();
    let node_halted = has_halted(&nodes);
    StoreRan {
        story,
        any_halted: stopped || scm_halted || node_halted,
        is_done,
        disks: Disks {
            manager: journal.into_disk(),
            scm: scm.into_disk(),
            nodes: disks_of(nodes, room),
        },
    }
}

/// Whether a call on a disk of one of these datanodes has failed. Of the others, what their journals tell stands for what
/// they hold.
fn has_halted<D: Disk>(nodes: &[Datanode<D>]) -> bool
    ensures halted { result ≡ list_any is_halted nodes.now }
    ensures reopen { let see = (λ (d : D). seen (D.told d) (D.clock d) (D.image d) (D.faults d)) in
        All (NodeReopens see) nodes.now }
{
    let mut any = false;
    for node in nodes {
        any = node.halted() || any;
    }
    any
}
