//! A run over what was loaded.

ghost use Rattle.std.specs.Prelude.{◌≡◌, ◌≤◌, ◌+◌, ℕ, List, false, length, map, Some, IfOk, IfErr};
ghost use Rattle.oz_core.specs.Seats.{first_worker_seat};
ghost use Rattle.oz_datanode.specs.Datanode.{node_in};
ghost use Rattle.oz_running.specs.disk_run.Disks.{counts_loaded};
ghost use Rattle.oz_running.specs.disk_run.Shown.{ShowStore, bodies_shown, opening_shown, rows_shown};
ghost use Rattle.oz_running.specs.disk_run.Told.{IsLoadedOf, IsTold, WereLoaded, other_nodes};
ghost use Rattle.oz_script.specs.lines.Numbered.{IsNumbered};
ghost use Rattle.oz_nodes.specs.declared.nodes.TheConstants.{FEWEST_NODES, MOST_NODES};
ghost use Rattle.oz_headline.specs.Ids.{AreBelow};
ghost use Rattle.oz_headline.specs.store_opening.Openings.{opening_bytes};
ghost use Rattle.oz_world.specs.Disk.{seen, IsStable};

use crate::disk_run::told::run_told;
use crate::{Ran, Unstarted};
use oz_datanode::Datanode;
use oz_effects::a_batch_makes_a_body;
use oz_fields::OutOfMemory;
use oz_flusher::{Flusher, a_journal_at_rest_stands};
use oz_headline::{
    a_loaded_scm_stands_for_the_opening, all_disks_are_a_store,
    loaded_datanodes_stand_for_the_opening,
};
use oz_loaded::{Unseated, the_parts_are_the_whole};
use oz_scm::Scm;
use oz_script::Script;
use oz_service::an_ordered_log_is_numbered;
use oz_world::{Disk, Gate};
use std::alloc::Global;
use std::marker::Brand;
use std::sync::Wait;
use std::thread::Threads;

/// Runs the lines of a script over nodes that were loaded, from what all of them show together: the manager by its parts and
/// the bytes of its disk, the others by what was loaded of them. Where memory runs out before the work, all come back, and
/// nothing was done.
pub(crate) fn run_loaded<D: Disk + Send, W: Threads + Wait + Sync, G: Gate + Sync>(
    rt: &W,
    alloc: Global,
    gate: &G,
    script: &Script,
    unseated: Unseated,
    flusher: Flusher<D>,
    scm: Scm<D>,
    nodes: Vec<Datanode<D>>,
    workers: u8,
) -> Result<Ran<D>, (Unstarted<D>, OutOfMemory)>
    requires loaded { IsLoadedOf (D.told flusher.disk) unseated }
    requires others { let see = (λ (d : D). seen (D.told d) (D.clock d) (D.image d) (D.faults d)) in
        WereLoaded see scm nodes.items }
    requires fresh { AreBelow unseated.greatest_id (map node_in nodes.items) scm.made.next_id }
    requires stable { (bytes : List ℕ) → D.told flusher.disk ≡ Some bytes →
        IsStable (D.image flusher.disk) (D.clock flusher.disk) bytes }
    requires running { flusher.stopped ≡ false }
    requires numbered { IsNumbered script.now }
    requires some { 1 ≤ workers }
    requires few { workers ≤ 16 }
    requires least { FEWEST_NODES ≤ length nodes.items }
    requires most { length nodes.items ≤ MOST_NODES }
    ensures told { IfOk result (λ ran. let see = (λ (d : D). seen (D.told d) (D.clock d) (D.image d) (D.faults d)) in
        let made = scm.made in
        IsTold see (ShowStore see unseated made nodes.items) (opening_shown unseated made nodes.items)
        (opening_bytes see nodes.items) (bodies_shown (D.told flusher.disk)) script.now
        (counts_loaded see (D.faults flusher.disk) (other_nodes scm nodes.items)) (see flusher.disk)
        (rows_shown unseated.parts) (first_worker_seat + workers) (other_nodes scm nodes.items) ran) }
    ensures journal { IfErr result (λ refused. refused.0.journal ≡ flusher) }
    ensures scm { IfErr result (λ refused. refused.0.scm ≡ scm) }
    ensures nodes { IfErr result (λ refused. refused.0.nodes.items ≡ nodes.items) }
{
    a_batch_makes_a_body();
    the_parts_are_the_whole();
    all_disks_are_a_store::<D>();
    a_journal_at_rest_stands::<D>();
    a_loaded_scm_stands_for_the_opening::<D>();
    loaded_datanodes_stand_for_the_opening::<D>();
    an_ordered_log_is_numbered();
    run_told::<D, Brand, Brand, Brand, W, G>(
        rt, alloc, gate, script, unseated, flusher, scm, nodes, workers,
    )
}
