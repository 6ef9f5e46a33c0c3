//! What the story of a run tells.

ghost use Rattle.std.specs.Prelude.{◌≡◌, ◌≤◌, ◌+◌, ℕ, Some, length, slice_get, IfOk, IfErr};
ghost use Rattle.oz_core.specs.declared.event.Node.TheVariants.{Scm as ScmNode};
ghost use Rattle.oz_core.specs.Seats.{first_worker_seat};
ghost use Rattle.oz_datanode.specs.Datanode.{State as AnyDatanode};
ghost use Rattle.oz_kept.specs.reopened.Left.{NumbersAreApart};
ghost use Rattle.oz_running.specs.Given.{JournalIsGiven};
ghost use Rattle.oz_running.specs.disk_run.Told.{IsOpened, IsTold, other_nodes};
ghost use Rattle.oz_headline.specs.halts.Nodes.{AreCounted};
ghost use Rattle.oz_script.specs.lines.Numbered.{IsNumbered};
ghost use Rattle.oz_headline.specs.NodeSeat.{NumbersAreOld};
ghost use Rattle.oz_nodes.specs.declared.nodes.TheConstants.{FEWEST_NODES, MOST_NODES};
ghost use Rattle.oz_headline.specs.Opens.{Opens};
ghost use Rattle.oz_headline.specs.Seated.{ArePartsOf};
ghost use Rattle.oz_worker.specs.servers.Begun.{ScmStands};
ghost use Rattle.oz_world.specs.Disk.{seen};

use crate::{Ran, Unstarted, run_lines};
use oz_buffer::Opened;
use oz_datanode::Datanode;
use oz_fields::OutOfMemory;
use oz_flusher::{Flusher, Mounted, the_flusher_alone_tells, what_is_taken_was_decided};
use oz_headline::{
    a_loaded_datanode_stands, halts_of_all_nodes_are_named,
    the_story_keeps_the_headline_of_all_disks,
};
use oz_loaded::Unseated;
use oz_locks::Loaded;
use oz_scm::Scm;
use oz_script::Script;
use oz_world::{Disk, Gate};
use std::alloc::Global;
use std::sync::Wait;
use std::thread::Threads;

/// Runs the lines of a script over what these types name, and over the other nodes as they were loaded.
pub(crate) fn run_told<
    D: Disk + Send,
    O: Opened + Send + Sync,
    L: Loaded + Send + Sync,
    M: Mounted + Send + Sync,
    W: Threads + Wait + Sync,
    G: Gate + Sync,
>(
    rt: &W,
    alloc: Global,
    gate: &G,
    script: &Script,
    unseated: Unseated,
    flusher: Flusher<D>,
    scm: Scm<D>,
    nodes: Vec<Datanode<D>>,
    workers: u8,
) -> Result<Ran<D>, (Unstarted<D>, OutOfMemory)>
    requires opens { Opens O.coherent O.opening O.bytes L.rows L.last_index L.coherent L.keeps }
    requires parts { ArePartsOf L.rows L.last_index unseated.parts }
    requires last_index { unseated.last_index ≡ O.opening.last_index }
    requires script { script.now ≡ O.script }
    requires numbered { IsNumbered O.script }
    requires some { 1 ≤ workers }
    requires few { workers ≤ 16 }
    requires scm { ScmStands O.opening (O.faults ScmNode) scm (D.faults scm.disk) }
    requires count { length nodes.items ≡ length O.opening.nodes }
    requires least { FEWEST_NODES ≤ length nodes.items }
    requires most { length nodes.items ≤ MOST_NODES }
    requires nodes { (dn : ℕ) (node : AnyDatanode D) → slice_get nodes.items dn ≡ Some node →
        IsOpened D.told D.clock D.image D.faults O.coherent O.opening O.bytes dn node }
    requires counted { AreCounted D.faults O.faults (other_nodes scm nodes.items) }
    requires old { O.coherent → NumbersAreOld O.opening }
    requires apart { O.coherent → NumbersAreApart O.opening }
    requires journal { JournalIsGiven D.told D.clock D.image D.faults O.coherent O.bodies M.disk flusher }
    ensures told { IfOk result (λ ran. let see = (λ (d : D). seen (D.told d) (D.clock d) (D.image d) (D.faults d)) in
        IsTold see O.coherent O.opening O.bytes O.bodies O.script O.faults M.disk L.rows (first_worker_seat + workers)
        (other_nodes scm nodes.items) ran) }
    ensures journal { IfErr result (λ refused. refused.0.journal ≡ flusher) }
    ensures scm { IfErr result (λ refused. refused.0.scm ≡ scm) }
    ensures nodes { IfErr result (λ refused. refused.0.nodes.items ≡ nodes.items) }
{
    the_story_keeps_the_headline_of_all_disks::<D, O, M>();
    halts_of_all_nodes_are_named::<D, O, M>();
    the_flusher_alone_tells::<O>();
    what_is_taken_was_decided::<O>();
    a_loaded_datanode_stands::<D, O>();
    run_lines::<D, O, L, M, W, G>(
        rt, alloc, gate, script, unseated, flusher, scm, nodes, workers,
    )
}
