//! The top call.

ghost use Rattle.std.specs.Prelude.{◌≡◌, ◌⊎◌, ◌≤◌, ℕ, [], map, false, true, length};
ghost use Rattle.std.specs.String.{string_bytes};
ghost use Rattle.oz_cluster.specs.Headline.{RunEnds};
ghost use Rattle.oz_cluster.specs.StatusCauses.{StatusCauses};
ghost use Rattle.oz_cluster.specs.Streams.{TakesUpTo, script_limit};
ghost use Rattle.oz_running.specs.Printed.{IsPrinted};
ghost use Rattle.oz_running.specs.Statuses.{status_number};
ghost use Rattle.oz_command.specs.command_line.Words.{IsRun, IsRunWith};
ghost use Rattle.oz_world.specs.Disk.{seen};
ghost use Rattle.oz_world.specs.Faults.{Rose};

use crate::stop::{Begun, Stop, begin, say, say_stop};
use crate::streams::write_all;
use crate::texts;
use oz_block::a_disk_stands_for_one_node;
use oz_command::words_of_a_run_have_no_fault;
use oz_core::Event;
use oz_loaded::a_disk_loads_as_one_thing;
use oz_report::text;
use oz_running::{
    Disks, RefusedStore, Status, StoreRan, a_halted_node_counted, all_are_told_by_count,
    run_over_disks,
};
use oz_scm::a_disk_stands_for_one_thing;
use oz_script::Script;
use oz_world::{Disk, Gate, Sink, Source};
use std::alloc::Global;
use std::sync::Wait;
use std::thread::Threads;

/// What a run leaves: the program's status, what happened, and the disks.
#[derive(Drop)]
pub struct Ended<D> {
    pub status: u8,
    pub story: Vec<Event>,
    pub disks: Disks<D>,
}

/// Writes the report of a story, and answers how a run ends whose work went so.
fn finish<K: Sink>(
    alloc: Global,
    out: &mut K,
    script: &Script,
    story: &[Event],
    is_done: bool,
    any_halted: bool,
) -> Status
    ensures printed { IsPrinted result script.now story.now (K.held out.old) (K.held out.new)
        (Rose (K.faults out.old) (K.faults out.new)) }
    ensures done { result ≡ Status.Done → any_halted ≡ false }
    ensures disk { result ≡ Status.Disk → any_halted ≡ true }
    ensures worked_off { (result ≡ Status.OutOfMemory) ⊎ (is_done ≡ true) }
    ensures never_falls { K.faults out.old ≤ K.faults out.new }
{
    let Ok(report) = text(alloc, script.lines.items().len() as u64, story) else {
        say(out, texts::out_of_memory_text().as_bytes());
        return Status::OutOfMemory;
    };
    if !is_done {
        say(out, &report);
        return Status::OutOfMemory;
    }
    let Ok(()) = write_all(out, &report) else {
        return Status::Unwritten;
    };
    if any_halted {
        Status::Disk
    } else {
        Status::Done
    }
}

/// What a run leaves that something stopped before its work.
fn ended_early<D>(alloc: Global, status: Status, disks: Disks<D>) -> Ended<D>
    ensures status { result.status ≡ status_number status }
    ensures story { result.story.items ≡ [] }
    ensures disks { result.disks ≡ disks }
{
    Ended {
        status: status.number(),
        story: Vec::new(alloc),
        disks,
    }
}

/// Runs a script over disks: its lines are asked, decided, made stable and told by as many threads as the words say, those of
/// one client one after another, and at last the report of all that happened is written. It writes to the disks of all
/// nodes, and to each only after it was loaded. Statuses and texts stand in docs/SCRIPT.md. Where the words are in their
/// grammar there are as many datanodes as they say. It waits for other threads.
pub fn run<W: Threads + Wait + Sync, S: Source, K: Sink, D: Disk + Send, G: Gate + Sync>(
    rt: &W,
    alloc: Global,
    words: &[String],
    source: &mut S,
    out: &mut K,
    disks: Disks<D>,
    gate: &G,
) -> Ended<D>
    requires nodes { (nodes workers : ℕ) → IsRunWith (map string_bytes words.now) nodes workers →
        length disks.nodes.items ≡ nodes }
    ensures one_run { RunEnds (λ disk. seen (D.told disk) (D.clock disk) (D.image disk) (D.faults disk))
        (map string_bytes words.now) (S.left source.old) (S.left source.new) disks result.disks
        (K.held out.old) (K.held out.new) (Rose (K.faults out.old) (K.faults out.new)) result.story.items
        (Rose (S.faults source.old) (S.faults source.new)) result.status }
    ensures causes { StatusCauses (λ disk. seen (D.told disk) (D.clock disk) (D.image disk) (D.faults disk))
        (map string_bytes words.now) (S.left source.old) disks result.disks
        (Rose (S.faults source.old) (S.faults source.new))
        (Rose (K.faults out.old) (K.faults out.new)) result.status }
    ensures taken { TakesUpTo script_limit (S.left source.old) (S.left source.new) }

    // Wrong words leave the source as it is.
    ensures unread { (IsRun (map string_bytes words.now) → ⊥) → source.new ≡ source.old }
{
    a_disk_loads_as_one_thing();
    a_disk_stands_for_one_node();
    a_disk_stands_for_one_thing();
    a_halted_node_counted::<D>();
    all_are_told_by_count();
    words_of_a_run_have_no_fault();
    let Begun {
        script,
        nodes: _,
        workers,
    } = match begin(alloc, words, source) {
        Ok(begun) => begun,
        Err(stop) => return ended_early(alloc, say_stop(alloc, out, stop), disks),
    };
    let ran = match run_over_disks(rt, alloc, gate, &script, disks, workers) {
        Ok(ran) => ran,
        Err(RefusedStore { disks, fault }) => {
            let stop = Stop::Store { fault };
            return ended_early(alloc, say_stop(alloc, out, stop), disks);
        }
    };
    let StoreRan {
        story,
        any_halted,
        is_done,
        disks,
    } = ran;
    let status = finish(alloc, out, &script, &story, is_done, any_halted);
    Ended {
        status: status.number(),
        story,
        disks,
    }
}
