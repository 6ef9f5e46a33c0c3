//! The call that puts a file into a key or gets one out.

ghost use Rattle.std.specs.Prelude.{◌≡◌, ℕ, [], map, length};
ghost use Rattle.std.specs.String.{string_bytes};
ghost use Rattle.oz_cluster.specs.declared.files.words.Way.{Way as AnyWay};
ghost use Rattle.oz_cluster.specs.declared.files.words.Way.TheVariants.{Get, Put};
ghost use Rattle.oz_cluster.specs.files.Causes.{TransferCauses};
ghost use Rattle.oz_cluster.specs.files.Given.{file_limit};
ghost use Rattle.oz_cluster.specs.files.Outcomes.{outcome_number};
ghost use Rattle.oz_cluster.specs.files.Streams.{stream};
ghost use Rattle.oz_cluster.specs.files.Transfers.{TransferEnds};
ghost use Rattle.oz_cluster.specs.files.Words.{IsTransferOf, IsTransferWith};
ghost use Rattle.oz_cluster.specs.Streams.{TakesUpTo};
ghost use Rattle.oz_command.specs.declared.paths.KeyPath.{KeyPath};
ghost use Rattle.oz_world.specs.Disk.{seen};
ghost use Rattle.oz_world.specs.Faults.{Rose};

use crate::files::ending::finish_transfer;
use crate::files::outcome::Outcome;
use crate::files::stops::{Ready, TransferStop, begin_transfer, say_transfer_stop};
use crate::top::Ended;
use oz_block::a_disk_stands_for_one_node;
use oz_loaded::a_disk_loads_as_one_thing;
use oz_running::{
    Disks, RefusedStore, StoreRan, a_halted_node_counted, a_put_names_its_key,
    all_disks_are_a_store, run_over_disks,
};
use oz_scm::a_disk_stands_for_one_thing;
use oz_world::{Disk, Gate, Sink, Source};
use std::alloc::Global;
use std::sync::Wait;
use std::thread::Threads;

/// What a transfer leaves that something stopped before its work.
fn ended_before<D>(alloc: Global, outcome: Outcome, disks: Disks<D>) -> Ended<D>
    ensures status { result.status ≡ outcome_number outcome }
    ensures story { result.story.items ≡ [] }
    ensures disks { result.disks ≡ disks }
{
    Ended {
        status: outcome.number(),
        story: Vec::new(alloc),
        disks,
    }
}

/// Puts all that a source has into a key, or writes the bytes of a key to a sink, by one line that is served over disks as
/// those of `run` are. What stops it, and an answer that isn't wanted, is said to `errors`. Words, statuses and texts stand
/// in docs/FILES.md. Where the words are in their grammar there are as many datanodes as they say. It waits for other
/// threads.
pub fn transfer<
    W: Threads + Wait + Sync,
    S: Source,
    K: Sink,
    E: Sink,
    D: Disk + Send,
    G: Gate + Sync,
>(
    rt: &W,
    alloc: Global,
    words: &[String],
    source: &mut S,
    out: &mut K,
    errors: &mut E,
    disks: Disks<D>,
    gate: &G,
) -> Ended<D>
    requires nodes { (way : AnyWay) (path : KeyPath) (nodes workers : ℕ) →
        IsTransferWith (map string_bytes words.now) way path nodes workers → length disks.nodes.items ≡ nodes }
    ensures one_transfer { TransferEnds (λ disk. seen (D.told disk) (D.clock disk) (D.image disk) (D.faults disk))
        (map string_bytes words.now) disks result.disks
        (stream (S.left source.old) (S.left source.new) (Rose (S.faults source.old) (S.faults source.new)))
        (stream (K.held out.old) (K.held out.new) (Rose (K.faults out.old) (K.faults out.new)))
        (stream (E.held errors.old) (E.held errors.new) (Rose (E.faults errors.old) (E.faults errors.new)))
        result.story.items result.status }
    ensures causes { TransferCauses (λ disk. seen (D.told disk) (D.clock disk) (D.image disk) (D.faults disk))
        (map string_bytes words.now) disks result.disks
        (stream (S.left source.old) (S.left source.new) (Rose (S.faults source.old) (S.faults source.new)))
        (stream (K.held out.old) (K.held out.new) (Rose (K.faults out.old) (K.faults out.new))) result.status }
    ensures taken { TakesUpTo file_limit (S.left source.old) (S.left source.new) }

    // Only a put reads the source, and only a get writes to the sink.
    ensures unread { (IsTransferOf Put (map string_bytes words.now) → ⊥) → source.new ≡ source.old }
    ensures unwritten { (IsTransferOf Get (map string_bytes words.now) → ⊥) → out.new ≡ out.old }
{
    a_disk_loads_as_one_thing();
    a_disk_stands_for_one_node();
    a_disk_stands_for_one_thing();
    a_halted_node_counted::<D>();
    all_disks_are_a_store::<D>();
    a_put_names_its_key();
    let Ready {
        asked,
        path: _,
        given: _,
        script,
        nodes: _,
        workers,
    } = match begin_transfer(alloc, words, source) {
        Ok(ready) => ready,
        Err(stop) => return ended_before(alloc, say_transfer_stop(alloc, errors, stop), disks),
    };
    let ran = match run_over_disks(rt, alloc, gate, &script, disks, workers) {
        Ok(ran) => ran,
        Err(RefusedStore { disks, fault }) => {
            let stop = TransferStop::Store { fault };
            return ended_before(alloc, say_transfer_stop(alloc, errors, stop), disks);
        }
    };
    let StoreRan {
        story,
        any_halted,
        is_done: _,
        disks,
    } = ran;
    let outcome = finish_transfer(alloc, asked, &story, any_halted, out, errors);
    Ended {
        status: outcome.number(),
        story,
        disks,
    }
}
