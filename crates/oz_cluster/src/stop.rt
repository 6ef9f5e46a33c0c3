//! What stops a run before its work, and how the run says so.

ghost use Rattle.std.specs.Prelude.{◌≡◌, ◌⊎◌, ◌≤◌, None, map, IfOk, IfErr};
ghost use Rattle.std.specs.String.{string_bytes};
ghost use Rattle.oz_world.specs.Faults.{Rose};
ghost use Rattle.oz_cluster.specs.declared.stop.Stop.{Stop};
ghost use Rattle.oz_cluster.specs.Stopped.{IsScriptOf, IsSo, Reads, status_of, status_of_store, text_of};
ghost use Rattle.oz_running.specs.Printed.{Says};
ghost use Rattle.oz_script.specs.lines.Numbered.{IsNumbered};
ghost use Rattle.oz_nodes.specs.declared.nodes.TheConstants.{FEWEST_NODES, MOST_NODES};
ghost use Rattle.oz_cluster.specs.Streams.{script_limit, TakesUpTo, IsReadThrough};
ghost use Rattle.oz_command.specs.command_line.Words.{IsRun, IsRunWith};

use crate::streams::{ReadFault, read_up_to, write_all};
use crate::texts;
use oz_command::{Words, read_words};
use oz_fields::OutOfMemory;
use oz_running::{Status, StoreFault};
use oz_script::{Cause, MOST_BYTES, Script, ScriptFault, parse};
use oz_world::{Sink, Source};
use std::alloc::Global;

/// One byte more than a script may have.
const SCRIPT_LIMIT: usize = MOST_BYTES + 1;

/// What stops a run before its work.
#[derive(Clone, Copy, Debug, PartialEq, Eq)]
pub enum Stop {
    /// The place, from 1, of the first word of the command line that is wrong.
    Words { place: usize },
    Read,
    /// The first line with a fault, from 1, and 0 for the script as a whole.
    Script { line: u64, cause: Cause },
    /// The disks weren't loaded.
    Store { fault: StoreFault },
    OutOfMemory,
}

impl Stop {
    /// How the run ends.
    pub fn status(self) -> Status
        ensures { result ≡ status_of self }
    {
        match self {
            Stop::Script { .. } => Status::Script,
            Stop::Words { .. } => Status::Words,
            Stop::Read => Status::Read,
            Stop::Store { fault } => store_status(fault),
            Stop::OutOfMemory => Status::OutOfMemory,
        }
    }

    /// The line that is written.
    pub fn text(self, alloc: Global) -> Result<Vec<u8>, OutOfMemory>
        ensures { IfOk result (λ text. text.items ≡ text_of self) }
    {
        match self {
            Stop::Script { line, cause } => texts::script_text(alloc, line, cause.text()),
            Stop::Words { place } => texts::words_text(alloc, place),
            Stop::Read => Vec::from_slice(alloc, texts::read_fault_text().as_bytes()),
            Stop::Store { fault } => texts::store_text(alloc, fault),
            Stop::OutOfMemory => Vec::from_slice(alloc, texts::out_of_memory_text().as_bytes()),
        }
    }
}

/// How a run ends whose disks weren't loaded.
fn store_status(fault: StoreFault) -> Status
    ensures { result ≡ status_of_store fault }
{
    match fault {
        StoreFault::Disk { .. } => Status::Disk,
        StoreFault::Damaged { .. } | StoreFault::Nodes { .. } | StoreFault::Ids { .. } => {
            Status::Damaged
        }
        StoreFault::OutOfMemory => Status::OutOfMemory,
    }
}

/// Writes a text, or as much of it as the sink takes.
pub fn say<K: Sink>(out: &mut K, text: &[u8])
    ensures said { Says text.now (K.held out.old) (K.held out.new) (Rose (K.faults out.old) (K.faults out.new)) }
    ensures never_falls { K.faults out.old ≤ K.faults out.new }
{
    match write_all(out, text) {
        Ok(()) => {}
        Err(_) => {}
    }
}

/// Writes why a run was stopped, and answers how it ends.
pub fn say_stop<K: Sink>(alloc: Global, out: &mut K, stop: Stop) -> Status
    ensures said { (why : Stop) × ((why ≡ stop) ⊎ (why ≡ Stop.OutOfMemory)) × (result ≡ status_of why)
        × Says (text_of why) (K.held out.old) (K.held out.new) (Rose (K.faults out.old) (K.faults out.new)) }
    ensures never_falls { K.faults out.old ≤ K.faults out.new }
{
    let Ok(text) = stop.text(alloc) else {
        say(out, texts::out_of_memory_text().as_bytes());
        return Status::OutOfMemory;
    };
    say(out, &text);
    stop.status()
}

/// What a run begins with.
#[derive(Drop)]
pub struct Begun {
    pub script: Script,
    pub nodes: u8,
    pub workers: u8,
}

/// Reads the words, and then the script to its end.
pub fn begin<S: Source>(alloc: Global, words: &[String], source: &mut S) -> Result<Begun, Stop>
    ensures words { IfOk result (λ begun. IsRunWith (map string_bytes words.now) begun.nodes begun.workers) }
    ensures nodes { IfOk result (λ begun. (FEWEST_NODES ≤ begun.nodes) × (begun.nodes ≤ MOST_NODES)) }
    ensures few { IfOk result (λ begun. (1 ≤ begun.workers) × (begun.workers ≤ 16)) }
    ensures script { IfOk result (λ begun. IsScriptOf (S.left source.old) begun.script) }
    ensures numbered { IfOk result (λ begun. IsNumbered begun.script) }
    ensures so { IfErr result (λ stop. IsSo (map string_bytes words.now) (S.left source.old)
        (Rose (S.faults source.old) (S.faults source.new)) (λ fault. ⊥) stop) }
    ensures through { IfOk result (λ _. IsReadThrough (S.left source.old) (S.left source.new)) }
    ensures reads { IfErr result (λ stop. Reads stop (S.left source.old) (S.left source.new)) }
    ensures taken { TakesUpTo script_limit (S.left source.old) (S.left source.new) }

    // Wrong words leave the source as it is.
    ensures unread { (IsRun (map string_bytes words.now) → ⊥) → source.new ≡ source.old }
    ensures never_falls { S.faults source.old ≤ S.faults source.new }
{
    let (nodes, workers) = match read_words(words) {
        Ok(Words::Run { nodes, workers, .. }) => (nodes, workers),
        Err(place) => return Err(Stop::Words { place }),
    };
    let text = match read_up_to(alloc, source, SCRIPT_LIMIT) {
        Ok(text) => text,
        Err(ReadFault::Failed) => return Err(Stop::Read),
        Err(ReadFault::OutOfMemory) => return Err(Stop::OutOfMemory),
    };
    match parse(alloc, &text) {
        Ok(script) => Ok(Begun {
            script,
            nodes,
            workers,
        }),
        Err(ScriptFault::At { line, cause }) => Err(Stop::Script { line, cause }),
        Err(ScriptFault::OutOfMemory) => Err(Stop::OutOfMemory),
    }
}
