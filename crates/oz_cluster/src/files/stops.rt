//! What stops a transfer before its work, and how it says so.

ghost use Rattle.std.specs.Prelude.{◌≡◌, ◌⊎◌, ◌≤◌, ℕ, length, map, IfOk, IfErr};
ghost use Rattle.std.specs.String.{string_bytes};
ghost use Rattle.oz_cluster.specs.declared.files.stops.TransferStop.{TransferStop as AnyStop};
ghost use Rattle.oz_cluster.specs.files.Asked.{script_for};
ghost use Rattle.oz_cluster.specs.files.Given.{IsGiven, file_limit};
ghost use Rattle.oz_cluster.specs.files.Reading.{path_of};
ghost use Rattle.oz_cluster.specs.files.Stopped.{IsSo, IsUngiven, outcome_of, outcome_of_store, text_of};
ghost use Rattle.oz_cluster.specs.files.Words.{IsTransferOf, IsTransferWith, key_word};
ghost use Rattle.oz_cluster.specs.Streams.{TakesUpTo};
ghost use Rattle.oz_cluster.specs.declared.files.words.Way.TheVariants.{Put};
ghost use Rattle.oz_running.specs.Printed.{Says};
ghost use Rattle.oz_script.specs.lines.Numbered.{IsNumbered};
ghost use Rattle.oz_nodes.specs.declared.nodes.TheConstants.{FEWEST_NODES, MOST_NODES};
ghost use Rattle.oz_world.specs.Faults.{Rose};

use crate::files::asked::{Asked, script_for};
use crate::files::outcome::Outcome;
use crate::files::words::{Transfer, Way, WordsFault, read_transfer};
use crate::stop::say;
use crate::streams::{ReadFault, read_up_to};
use crate::texts;
use oz_fields::OutOfMemory;
use oz_names::Parts;
use oz_running::StoreFault;
use oz_script::Script;
use oz_world::{Sink, Source};
use std::alloc::Global;

/// The most bytes that a put takes.
pub const LONGEST_FILE: usize = 1_048_576;

/// What stops a transfer before its work.
#[derive(Clone, Copy, Debug, PartialEq, Eq)]
pub enum TransferStop {
    /// The place, from 1, of the first word that is wrong.
    Words { place: usize },
    Read,
    /// The source has more than `LONGEST_FILE` bytes.
    TooLong,
    /// The disks weren't loaded.
    Store { fault: StoreFault },
    OutOfMemory,
}

impl TransferStop {
    /// How the transfer ends.
    pub fn outcome(self) -> Outcome
        ensures { result ≡ outcome_of self }
    {
        match self {
            TransferStop::Words { .. } => Outcome::Words,
            TransferStop::Read => Outcome::Read,
            TransferStop::TooLong => Outcome::TooLong,
            TransferStop::Store { fault } => store_outcome(fault),
            TransferStop::OutOfMemory => Outcome::OutOfMemory,
        }
    }

    /// The line that is said.
    pub fn text(self, alloc: Global) -> Result<Vec<u8>, OutOfMemory>
        ensures { IfOk result (λ text. text.items ≡ text_of self) }
    {
        match self {
            TransferStop::Words { place } => texts::words_text(alloc, place),
            TransferStop::Read => Vec::from_slice(alloc, texts::read_fault_text().as_bytes()),
            TransferStop::TooLong => Vec::from_slice(alloc, texts::too_long_text().as_bytes()),
            TransferStop::Store { fault } => texts::store_text(alloc, fault),
            TransferStop::OutOfMemory => {
                Vec::from_slice(alloc, texts::out_of_memory_text().as_bytes())
            }
        }
    }
}

/// How a transfer ends whose disks weren't loaded.
fn store_outcome(fault: StoreFault) -> Outcome
    ensures { result ≡ outcome_of_store fault }
{
    match fault {
        StoreFault::Disk { .. } => Outcome::Disk,
        StoreFault::Damaged { .. } | StoreFault::Nodes { .. } | StoreFault::Ids { .. } => {
            Outcome::Damaged
        }
        StoreFault::OutOfMemory => Outcome::OutOfMemory,
    }
}

/// Says why a transfer was stopped, and answers how it ends.
pub fn say_transfer_stop<E: Sink>(alloc: Global, errors: &mut E, stop: TransferStop) -> Outcome
    ensures said { (why : AnyStop) × ((why ≡ stop) ⊎ (why ≡ TransferStop.OutOfMemory)) × (result ≡ outcome_of why)
        × Says (text_of why) (E.held errors.old) (E.held errors.new) (Rose (E.faults errors.old) (E.faults errors.new)) }
{
    let Ok(text) = stop.text(alloc) else {
        say(errors, texts::out_of_memory_text().as_bytes());
        return Outcome::OutOfMemory;
    };
    say(errors, &text);
    stop.outcome()
}

/// What a transfer begins with.
#[derive(Drop)]
pub struct Ready<'a> {
    pub asked: Asked<'a>,
    pub path: Parts<'a>,
    pub given: Vec<u8>,
    pub script: Script,
    pub nodes: u8,
    pub workers: u8,
}

/// Reads the words, and then for a put the source to its end.
pub fn begin_transfer<'a, S: Source>(
    alloc: Global,
    words: &'a [String],
    source: &mut S,
) -> Result<Ready<'a>, TransferStop>
    ensures words { IfOk result (λ ready. IsTransferWith (map string_bytes words.now) ready.asked.way
        (path_of ready.path) ready.nodes ready.workers) }
    ensures key { IfOk result (λ ready. ready.asked.key.now ≡ key_word (map string_bytes words.now)) }
    ensures nodes { IfOk result (λ ready. (FEWEST_NODES ≤ ready.nodes) × (ready.nodes ≤ MOST_NODES)) }
    ensures few { IfOk result (λ ready. (1 ≤ ready.workers) × (ready.workers ≤ 16)) }
    ensures given { IfOk result (λ ready. IsGiven ready.asked.way (S.left source.old) (S.left source.new)
        ready.given.items) }
    ensures size { IfOk result (λ ready. ready.asked.size ≡ length ready.given.items) }
    ensures script { IfOk result (λ ready.
        ready.script ≡ script_for ready.asked.way (path_of ready.path) ready.given.items) }
    ensures numbered { IfOk result (λ ready. IsNumbered ready.script) }
    ensures so { IfErr result (IsSo (map string_bytes words.now) (S.left source.old) (S.left source.new)
        (Rose (S.faults source.old) (S.faults source.new)) (λ fault. ⊥)) }
    ensures taken { TakesUpTo file_limit (S.left source.old) (S.left source.new) }

    // No source is read but for a put.
    ensures unread { (IsTransferOf Put (map string_bytes words.now) → ⊥) → source.new ≡ source.old }
{
    let Transfer {
        way,
        dir: _,
        key,
        path,
        nodes,
        workers,
    } = match read_transfer(alloc, words) {
        Ok(asked) => asked,
        Err(WordsFault::At { place }) => return Err(TransferStop::Words { place }),
        Err(WordsFault::OutOfMemory) => return Err(TransferStop::OutOfMemory),
    };
    let given = read_given(alloc, way, source)?;
    let Ok(script) = script_for(alloc, way, path, &given) else {
        return Err(TransferStop::OutOfMemory);
    };
    let size = given.len() as u64;
    Ok(Ready {
        asked: Asked { way, key, size },
        path,
        given,
        script,
        nodes,
        workers,
    })
}

/// The bytes that a put takes, which are all that the source has.
fn read_given<S: Source>(alloc: Global, way: Way, source: &mut S) -> Result<Vec<u8>, TransferStop>
    ensures given { IfOk result (λ given. IsGiven way (S.left source.old) (S.left source.new) given.items) }
    ensures so { IfErr result (IsUngiven way (S.left source.old) (S.left source.new)
        (Rose (S.faults source.old) (S.faults source.new))) }
    ensures taken { TakesUpTo file_limit (S.left source.old) (S.left source.new) }
    ensures unread { way ≡ Way.Get → source.new ≡ source.old }
{
    match way {
        Way::Put => match read_up_to(alloc, source, LONGEST_FILE + 1) {
            Ok(given) if given.len() <= LONGEST_FILE => Ok(given),
            Ok(_) => Err(TransferStop::TooLong),
            Err(ReadFault::Failed) => Err(TransferStop::Read),
            Err(ReadFault::OutOfMemory) => Err(TransferStop::OutOfMemory),
        },
        Way::Get => Ok(Vec::new(alloc)),
    }
}
