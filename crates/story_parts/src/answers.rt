//! What lines are told.

use crate::items::list;
use crate::replies::{code, counts};
use crate::words::Words;
use oz_fields::{List, OutOfMemory};
use oz_requests::{Answer, Values};
use std::alloc::Global;

/// `ok`, or what stands behind it: `length 3`, `bytes abc`, `buckets 2`, `counts 1 2 3`, `sessions 1`, `keys 8`,
/// `names one,two`, `states 1 2 3 4 5 6`. Else the words of the report, and with `NO_REPLICA` the piece and the block.
pub fn answer(alloc: Global, words: &mut Words<'_>) -> Result<Answer, OutOfMemory> {
    match words.word() {
        "ok" => Ok(Answer::Ok(Values::Done)),
        "length" => Ok(Answer::Ok(Values::Length(words.u64()))),
        "bytes" => Ok(Answer::Ok(Values::Bytes(bytes(alloc, words)?))),
        "buckets" => Ok(Answer::Ok(Values::Buckets(words.u32()))),
        "counts" => Ok(Answer::Ok(Values::Counts(counts(words)))),
        "sessions" => Ok(Answer::Ok(Values::Sessions(words.u32()))),
        "keys" => Ok(Answer::Ok(Values::Keys(words.u32()))),
        "names" => Ok(Answer::Ok(Values::Names(list(alloc, words)?))),
        "states" => Ok(states(words)),
        other => Ok(failure(words, other)),
    }
}

/// The bytes of a word, none for `-`.
fn bytes(alloc: Global, words: &mut Words<'_>) -> Result<List<u8>, OutOfMemory> {
    let name = words.name(alloc)?;
    Ok(List::of(Vec::from_slice(alloc, name.bytes())?))
}

fn states(words: &mut Words<'_>) -> Answer {
    let open = words.u32();
    let closing = words.u32();
    let quasi_closed = words.u32();
    let closed = words.u32();
    let deleting = words.u32();
    let deleted = words.u32();
    Answer::Ok(Values::States([open, closing, quasi_closed, closed, deleting, deleted]))
}

fn failure(words: &mut Words<'_>, word: &str) -> Answer {
    match word {
        "NO_PIPELINE" => Answer::NoPipeline,
        "NO_QUORUM" => Answer::NoQuorum,
        "NO_REPLICA" => no_replica(words),
        "IDS_SPENT" => Answer::IdsSpent,
        "UNACKNOWLEDGED" => Answer::Unacknowledged,
        "MANAGER_STOPPED" => Answer::ManagerStopped,
        "SCM_STOPPED" => Answer::ScmStopped,
        "HELD" => Answer::Held { dn: words.u8() },
        "NO_SUCH_NODE" => Answer::NoSuchNode,
        "NODE_HALTED" => node_halted(words),
        "NOT_OPEN" => Answer::NotOpen,
        "OUT_OF_MEMORY" => Answer::OutOfMemory,
        other => Answer::Code(code(words, other)),
    }
}

fn no_replica(words: &mut Words<'_>) -> Answer {
    let piece = words.u16();
    let block = words.block();
    Answer::NoReplica { piece, block }
}

fn node_halted(words: &mut Words<'_>) -> Answer {
    let dn = words.u8();
    let count = words.u64();
    Answer::NodeHalted { dn, count }
}
