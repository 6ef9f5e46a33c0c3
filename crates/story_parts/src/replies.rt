//! Replies and refusals.

use crate::items::list;
use crate::words::Words;
use oz_core::PutRefusal;
use oz_fields::OutOfMemory;
use oz_names::Code;
use oz_requests::{Counts, Reply};
use std::alloc::Global;

const CODES: [Code; 24] = [
    Code::VolumeNotFound,
    Code::VolumeAlreadyExists,
    Code::VolumeNotEmpty,
    Code::BucketNotFound,
    Code::BucketAlreadyExists,
    Code::BucketNotEmpty,
    Code::ContainsSnapshot,
    Code::KeyNotFound,
    Code::KeyAlreadyExists,
    Code::InvalidKeyName,
    Code::InvalidVolumeName,
    Code::InvalidBucketName,
    Code::SnapshotNotFound,
    Code::SnapshotAlreadyExists,
    Code::InvalidSnapshotName,
    Code::BucketLimit,
    Code::BucketFull,
    Code::SnapshotLimit,
    Code::SessionFull,
    Code::NumbersSpent,
    Code::InvalidBlock,
    Code::QuotaExceeded,
    Code::NoSuchMultipartUploadError,
    Code::InvalidPart,
];

/// The code that is printed so.
pub fn code(words: &mut Words<'_>, word: &str) -> Code {
    for code in CODES {
        if code.text() == word {
            return code;
        }
    }
    words.refuse();
    Code::VolumeNotFound
}

pub fn counts(words: &mut Words<'_>) -> Counts {
    let keys = words.u32();
    let sessions = words.u32();
    let snapshots = words.u32();
    Counts {
        keys,
        sessions,
        snapshots,
    }
}

/// `done`, `count 2`, `counts 1 2 3`, `names vol,buc`, `session 1`, `granted 5.6 0`, `pieces 5.6:3`, or a code.
pub fn reply(alloc: Global, words: &mut Words<'_>) -> Result<Reply, OutOfMemory> {
    match words.word() {
        "done" => Ok(Reply::Done),
        "count" => Ok(Reply::Count(words.u32())),
        "counts" => Ok(Reply::Counts(counts(words))),
        "names" => Ok(Reply::Names(list(alloc, words)?)),
        "session" => Ok(Reply::Session(words.u64())),
        "granted" => Ok(granted(words)),
        "pieces" => Ok(Reply::Pieces(list(alloc, words)?)),
        other => Ok(Reply::Code(code(words, other))),
    }
}

fn granted(words: &mut Words<'_>) -> Reply {
    let block = words.block();
    let pipeline = words.u8();
    Reply::Granted(block, pipeline)
}

/// `stopped 0`, `full 65536 16384 268435456` or `not_open closing`.
pub fn refusal(words: &mut Words<'_>) -> PutRefusal {
    match words.word() {
        "stopped" => PutRefusal::Stopped { count: words.u64() },
        "full" => full(words),
        "not_open" => PutRefusal::NotOpen {
            state: words.state(),
        },
        _ => {
            words.refuse();
            PutRefusal::Stopped { count: 0 }
        }
    }
}

fn full(words: &mut Words<'_>) -> PutRefusal {
    let used = words.u64();
    let asked = words.u64();
    let capacity = words.u64();
    PutRefusal::Full {
        used,
        asked,
        capacity,
    }
}
