//! The summary of a generated load.

ghost use Rattle.std.specs.Prelude.{◌≡◌, ◌+◌, ◌++◌, IfOk, OnOk, codes, length};
ghost use Rattle.std.specs.List.{sum_by};
ghost use Rattle.std.specs.FinMap.{len, values};
ghost use Rattle.oz_report.specs.Report.{is_told_kind, told_count};
ghost use Rattle.oz_report.specs.Summary.{amounts_text, asked_text, bytes_in, length_of, lines_text, snapshots_text, summary_text, tally_in, tally_of};

use crate::answers::push_text;
use oz_core::{Event, EventKind};
use oz_fields::{Name, OutOfMemory, Piece};
use oz_namespace::{Bucket, NameMap, Namespace};
use std::alloc::Global;

/// The name of the volume in which a generated load works.
const VOLUME: &[u8] = b"freon";

/// How many keys, bytes of keys and snapshots the buckets of a volume have.
#[derive(Clone, Copy, Debug, PartialEq, Eq)]
pub struct Tally {
    pub keys: u64,
    pub bytes: u64,
    pub snapshots: u64,
}

const NOTHING: Tally = Tally {
    keys: 0,
    bytes: 0,
    snapshots: 0,
};

/// What a run over the script that this number and count make, which has so many lines, prints of its story and of the namespace
/// behind it: three lines. Keys that a snapshot alone has don't count.
pub fn summary(
    alloc: Global,
    number: u64,
    count: u16,
    lines: u64,
    story: &[Event],
    namespace: &Namespace,
) -> Result<Vec<u8>, OutOfMemory>
    ensures { IfOk result (λ text. text.items
        ≡ summary_text number count lines (told_count story.now) (tally_of namespace.now (codes "freon"))) }
{
    let volume = Name::copy(alloc, VOLUME)?;
    let tally = volume_tally(namespace, &volume)?;
    summary_of_tally(alloc, number, count, lines, story, tally)
}

/// The same where it is known what the volume has.
pub fn summary_of_tally(
    alloc: Global,
    number: u64,
    count: u16,
    lines: u64,
    story: &[Event],
    tally: Tally,
) -> Result<Vec<u8>, OutOfMemory>
    ensures { IfOk result (λ text. text.items ≡ summary_text number count lines (told_count story.now) tally) }
{
    let told = told_in(story);
    let mut out = Vec::new(alloc);
    push_asked(alloc, &mut out, number, count)?;
    push_lines(alloc, &mut out, lines, told)?;
    push_amounts(alloc, &mut out, tally.keys, tally.bytes)?;
    push_snapshots(alloc, &mut out, tally.snapshots)?;
    Ok(out)
}

fn push_asked(alloc: Global, out: &mut Vec<u8>, number: u64, count: u16) -> Result<(), OutOfMemory>
    ensures { OnOk result (out.new.items ≡ out.old.items ++ asked_text number count) }
{
    push_text(out, &format!(in alloc; "freon {number} {count}\n")?)
}

fn push_lines(alloc: Global, out: &mut Vec<u8>, lines: u64, told: u64) -> Result<(), OutOfMemory>
    ensures { OnOk result (out.new.items ≡ out.old.items ++ lines_text lines told) }
{
    push_text(out, &format!(in alloc; "lines {lines} told {told}\n")?)
}

fn push_amounts(alloc: Global, out: &mut Vec<u8>, keys: u64, bytes: u64) -> Result<(), OutOfMemory>
    ensures { OnOk result (out.new.items ≡ out.old.items ++ amounts_text keys bytes) }
{
    push_text(out, &format!(in alloc; "keys {keys} bytes {bytes}")?)
}

fn push_snapshots(alloc: Global, out: &mut Vec<u8>, snapshots: u64) -> Result<(), OutOfMemory>
    ensures { OnOk result (out.new.items ≡ out.old.items ++ snapshots_text snapshots) }
{
    push_text(out, &format!(in alloc; " snapshots {snapshots}\n")?)
}

/// How many lines were told in the story.
fn told_in(story: &[Event]) -> u64
    ensures { result ≡ told_count story.now }
{
    let mut told: u64 = 0;
    for event in story {
        if is_told(&event.kind) {
            told += 1;
        }
    }
    told
}

/// Whether a line is told.
fn is_told(kind: &EventKind) -> bool
    ensures { result ≡ is_told_kind kind.now }
{
    match kind {
        EventKind::Told { .. } => true,
        _ => false,
    }
}

/// What the buckets of a volume have, nothing where there is no such volume. Where a sum passes a `u64` it answers as for want of
/// memory, since no memory holds so many keys.
pub fn volume_tally(namespace: &Namespace, volume: &Name) -> Result<Tally, OutOfMemory>
    ensures { IfOk result (λ tally. tally ≡ tally_of namespace.now volume.now) }
{
    match namespace.volumes.get(volume) {
        Some(buckets) => tally_in(buckets),
        None => Ok(NOTHING),
    }
}

/// What these buckets have.
fn tally_in(buckets: &NameMap<Bucket>) -> Result<Tally, OutOfMemory>
    ensures { IfOk result (λ tally. tally ≡ tally_in (values buckets.now)) }
{
    Ok(Tally {
        keys: keys_of_all(buckets)?,
        bytes: bytes_of_all(buckets)?,
        snapshots: snapshots_of_all(buckets)?,
    })
}

fn keys_of_all(buckets: &NameMap<Bucket>) -> Result<u64, OutOfMemory>
    ensures { IfOk result (λ keys. keys ≡ sum_by (λ bucket. len bucket.keys) (values buckets.now)) }
{
    let mut keys = 0;
    for bucket in buckets.values() {
        keys = plus(keys, bucket.keys.len() as u64)?;
    }
    Ok(keys)
}

fn bytes_of_all(buckets: &NameMap<Bucket>) -> Result<u64, OutOfMemory>
    ensures { IfOk result (λ bytes. bytes ≡ sum_by bytes_in (values buckets.now)) }
{
    let mut bytes = 0;
    for bucket in buckets.values() {
        bytes = plus(bytes, bytes_in(bucket)?)?;
    }
    Ok(bytes)
}

fn snapshots_of_all(buckets: &NameMap<Bucket>) -> Result<u64, OutOfMemory>
    ensures { IfOk result (λ snapshots. snapshots ≡ sum_by (λ bucket. length bucket.snapshots) (values buckets.now)) }
{
    let mut snapshots = 0;
    for bucket in buckets.values() {
        snapshots = plus(snapshots, bucket.snapshots.len() as u64)?;
    }
    Ok(snapshots)
}

/// How many bytes the keys of a bucket have.
fn bytes_in(bucket: &Bucket) -> Result<u64, OutOfMemory>
    ensures { IfOk result (λ bytes. bytes ≡ bytes_in bucket.now) }
{
    let mut bytes = 0;
    for pieces in bucket.keys.values() {
        bytes = plus(bytes, length_of(pieces.items())?)?;
    }
    Ok(bytes)
}

/// How many bytes the pieces of a key have.
fn length_of(pieces: &[Piece]) -> Result<u64, OutOfMemory>
    ensures { IfOk result (λ length. length ≡ length_of pieces.now) }
{
    let mut length = 0;
    for piece in pieces {
        length = plus(length, piece.length as u64)?;
    }
    Ok(length)
}

fn plus(one: u64, other: u64) -> Result<u64, OutOfMemory>
    ensures { IfOk result (λ sum. sum ≡ one + other) }
{
    one.checked_add(other).ok_or(OutOfMemory)
}
