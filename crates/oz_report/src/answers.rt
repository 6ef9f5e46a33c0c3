//! What lines are told, as the report has it.

ghost use Rattle.std.specs.Prelude.{◌≡◌, ◌++◌, OnOk, decimal};
ghost use Rattle.oz_report.specs.Report.{answer_text, values_text, bytes_text, counts_text, list_text, states_text};
ghost use Rattle.oz_report.specs.Report.{told_text};

use oz_fields::{Name, OutOfMemory};
use oz_requests::{Answer, Counts, Values};
use sha2::{Digest, Sha256};
use std::alloc::Global;

pub fn push_text(out: &mut Vec<u8>, text: &str) -> Result<(), OutOfMemory>
    ensures { OnOk result (out.new.items ≡ out.old.items ++ text.now) }
{
    out.extend_from_slice(text.as_bytes())
}

/// These words, and the number behind them.
fn push_number(
    alloc: Global,
    out: &mut Vec<u8>,
    words: &str,
    number: u64,
) -> Result<(), OutOfMemory>
    ensures { OnOk result (out.new.items ≡ out.old.items ++ words.now ++ decimal number) }
{
    push_text(out, words)?;
    push_text(out, &format!(in alloc; "{number}")?)
}

/// The answer of a line.
pub fn push_told(
    alloc: Global,
    out: &mut Vec<u8>,
    client: u16,
    line: u16,
    answer: &Answer,
) -> Result<(), OutOfMemory>
    ensures { OnOk result (out.new.items ≡ out.old.items ++ told_text client line answer.now) }
{
    push_text(out, &format!(in alloc; "t {client} {line} ")?)?;
    push_answer(alloc, out, answer)?;
    push_text(out, "\n")
}

/// Appends an answer as the report has it, without its line. Where there is no memory a part of it may stand there.
pub fn push_answer(alloc: Global, out: &mut Vec<u8>, answer: &Answer) -> Result<(), OutOfMemory>
    ensures { OnOk result (out.new.items ≡ out.old.items ++ answer_text answer.now) }
{
    match answer {
        Answer::Ok(values) => push_values(alloc, out, values),
        Answer::Code(code) => push_text(out, code.text()),
        Answer::NoPipeline => push_text(out, "NO_PIPELINE"),
        Answer::NoQuorum => push_text(out, "NO_QUORUM"),
        Answer::NoReplica { piece, .. } => {
            push_text(out, &format!(in alloc; "NO_REPLICA piece {piece}")?)
        }
        Answer::IdsSpent => push_text(out, "IDS_SPENT"),
        Answer::Unacknowledged => push_text(out, "UNACKNOWLEDGED"),
        Answer::ManagerStopped => push_text(out, "MANAGER_STOPPED"),
        Answer::ScmStopped => push_text(out, "SCM_STOPPED"),
        Answer::Held { dn } => push_number(alloc, out, "HELD dn ", u64::from(*dn)),
        Answer::NoSuchNode => push_text(out, "NO_SUCH_NODE"),
        Answer::NodeHalted { dn, count } => {
            push_number(alloc, out, "NODE_HALTED dn ", u64::from(*dn))?;
            push_number(alloc, out, " count ", *count)
        }
        Answer::NotOpen => push_text(out, "NOT_OPEN"),
        Answer::OutOfMemory => push_text(out, "OUT_OF_MEMORY"),
    }
}

fn push_values(alloc: Global, out: &mut Vec<u8>, values: &Values) -> Result<(), OutOfMemory>
    ensures { OnOk result (out.new.items ≡ out.old.items ++ values_text values.now) }
{
    match values {
        Values::Done => push_text(out, "OK"),
        Values::Length(count) => push_number(alloc, out, "OK ", *count),
        Values::Bytes(bytes) => push_bytes(alloc, out, bytes.items()),
        Values::Buckets(count) => push_number(alloc, out, "OK buckets ", u64::from(*count)),
        Values::Counts(counts) => push_counts(alloc, out, *counts),
        Values::Sessions(count) => push_number(alloc, out, "OK ", u64::from(*count)),
        Values::Keys(count) => push_number(alloc, out, "OK keys ", u64::from(*count)),
        Values::Names(names) => push_names(alloc, out, names.items()),
        Values::States(counts) => push_states(alloc, out, *counts),
    }
}

fn push_bytes(alloc: Global, out: &mut Vec<u8>, bytes: &[u8]) -> Result<(), OutOfMemory>
    ensures { OnOk result (out.new.items ≡ out.old.items ++ bytes_text bytes.now) }
{
    push_text(out, &format!(in alloc; "OK {} ", bytes.len())?)?;
    push_text(out, &hex::encode(alloc, Sha256::digest(bytes))?)
}

fn push_counts(alloc: Global, out: &mut Vec<u8>, counts: Counts) -> Result<(), OutOfMemory>
    ensures { OnOk result (out.new.items ≡ out.old.items ++ counts_text counts) }
{
    push_number(alloc, out, "OK keys ", u64::from(counts.keys))?;
    push_number(alloc, out, " sessions ", u64::from(counts.sessions))?;
    push_number(alloc, out, " snapshots ", u64::from(counts.snapshots))
}

fn push_names(alloc: Global, out: &mut Vec<u8>, names: &[Name]) -> Result<(), OutOfMemory>
    ensures { OnOk result (out.new.items ≡ out.old.items ++ list_text names.now) }
{
    push_text(out, &format!(in alloc; "OK {}", names.len())?)?;
    for name in names {
        out.push(b' ')?;
        out.extend_from_slice(name.bytes())?;
    }
    Ok(())
}

fn push_states(alloc: Global, out: &mut Vec<u8>, counts: [u32; 6]) -> Result<(), OutOfMemory>
    ensures { OnOk result (out.new.items ≡ out.old.items ++ states_text counts) }
{
    let [open, closing, quasi_closed, closed, deleting, deleted] = counts;
    push_number(alloc, out, "OK open ", u64::from(open))?;
    push_number(alloc, out, " closing ", u64::from(closing))?;
    push_number(alloc, out, " quasi_closed ", u64::from(quasi_closed))?;
    push_number(alloc, out, " closed ", u64::from(closed))?;
    push_number(alloc, out, " deleting ", u64::from(deleting))?;
    push_number(alloc, out, " deleted ", u64::from(deleted))
}
