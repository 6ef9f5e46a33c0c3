//! The steps of a line.
//!
//! `line COMMAND` begins one, over four datanodes; `labelled COMMAND` one whose label is that which the last line left that
//! left one. Behind it stands what comes back, each with the step that is wanted then:
//!
//! - `start`, `reply REPLY`, `written MEMBER, MEMBER, MEMBER`, each of which is `put` or a refusal, `bytes BYTES`,
//!   `no-bytes`, `answered ok` and `answered NO_PIPELINE` come back;
//! - `asks REQUEST`, `writes BLOCK at MEMBERS from FIRST for LENGTH`, `reads PIECE`, `does COMMAND` and `told ANSWER` are
//!   steps, and `unfit` says that this can't come back;
//! - `leaves label` and `leaves nothing` stand at the end.

use crate::found::{Wrong, compared, judged, no_such, tell, tell_unread};
use crate::names::add_named;
use crate::parts::{add_request, add_told, refusal_of, reply_of};
use case_files::{Judged, Statement, bytes_of};
use oz_client::{Got, LineSteps, Step, Written};
use oz_command::{Command, command_of};
use oz_requests::{Answer, Values};
use oz_steps::Label;
use std::alloc::{AllocError, Global};

/// How many datanodes there are. Each pipeline has the datanode of its own number and the next two, going round.
const NODES: u8 = 4;

fn written_of(alloc: Global, words: &str, why: &mut String) -> Result<Got, Wrong> {
    let mut members = words.split(", ");
    let (Some(one), Some(two), Some(three), None) = (
        members.next(),
        members.next(),
        members.next(),
        members.next(),
    ) else {
        return no_such(words, why);
    };
    Ok(Got::Written(Written {
        answers: [
            refusal_of(alloc, one, why)?,
            refusal_of(alloc, two, why)?,
            refusal_of(alloc, three, why)?,
        ],
    }))
}

fn read_of(alloc: Global, words: &str, why: &mut String) -> Result<Got, Wrong> {
    match bytes_of(alloc, words)? {
        Some(bytes) => Ok(Got::Read(Some(bytes))),
        None => no_such(words, why),
    }
}

fn answered_of(words: &str, why: &mut String) -> Result<Got, Wrong> {
    match words {
        "ok" => Ok(Got::Answered(Answer::Ok(Values::Done))),
        "NO_PIPELINE" => Ok(Got::Answered(Answer::NoPipeline)),
        _ => no_such(words, why),
    }
}

/// What comes back with these words.
fn got_of(alloc: Global, word: &str, words: &str, why: &mut String) -> Result<Got, Wrong> {
    match word {
        "start" => Ok(Got::Start),
        "reply" => Ok(Got::Reply(reply_of(alloc, words, why)?)),
        "written" => written_of(alloc, words, why),
        "bytes" => read_of(alloc, words, why),
        "answered" => answered_of(words, why),
        _ => Ok(Got::Read(None)),
    }
}

/// Whether a row says what comes back.
fn comes_back(row: &Statement) -> bool {
    match row.word(0) {
        "start" | "no-bytes" => row.words.len() == 1,
        "reply" | "written" | "bytes" | "answered" => true,
        _ => false,
    }
}

/// Adds a step as it is compared.
fn add_step(text: &mut String, step: &Step) -> Result<(), AllocError> {
    match step {
        Step::Ask(request) => write!(text, "asks {request:?}"),
        Step::Write {
            block,
            members,
            first,
            length,
        } => {
            let [one, two, three] = *members;
            write!(
                text,
                "writes {}.{} at {one} {two} {three} from {first} for {length}",
                block.container, block.local
            )
        }
        Step::Read { piece } => {
            let block = piece.block;
            write!(
                text,
                "reads {}.{}:{}",
                block.container, block.local, piece.length
            )
        }
        Step::Admin(command) => write!(text, "does {:?}", Command::Admin(*command)),
        Step::Tell(answer) => write!(text, "told {answer:?}"),
    }
}

/// Puts the step behind what comes back in the place of the last, or that it can't come back now.
fn take_step(
    alloc: Global,
    steps: &mut LineSteps<'_>,
    came: &mut String,
    got: Got,
) -> Result<(), AllocError> {
    came.clear();
    if !steps.fits(&got) {
        return came.push_str("unfit");
    }
    add_step(came, &steps.next(alloc, got)?)
}

/// Adds an administrator's command as it is compared.
fn add_command(
    alloc: Global,
    text: &mut String,
    words: &str,
    why: &mut String,
) -> Result<(), Wrong> {
    match command_of(alloc, words.as_bytes())? {
        Some(command) => Ok(write!(text, "does {command:?}")?),
        None => no_such(words, why),
    }
}

/// Adds the wanted step of these words as it is compared.
fn add_wanted(
    alloc: Global,
    text: &mut String,
    row: &Statement,
    words: &str,
    why: &mut String,
) -> Result<(), Wrong> {
    match row.word(0) {
        "asks" => {
            text.push_str("asks ")?;
            add_request(alloc, text, words, why)
        }
        "told" => {
            text.push_str("told ")?;
            add_told(alloc, text, words, why)
        }
        "does" => add_command(alloc, text, words, why),
        "writes" | "reads" | "unfit" => {
            let all = row.words_from(alloc, 0)?;
            Ok(text.push_str(all.as_str())?)
        }
        other => no_such(other, why),
    }
}

/// A shown value with each name as its bytes, between quotes.
fn named(alloc: Global, shown: &str) -> Result<String, AllocError> {
    let mut text = String::new(alloc);
    add_named(&mut text, shown)?;
    Ok(text)
}

/// The wanted step as it is compared.
fn wanted(alloc: Global, row: &Statement, why: &mut String) -> Result<String, Wrong> {
    let words = row.words_from(alloc, 1)?;
    let mut shown = String::new(alloc);
    add_wanted(alloc, &mut shown, row, words.as_str(), why)?;
    Ok(named(alloc, shown.as_str())?)
}

/// The step that came last is the wanted one.
fn step_compared(
    alloc: Global,
    row: &Statement,
    came: &str,
    why: &mut String,
) -> Result<(), Wrong> {
    let wanted = wanted(alloc, row, why)?;
    let came = named(alloc, came)?;
    compared(wanted.as_str(), came.as_str(), why)
}

/// Takes what comes back.
fn take_got(
    alloc: Global,
    steps: &mut LineSteps<'_>,
    came: &mut String,
    row: &Statement,
    why: &mut String,
) -> Result<(), Wrong> {
    let words = row.words_from(alloc, 1)?;
    let got = got_of(alloc, row.word(0), words.as_str(), why)?;
    Ok(take_step(alloc, steps, came, got)?)
}

/// Goes through a row of a line: what comes back is taken, and a step is compared with the last.
fn go(
    alloc: Global,
    steps: &mut LineSteps<'_>,
    came: &mut String,
    row: &Statement,
    why: &mut String,
) -> Result<(), Wrong> {
    if comes_back(row) {
        take_got(alloc, steps, came, row, why)
    } else {
        step_compared(alloc, row, came.as_str(), why)
    }
}

/// Goes through a row of a line, and tells of it.
fn tell_row(
    alloc: Global,
    told: &mut Vec<String>,
    steps: &mut LineSteps<'_>,
    came: &mut String,
    row: &Statement,
) -> Result<(), AllocError> {
    let mut why = String::new(alloc);
    let found = go(alloc, steps, came, row, &mut why);
    tell(alloc, told, row, found, why.as_str())
}

fn begins(row: &Statement) -> bool {
    matches!(row.word(0), "line" | "labelled")
}

/// Goes through the rows of a line, and gives the one that says what it leaves, if there is one.
fn go_through<'a>(
    alloc: Global,
    told: &mut Vec<String>,
    steps: &mut LineSteps<'_>,
    rows: &'a [Statement],
) -> Result<Option<&'a Statement>, AllocError> {
    let mut came = String::new(alloc);
    for row in rows {
        if row.word(0) == "leaves" {
            return Ok(Some(row));
        }
        if begins(row) {
            return Ok(None);
        }
        tell_row(alloc, told, steps, &mut came, row)?;
    }
    Ok(None)
}

/// Tells whether a line leaves what a row says.
fn tell_left(
    alloc: Global,
    told: &mut Vec<String>,
    row: &Statement,
    is_label: bool,
) -> Result<(), AllocError> {
    let what = if is_label { "label" } else { "nothing" };
    let mut why = String::new(alloc);
    let found = compared(row.word(1), what, &mut why);
    tell(alloc, told, row, found, why.as_str())
}

/// Goes through the rows of a line of this command, and gives what it leaves.
fn judge_rows(
    alloc: Global,
    told: &mut Vec<String>,
    rows: &[Statement],
    command: &Command,
    label: Option<&Label>,
) -> Result<Option<Label>, AllocError> {
    let mut steps = LineSteps::new(alloc, command, NODES, label)?;
    let leaves = go_through(alloc, told, &mut steps, rows)?;
    let left = steps.label();
    if let Some(row) = leaves {
        tell_left(alloc, told, row, left.is_some())?;
    }
    Ok(left)
}

/// The command of a line, if its words say one.
fn command_in(alloc: Global, row: &Statement) -> Result<Option<Command>, AllocError> {
    let words = row.words_from(alloc, 1)?;
    command_of(alloc, words.as_bytes())
}

/// Tells that the words of a line say no command.
fn tell_no_command(
    alloc: Global,
    told: &mut Vec<String>,
    row: &Statement,
) -> Result<(), AllocError> {
    let words = row.words_from(alloc, 1)?;
    tell_unread(alloc, told, row, words.as_str())
}

/// Goes through a line, whose statement is the first, and gives what it leaves.
fn judge_line(
    alloc: Global,
    told: &mut Vec<String>,
    rows: &[Statement],
    label: Option<&Label>,
) -> Result<Option<Label>, AllocError> {
    let Some((first, rows)) = rows.split_first() else {
        return Ok(None);
    };
    match command_in(alloc, first)? {
        Some(command) => judge_rows(alloc, told, rows, &command, label),
        None => {
            tell_no_command(alloc, told, first)?;
            Ok(None)
        }
    }
}

/// The rows that belong to no line.
fn tell_strays(
    alloc: Global,
    told: &mut Vec<String>,
    case: &[Statement],
) -> Result<(), AllocError> {
    let mut is_over = true;
    for row in case {
        if begins(row) {
            is_over = false;
        } else if is_over {
            tell_unread(alloc, told, row, row.word(0))?;
        } else {
            is_over = row.word(0) == "leaves";
        }
    }
    Ok(())
}

/// Goes through the line that begins at a place, and keeps the label that it leaves, if it does.
fn judge_from(
    alloc: Global,
    told: &mut Vec<String>,
    label: &mut Option<Label>,
    rows: &[Statement],
) -> Result<(), AllocError> {
    let is_labelled = rows.first().is_some_and(|row| row.word(0) == "labelled");
    let given = if is_labelled { label.as_ref() } else { None };
    let left = judge_line(alloc, told, rows, given)?;
    if left.is_some() {
        *label = left;
    }
    Ok(())
}

/// Judges a case of steps.
pub fn judge_steps(alloc: Global, case: &[Statement]) -> Result<Judged, AllocError> {
    let mut told = Vec::new(alloc);
    let mut label: Option<Label> = None;
    let rows = case.get(1..).unwrap_or(&[]);
    tell_strays(alloc, &mut told, rows)?;
    for place in 0..rows.len() {
        if begins(&rows[place]) {
            judge_from(alloc, &mut told, &mut label, &rows[place..])?;
        }
    }
    Ok(judged(told))
}
