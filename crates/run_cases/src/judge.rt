//! A case of runs, one statement after another.

use crate::going::go;
use case_files::{Judged, Statement, statements, values_of};
use oz_world::OutOfMemory;
use run_parts::{Said, Stage, judge_law, take, want};
use std::alloc::Global;
use std::sync::Wait;
use std::thread::Threads;

/// `''` stands for a word of nothing.
fn meant(word: &str) -> &str {
    if word == "''" { "" } else { word }
}

/// The words of a run.
fn words_of(alloc: Global, words: &[String]) -> Result<Vec<String>, OutOfMemory> {
    let mut made = Vec::new(alloc);
    for word in words {
        made.push(String::from_str(alloc, meant(word.as_str()))?)?;
    }
    Ok(made)
}

/// `go WORDS` runs with these words, and has the plain programs judge the run. `go-unjudged WORDS` only runs.
fn run<R: Threads + Wait + Sync + AllocGlobal>(
    rt: &R,
    stage: &mut Stage,
    statement: &Statement,
    why: &mut String,
) -> Result<Said, OutOfMemory> {
    let words = words_of(rt.alloc(), statement.words.get(1..).unwrap_or(&[]))?;
    go(rt, stage, &words)?;
    if statement.word(0) == "go" {
        judge_law(rt.alloc(), stage, why)
    } else {
        Ok(Said::Well)
    }
}

/// Whether a statement has a block and isn't one of those that may.
fn has_odd_block(statement: &Statement) -> bool {
    let may_have = match statement.word(0) {
        "script" | "text" | "client" | "seats" | "when" => true,
        "script-bytes" | "disk" | "holds" | "starts" => {
            statement
                .words
                .last()
                .is_some_and(|word| word.as_str() == "bodies")
        }
        _ => false,
    };
    !may_have && !statement.block.is_empty()
}

/// What one statement comes to. What differs is added to the text.
fn step<R: Threads + Wait + Sync + AllocGlobal>(
    rt: &R,
    stage: &mut Stage,
    statement: &Statement,
    why: &mut String,
) -> Result<Said, OutOfMemory> {
    if has_odd_block(statement) {
        return Ok(Said::Unread);
    }
    if matches!(statement.word(0), "go" | "go-unjudged") {
        return run(rt, stage, statement, why);
    }
    match take(rt.alloc(), stage, statement)? {
        Some(said) => Ok(said),
        None => want(rt.alloc(), stage, statement, why),
    }
}

/// Tells of a line that differs.
fn tell(alloc: Global, judged: &mut Judged, line: u64, why: &str) -> Result<(), OutOfMemory> {
    let text = format!(in alloc; "line {line}: {why}")?;
    judged.differs.push(text)?;
    Ok(())
}

/// Notes what a statement came to.
fn note(
    alloc: Global,
    judged: &mut Judged,
    line: u64,
    said: Said,
    why: &str,
) -> Result<(), OutOfMemory> {
    match said {
        Said::Well => Ok(()),
        Said::Last => {
            judged.is_last = true;
            Ok(())
        }
        Said::Unread => tell(alloc, judged, line, "it can't be read"),
        Said::Differs => tell(alloc, judged, line, why),
    }
}

/// Goes through a statement, and notes under this line what it came to.
fn step_noted<R: Threads + Wait + Sync + AllocGlobal>(
    rt: &R,
    stage: &mut Stage,
    judged: &mut Judged,
    statement: &Statement,
    line: u64,
) -> Result<(), OutOfMemory> {
    let mut why = String::new(rt.alloc());
    let said = step(rt, stage, statement, &mut why)?;
    note(rt.alloc(), judged, line, said, why.as_str())
}

/// Whether the number of `when NUMBER VALUES` is one of the values, and nothing where they can't be read.
fn is_when(alloc: Global, statement: &Statement) -> Result<Option<bool>, OutOfMemory> {
    let values = values_of(alloc, statement.words.get(2..).unwrap_or(&[]))?;
    match (values, statement.number(1)) {
        (Some(values), Some(number)) => Ok(Some(values.contains(&number))),
        _ => Ok(None),
    }
}

/// The statements of a block.
fn inner(alloc: Global, statement: &Statement) -> Result<Vec<Statement>, OutOfMemory> {
    let text = statement.text(alloc)?;
    statements(alloc, text.as_str())
}

/// Goes through the statements of a block.
fn step_inner<R: Threads + Wait + Sync + AllocGlobal>(
    rt: &R,
    stage: &mut Stage,
    judged: &mut Judged,
    statement: &Statement,
) -> Result<(), OutOfMemory> {
    for one in &inner(rt.alloc(), statement)? {
        let line = statement.line.saturating_add(one.line);
        step_noted(rt, stage, judged, one, line)?;
    }
    Ok(())
}

/// Goes through the statements of a block, where its condition holds.
fn step_when<R: Threads + Wait + Sync + AllocGlobal>(
    rt: &R,
    stage: &mut Stage,
    judged: &mut Judged,
    statement: &Statement,
) -> Result<(), OutOfMemory> {
    match is_when(rt.alloc(), statement)? {
        None => note(rt.alloc(), judged, statement.line, Said::Unread, ""),
        Some(true) => step_inner(rt, stage, judged, statement),
        Some(false) => Ok(()),
    }
}

/// Goes through the statements of a case in turn.
fn step_all<R: Threads + Wait + Sync + AllocGlobal>(
    rt: &R,
    stage: &mut Stage,
    judged: &mut Judged,
    case: &[Statement],
) -> Result<(), OutOfMemory> {
    for statement in case {
        if statement.word(0) == "when" {
            step_when(rt, stage, judged, statement)?;
        } else {
            step_noted(rt, stage, judged, statement, statement.line)?;
        }
    }
    Ok(())
}

/// Goes through a case, and notes too where it made no run.
fn judge_all<R: Threads + Wait + Sync + AllocGlobal>(
    rt: &R,
    judged: &mut Judged,
    case: &[Statement],
) -> Result<(), OutOfMemory> {
    let mut stage = Stage::new(rt.alloc());
    step_all(rt, &mut stage, judged, case)?;
    if stage.left.is_none() {
        let why = String::from_str(rt.alloc(), "no run was made")?;
        judged.differs.push(why)?;
    }
    Ok(())
}

/// Judges a case: its statements in turn, each of which may differ.
pub fn judge<R: Threads + Wait + Sync + AllocGlobal>(
    rt: &R,
    case: &[Statement],
) -> Result<Judged, OutOfMemory> {
    let mut judged = Judged {
        differs: Vec::new(rt.alloc()),
        is_last: false,
    };
    judge_all(rt, &mut judged, case)?;
    Ok(judged)
}
