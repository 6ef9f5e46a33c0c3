//! Going through a case.

use crate::told::{Stuck, Told};
use crate::words::{answered, parted};
use case_files::{Judged, Statement};
use std::alloc::{AllocError, Global};

/// What a case is of.
pub trait Subject {
    /// Makes a call, and writes what comes of it.
    fn call(
        &mut self,
        alloc: Global,
        name: &str,
        words: &str,
        came: &mut String,
    ) -> Result<(), Stuck>;

    /// Whether a disk has failed, or nothing is loaded.
    fn is_stopped(&self) -> bool;

    /// Writes what is held. Who can't see that writes what a case says.
    fn show(&self, alloc: Global, said: &str, came: &mut String) -> Result<(), Stuck>;

    /// In how many ways a stop may leave its disks.
    fn images(&self) -> u8;

    /// Writes what is held on them once a stop left them in one of these ways.
    fn show_left(&mut self, alloc: Global, image: u8, came: &mut String) -> Result<(), Stuck>;
}

/// What is held by the steps that were gone, and what would be by the last one; and how many are gone at most.
#[derive(Drop)]
struct Way {
    before: String,
    after: String,
    most: usize,
}

/// Judges a case, whose first statement is a word alone.
pub fn judge<S: Subject>(
    alloc: Global,
    subject: &mut S,
    case: &[Statement],
) -> Result<Judged, AllocError> {
    let mut told = Told::new(alloc);
    let mut way = Way {
        before: String::new(alloc),
        after: String::new(alloc),
        most: usize::MAX,
    };
    for row in case {
        told.line = row.line;
        judge_row(subject, &mut told, &mut way, row)?;
    }
    Ok(told.judged())
}

fn judge_row<S: Subject>(
    subject: &mut S,
    told: &mut Told,
    way: &mut Way,
    row: &Statement,
) -> Result<(), AllocError> {
    match (row.word(0), row.words.len(), row.block.len()) {
        ("journal" | "datanode", 1, 0) => Ok(()),
        ("calls", 1, _) => make_calls(subject, told, row),
        ("steps", _, _) => go_steps(subject, told, way, row),
        ("first", 2, 0) => take_first(told, way, row),
        ("leaves", 1, 0) => judge_left(subject, told, way),
        (name, _, _) => told.stuck(name, Stuck::Unread),
    }
}

fn take_first(told: &mut Told, way: &mut Way, row: &Statement) -> Result<(), AllocError> {
    match row.number(1) {
        Some(most) => {
            way.most = most as usize;
            Ok(())
        }
        None => told.stuck(row.word(1), Stuck::Unread),
    }
}

fn make<S: Subject>(
    subject: &mut S,
    alloc: Global,
    call: &str,
    came: &mut String,
) -> Result<(), Stuck> {
    let (name, words) = parted(call);
    subject.call(alloc, name, words, came)
}

fn make_calls<S: Subject>(
    subject: &mut S,
    told: &mut Told,
    row: &Statement,
) -> Result<(), AllocError> {
    for line in &row.block {
        told.go_on();
        make_call(subject, told, line.as_str())?;
    }
    Ok(())
}

fn make_call<S: Subject>(subject: &mut S, told: &mut Told, line: &str) -> Result<(), AllocError> {
    let (call, wanted) = answered(line);
    let mut came = String::new(told.alloc);
    let made = make(subject, told.alloc, call, &mut came);
    told.judge(made, line, wanted, came.as_str())
}

fn go_steps<S: Subject>(
    subject: &mut S,
    told: &mut Told,
    way: &mut Way,
    row: &Statement,
) -> Result<(), AllocError> {
    let fault = row.words_from(told.alloc, 1)?;
    for line in row.block.iter().take(way.most) {
        told.go_on();
        if !go_step(subject, told, way, line.as_str(), fault.as_str())? {
            return Ok(());
        }
    }
    Ok(())
}

/// Whether no disk failed in the step.
fn go_step<S: Subject>(
    subject: &mut S,
    told: &mut Told,
    way: &mut Way,
    line: &str,
    fault: &str,
) -> Result<bool, AllocError> {
    let (call, behind) = answered(line);
    let (wanted, held) = answered(behind);
    let mut came = String::new(told.alloc);
    let made = make(subject, told.alloc, call, &mut came);
    let goes_on = !subject.is_stopped();
    let wanted = if goes_on { wanted } else { fault };
    told.judge(made, line, wanted, came.as_str())?;
    note(way, held, goes_on)?;
    judge_held(subject, told, line, way.before.as_str())?;
    Ok(goes_on)
}

/// Notes what is held after a step, if no disk failed in it.
fn note(way: &mut Way, held: &str, goes_on: bool) -> Result<(), AllocError> {
    put_over(&mut way.after, held)?;
    if goes_on {
        put_over(&mut way.before, held)?;
    }
    Ok(())
}

fn put_over(text: &mut String, other: &str) -> Result<(), AllocError> {
    text.clear();
    text.push_str(other)
}

fn judge_held<S: Subject>(
    subject: &S,
    told: &mut Told,
    line: &str,
    held: &str,
) -> Result<(), AllocError> {
    let mut came = String::new(told.alloc);
    let made = subject.show(told.alloc, held, &mut came);
    told.judge(made, line, held, came.as_str())
}

fn judge_left<S: Subject>(subject: &mut S, told: &mut Told, way: &Way) -> Result<(), AllocError> {
    for image in 0..subject.images() {
        judge_image(subject, told, way, image)?;
    }
    Ok(())
}

fn judge_image<S: Subject>(
    subject: &mut S,
    told: &mut Told,
    way: &Way,
    image: u8,
) -> Result<(), AllocError> {
    let mut came = String::new(told.alloc);
    let made = subject.show_left(told.alloc, image, &mut came);
    let is_after = came.as_str() == way.after.as_str();
    let wanted = if is_after { &way.after } else { &way.before };
    told.judge(made, "leaves", wanted.as_str(), came.as_str())
}
