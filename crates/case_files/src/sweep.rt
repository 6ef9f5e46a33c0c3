//! The numbers that a case goes through.

use crate::fill::filled;
use crate::statement::Statement;
use std::alloc::{AllocError, Global};

/// A name, and the numbers that stand in its places in turn.
#[derive(Debug, Drop)]
pub struct Each {
    pub name: String,
    pub values: Vec<u64>,
}

/// The numbers of a range `LOW..HIGH`, both of which belong to it.
pub(crate) fn range_of(word: &str) -> Option<(u64, u64)> {
    let (low, high) = word.split_once("..")?;
    Some((low.parse::<u64>().ok()?, high.parse::<u64>().ok()?))
}

/// The lowest number, the highest and the step of a word `LOW..HIGH/STEP`, `LOW..HIGH` or `NUMBER`.
fn steps_of(word: &str) -> Option<(u64, u64, u64)> {
    let (range, step) = match word.split_once('/') {
        Some((range, step)) => (range, step.parse::<u64>().ok()?),
        None => (word, 1),
    };
    if let Some((low, high)) = range_of(range) {
        return Some((low, high, step));
    }
    let number = range.parse::<u64>().ok()?;
    Some((number, number, step))
}

/// Adds each of the numbers from the lowest to the highest that is a step behind the one before it.
fn add_steps(values: &mut Vec<u64>, low: u64, high: u64, step: u64) -> Result<(), AllocError> {
    let mut next = low;
    for number in low..=high {
        if number == next {
            values.push(number)?;
            next = next.saturating_add(step);
        }
    }
    Ok(())
}

/// The numbers that these words stand for, and nothing where one isn't a number or a range.
pub fn values_of(alloc: Global, words: &[String]) -> Result<Option<Vec<u64>>, AllocError> {
    let mut values = Vec::new(alloc);
    for word in words {
        let Some((low, high, step)) = steps_of(word.as_str()) else {
            return Ok(None);
        };
        add_steps(&mut values, low, high, step)?;
    }
    Ok(Some(values))
}

/// The values that the statements `each` of a case name, and the line of the first that can't be read.
pub(crate) fn eaches_of(
    alloc: Global,
    case: &[Statement],
) -> Result<Result<Vec<Each>, u64>, AllocError> {
    let mut eaches = Vec::new(alloc);
    for statement in case {
        if statement.word(0) != "each" {
            continue;
        }
        match values_of(alloc, statement.words.get(2..).unwrap_or(&[]))? {
            Some(values) if !values.is_empty() && statement.block.is_empty() => {
                let name = String::from_str(alloc, statement.word(1))?;
                eaches.push(Each { name, values })?;
            }
            _ => return Ok(Err(statement.line)),
        }
    }
    Ok(Ok(eaches))
}

/// How many turns there are: one for each choice of values.
pub(crate) fn turns_of(eaches: &[Each]) -> u64 {
    let mut turns = 1u64;
    for each in eaches {
        turns = turns.saturating_mul(each.values.len() as u64);
    }
    turns
}

/// The turn behind this one that has another value of those before the last.
pub(crate) fn turn_behind(eaches: &[Each], turn: u64) -> u64 {
    let width = match eaches.last() {
        Some(last) => last.values.len() as u64,
        None => 1,
    };
    turn.saturating_sub(turn.checked_rem(width).unwrap_or(0))
        .saturating_add(width)
}

/// The text of a turn, and what to call the turn.
pub(crate) fn turn_text(
    alloc: Global,
    eaches: &[Each],
    turn: u64,
    text: &str,
) -> Result<(String, String), AllocError> {
    let mut made = String::from_str(alloc, text)?;
    let mut called = String::new(alloc);
    let mut left = turn;
    for each in eaches.iter().rev() {
        let width = each.values.len() as u64;
        let place = left.checked_rem(width).unwrap_or(0);
        let value = each.values.get(place as usize).copied().unwrap_or(0);
        left = left.checked_div(width).unwrap_or(0);
        made = filled(alloc, made.as_str(), each.name.as_str(), value)?;
        called = format!(in alloc; " {}={value}{called}", each.name)?;
    }
    Ok((made, called))
}
