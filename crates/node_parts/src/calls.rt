//! Cases of nothing but calls: a line each in the blocks of `calls`, with what the call gives behind ` => `.

use crate::told::{Stuck, Told};
use crate::words::answered;
use case_files::{Statement, statements};
use std::alloc::{AllocError, Global};

fn add_calls(alloc: Global, calls: &mut Vec<Statement>, row: &Statement) -> Result<(), AllocError> {
    for mut call in statements(alloc, row.text(alloc)?.as_str())? {
        call.line = call.line.saturating_add(row.line);
        calls.push(call)?;
    }
    Ok(())
}

/// The calls of a case. What else stands there is told.
pub fn calls_of(told: &mut Told, case: &[Statement]) -> Result<Vec<Statement>, AllocError> {
    let mut calls = Vec::new(told.alloc);
    for row in case.iter().skip(1) {
        if row.word(0) == "calls" && row.words.len() == 1 {
            add_calls(told.alloc, &mut calls, row)?;
        } else {
            told.line = row.line;
            told.stuck(row.word(0), Stuck::Unread)?;
        }
    }
    Ok(calls)
}

/// Tells where a call didn't give what it is to give.
pub fn judge_call(
    told: &mut Told,
    call: &Statement,
    made: Result<(), Stuck>,
    came: &str,
) -> Result<(), AllocError> {
    let line = call.words_from(told.alloc, 0)?;
    let (_, wanted) = answered(line.as_str());
    told.line = call.line;
    told.judge(made, line.as_str(), wanted, came)
}
