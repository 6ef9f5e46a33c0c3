//! The log of deleted blocks, from an empty one on.
//!
//! `add CONTAINER LOCALS` gives the transaction's number; `ack NUMBER DN`, `retire NUMBER`, `kept NUMBER` and
//! `logged CONTAINER LOCAL` give whether it is so; `pending CONTAINER DN` gives the transactions that a datanode has to be
//! told, `unretired` all numbers and `last` the last one.

use crate::calls::{calls_of, judge_call};
use crate::told::{Stuck, Told};
use crate::words::{number, numbers, small};
use case_files::{Judged, Statement};
use oz_dellog::{DelLog, MOST_LOCALS, Txn};
use oz_fields::{Block, List};
use std::alloc::{AllocError, Global};

fn add(alloc: Global, log: &mut DelLog, call: &Statement, came: &mut String) -> Result<(), Stuck> {
    let container = number(call.word(1))?;
    let locals = numbers(alloc, call.word(2))?;
    if locals.is_empty() || locals.len() > MOST_LOCALS {
        return Err(Stuck::Unread);
    }
    match log.add(alloc, container, List::of(locals)) {
        Ok(number) => {
            write!(came, "{number}")?;
            Ok(())
        }
        Err((_, error)) => Err(Stuck::from(error)),
    }
}

fn pending(alloc: Global, log: &DelLog, call: &Statement, came: &mut String) -> Result<(), Stuck> {
    let container = number(call.word(1))?;
    let dn = small(call.word(2))?;
    write_txns(&log.pending(alloc, container, dn)?, came)
}

/// Writes transactions.
pub(crate) fn write_txns(txns: &[Txn], came: &mut String) -> Result<(), Stuck> {
    for txn in txns {
        if !came.is_empty() {
            came.push(' ')?;
        }
        write!(
            came,
            "{} of {} {:?};",
            txn.number,
            txn.container,
            txn.locals.items()
        )?;
    }
    Ok(())
}

fn unretired(log: &DelLog, came: &mut String) -> Result<(), Stuck> {
    for (number, _) in log.unretired() {
        if !came.is_empty() {
            came.push(' ')?;
        }
        write!(came, "{number};")?;
    }
    Ok(())
}

/// Whether it is so.
fn holds(log: &mut DelLog, call: &Statement) -> Result<bool, Stuck> {
    let one = number(call.word(1))?;
    match call.word(0) {
        "ack" => Ok(log.ack(one, small(call.word(2))?)),
        "retire" => Ok(log.retire(one)),
        "kept" => Ok(log.get(one).is_some()),
        "logged" => Ok(log.logged(Block {
            container: one,
            local: number(call.word(2))?,
        })),
        _ => Err(Stuck::Unread),
    }
}

/// Writes what a call gives.
fn make(alloc: Global, log: &mut DelLog, call: &Statement, came: &mut String) -> Result<(), Stuck> {
    match call.word(0) {
        "add" => return add(alloc, log, call, came),
        "pending" => return pending(alloc, log, call, came),
        "unretired" => return unretired(log, came),
        "last" => write!(came, "{}", log.last())?,
        _ => write!(came, "{}", holds(log, call)?)?,
    }
    Ok(())
}

/// Judges a case of the log of deleted blocks.
pub fn judge_logs(alloc: Global, case: &[Statement]) -> Result<Judged, AllocError> {
    let mut told = Told::new(alloc);
    let mut log = DelLog::new(alloc);
    for call in &calls_of(&mut told, case)? {
        let mut came = String::new(alloc);
        let made = make(alloc, &mut log, call, &mut came);
        judge_call(&mut told, call, made, came.as_str())?;
    }
    Ok(told.judged())
}
