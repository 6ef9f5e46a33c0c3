//! Statements on the rows that stand somewhere, in tables or in what is above them.
//!
//! - `rows`: all rows, a line each, in the order of their keys.
//! - `look KEY`: the row of a key, and the next row of its kind; `nothing` where there is none.
//! - `stripes`: the numbers in the rows of the sixteen stripes, `-` where there is no row. The next one of each has to be the first
//!   above it that has a row.

use crate::changes::{is_said, key_of};
use crate::shown::{push_entry, push_key};
use crate::told::is_bare;
use case_files::Statement;
use oz_fields::{Name, OutOfMemory};
use oz_names::STRIPES;
use oz_rows::{Row, RowKey, RowMap};
use std::alloc::Global;

/// The kinds of rows have numbers up to this one.
const KINDS: u8 = 9;

/// The lowest key of a kind: names are empty, and numbers 0.
fn lowest(alloc: Global, kind: u8) -> Result<RowKey, OutOfMemory> {
    let none = Name::copy(alloc, b"")?;
    match kind {
        1 => RowKey::of_volume(alloc, &none),
        2 => RowKey::of_bucket(alloc, &none, &none),
        3 => RowKey::of_key(alloc, &none, &none, &none),
        4 => RowKey::of_session(alloc, &none, &none, &none, 0),
        5 => RowKey::of_deleted(alloc, &none, &none, 0, &none, 0),
        6 => RowKey::of_snapshot(alloc, &none, &none, 0),
        7 => RowKey::of_snapshot_key(alloc, &none, &none, 0, &none),
        8 => RowKey::of_renamed(alloc, &none, &none, 0, 0),
        _ => Ok(RowKey::Stripe { stripe: 0 }),
    }
}

/// Adds the rows of a kind, whose lowest key this is.
fn add_kind<M: RowMap>(rows: &M, lowest: &RowKey, came: &mut String) -> Result<(), OutOfMemory> {
    if let Some(row) = rows.get(lowest) {
        push_entry(came, lowest, row)?;
    }
    let mut from = lowest;
    for _ in 0..u64::MAX {
        let Some((key, row)) = rows.next(from) else {
            return Ok(());
        };
        push_entry(came, key, row)?;
        from = key;
    }
    Ok(())
}

fn say_rows<M: RowMap>(alloc: Global, rows: &M, came: &mut String) -> Result<(), OutOfMemory> {
    for kind in 1..=KINDS {
        let lowest = lowest(alloc, kind)?;
        add_kind(rows, &lowest, came)?;
    }
    Ok(())
}

fn say_look<M: RowMap>(rows: &M, key: &RowKey, came: &mut String) -> Result<(), OutOfMemory> {
    match rows.get(key) {
        Some(row) => push_entry(came, key, row)?,
        None => came.push_str("nothing\n")?,
    }
    match rows.next(key) {
        Some((next, row)) => push_entry(came, next, row),
        None => came.push_str("nothing\n"),
    }
}

fn number_in(row: Option<&Row>) -> Option<u64> {
    match row {
        Some(Row::Stripe { number }) => Some(*number),
        _ => None,
    }
}

/// The stripe and the number of a row that was found.
fn stripe_in(found: Option<(&RowKey, &Row)>) -> Option<(u8, u64)> {
    match found {
        Some((RowKey::Stripe { stripe }, Row::Stripe { number })) => Some((*stripe, *number)),
        _ => None,
    }
}

fn say_numbers<M: RowMap>(rows: &M, came: &mut String) -> Result<(), OutOfMemory> {
    for stripe in 0..STRIPES {
        if stripe > 0 {
            came.push(' ')?;
        }
        match number_in(rows.get(&RowKey::Stripe { stripe })) {
            Some(number) => write!(came, "{number}")?,
            None => came.push('-')?,
        }
    }
    came.push('\n')
}

/// Tells of the stripes whose next one isn't the first above that has a row.
fn say_nexts<M: RowMap>(rows: &M, came: &mut String) -> Result<(), OutOfMemory> {
    let mut above = None;
    for stripe in (0..STRIPES).rev() {
        let key = RowKey::Stripe { stripe };
        if stripe_in(rows.next(&key)) != above {
            write!(came, "the row behind stripe {stripe} isn't the next one\n")?;
        }
        if let Some(number) = number_in(rows.get(&key)) {
            above = Some((stripe, number));
        }
    }
    Ok(())
}

/// Adds what comes of a statement on rows that begins with this word, and says whether it can be read.
pub fn say_standing<M: RowMap>(
    alloc: Global,
    rows: &M,
    verb: &str,
    statement: &Statement,
    came: &mut String,
) -> Result<bool, OutOfMemory> {
    if !is_bare(&statement.block) {
        return Ok(false);
    }
    match verb {
        "rows" => say_rows(alloc, rows, came)?,
        "stripes" => {
            say_numbers(rows, came)?;
            say_nexts(rows, came)?;
        }
        "look" => {
            let Some(key) = key_of(alloc, statement)? else {
                return Ok(false);
            };
            if !is_said(alloc, statement, &key, &None)? {
                return Ok(false);
            }
            say_look(rows, &key, came)?;
        }
        _ => return Ok(false),
    }
    Ok(true)
}
