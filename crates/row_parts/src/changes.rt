//! Keys and changes from lines, which say them as they are shown.
//!
//! `put ROW` gives a row this value, and `gone KEY` takes it away. A row is `volume VOLUME`, `bucket VOLUME BUCKET`,
//! `key VOLUME BUCKET KEY = NUMBER -`, `open VOLUME BUCKET KEY NUMBER = -` or `stripe STRIPE = NUMBER`, and what stands before its
//! `=` is its key. `-` in the place of a name is the empty one. Rows with pieces or blocks are made by bodies alone.

use crate::shown::{push_key, push_row};
use crate::told::given;
use case_files::{Statement, statements};
use oz_fields::{List, Name, OutOfMemory};
use oz_rows::{Change, Row, RowKey};
use std::alloc::Global;

/// The name that is the word of a statement at a place.
pub fn name_at(alloc: Global, call: &Statement, place: usize) -> Result<Name, OutOfMemory> {
    let word = call.word(place);
    Name::copy(alloc, if word == "-" { b"" } else { word.as_bytes() })
}

/// The key of a kind in a bucket.
fn bucket_key(
    alloc: Global,
    call: &Statement,
    volume: &Name,
    bucket: &Name,
) -> Result<Option<RowKey>, OutOfMemory> {
    let key = name_at(alloc, call, 4)?;
    let made = match (call.word(1), call.number(5)) {
        ("bucket", _) => RowKey::of_bucket(alloc, volume, bucket),
        ("key", _) => RowKey::of_key(alloc, volume, bucket, &key),
        ("open", Some(number)) => RowKey::of_session(alloc, volume, bucket, &key, number),
        _ => return Ok(None),
    };
    Ok(Some(made?))
}

fn stripe_key(call: &Statement) -> Option<RowKey> {
    let stripe = u8::try_from(call.number(2)?).ok()?;
    Some(RowKey::Stripe { stripe })
}

/// The key that the words of a statement say behind the first.
pub fn key_of(alloc: Global, call: &Statement) -> Result<Option<RowKey>, OutOfMemory> {
    let volume = name_at(alloc, call, 2)?;
    match call.word(1) {
        "volume" => Ok(Some(RowKey::of_volume(alloc, &volume)?)),
        "stripe" => Ok(stripe_key(call)),
        _ => bucket_key(alloc, call, &volume, &name_at(alloc, call, 3)?),
    }
}

/// What a row holds of which the words of a statement say it.
fn row_of(alloc: Global, call: &Statement) -> Option<Row> {
    match call.word(1) {
        "volume" => Some(Row::Volume),
        "bucket" => Some(Row::Bucket),
        "open" => Some(Row::Open {
            blocks: List::new(alloc),
        }),
        "key" => Some(Row::Key {
            number: call.number(6)?,
            pieces: List::new(alloc),
        }),
        "stripe" => Some(Row::Stripe {
            number: call.number(4)?,
        }),
        _ => None,
    }
}

/// The words of a statement behind the first say this key, and what its row holds.
pub fn is_said(
    alloc: Global,
    call: &Statement,
    key: &RowKey,
    row: &Option<Row>,
) -> Result<bool, OutOfMemory> {
    let line = call.words_from(alloc, 1)?;
    let mut text = String::new(alloc);
    push_key(&mut text, key)?;
    if let Some(row) = row {
        push_row(&mut text, row)?;
    }
    Ok(text.as_str() == given(line.as_str()))
}

/// Whether a change is the one that the words of a statement say.
fn is_change(alloc: Global, call: &Statement, change: &Change) -> Result<bool, OutOfMemory> {
    match (call.word(0), &change.row) {
        ("put", Some(_)) | ("gone", None) => is_said(alloc, call, &change.key, &change.row),
        _ => Ok(false),
    }
}

/// The change of a row that the words of a statement may say.
fn change_of(alloc: Global, call: &Statement) -> Result<Option<Change>, OutOfMemory> {
    let Some(key) = key_of(alloc, call)? else {
        return Ok(None);
    };
    let row = match call.word(0) {
        "put" => row_of(alloc, call),
        _ => None,
    };
    Ok(Some(Change { key, row }))
}

/// Adds the change that a statement says, and says whether it says one.
fn add_said(
    alloc: Global,
    changes: &mut Vec<Change>,
    call: &Statement,
) -> Result<bool, OutOfMemory> {
    let Some(change) = change_of(alloc, call)? else {
        return Ok(false);
    };
    let is_well = is_change(alloc, call, &change)?;
    changes.push(change)?;
    Ok(is_well)
}

/// Adds the change that a line says, and says whether it says one.
fn add_change(alloc: Global, changes: &mut Vec<Change>, line: &str) -> Result<bool, OutOfMemory> {
    match statements(alloc, line)?.first() {
        Some(call) => add_said(alloc, changes, call),
        None => Ok(false),
    }
}

/// The changes of these lines, and nothing where one says none, which is added to what came.
pub fn changes_of(
    alloc: Global,
    block: &[String],
    came: &mut String,
) -> Result<Option<Vec<Change>>, OutOfMemory> {
    let mut changes = Vec::new(alloc);
    for line in block {
        if !add_change(alloc, &mut changes, line.as_str())? {
            came.push_str(line.as_str())?;
            return Ok(None);
        }
    }
    Ok(Some(changes))
}
