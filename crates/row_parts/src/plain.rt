//! A plain reader of rows and bodies: each kind is a list of fields, and a field is read at a place.
//!
//! A field is a letter: `n` a name of a volume, a bucket or a snapshot, and `k` of a key; `c` a number from 1 on, and `o` any; `b`
//! the number of a container or a local id; `s` the state of a snapshot; `t` a stripe, and `d` how many numbers were drawn in it;
//! `p` pieces, `l` blocks, and `m` at least one block, of which the first has the local id that stands before.

/// The key fields of a kind of row, and behind a bar what it holds; nothing where there is no such kind.
fn fields_of(kind: u64) -> &'static str {
    match kind {
        1 => "n|",
        2 => "nn|",
        3 => "nnk|cp",
        4 => "nnkc|l",
        5 => "nnokb|m",
        6 => "nnc|nos",
        7 => "nnck|cp",
        8 => "nnob|k",
        9 => "t|d",
        _ => "",
    }
}

/// The number in so many bytes at a place, if they are there.
fn number_at(bytes: &[u8], at: usize, size: usize) -> Option<u64> {
    let field = bytes.get(at..at.saturating_add(size))?;
    let mut value: u64 = 0;
    for byte in field {
        value = value.wrapping_mul(256).wrapping_add(u64::from(*byte));
    }
    Some(value)
}

fn is_name(text: &[u8]) -> bool {
    let mut plain = text.len() >= 3 && text.len() <= 63;
    let mut digits = true;
    let mut before = b'a';
    for byte in text {
        plain = plain && matches!(*byte, b'a'..=b'z' | b'0'..=b'9' | b'-' | b'.');
        plain = plain && !matches!((before, *byte), (b'.', b'.') | (b'.', b'-') | (b'-', b'.'));
        digits = digits && matches!(*byte, b'0'..=b'9' | b'.');
        before = *byte;
    }
    plain && !digits && !matches!(text, [b'-' | b'.', ..]) && !matches!(before, b'-' | b'.')
}

fn is_key_name(text: &[u8]) -> bool {
    !text.is_empty()
        && text.len() <= 1024
        && text.iter().all(|byte| matches!(*byte, 33..=126))
        && text != b".snapshot".as_slice()
        && !text.starts_with(b".snapshot/")
}

/// The text at a place, and the place behind it.
fn text_at(bytes: &[u8], at: usize) -> Option<(&[u8], usize)> {
    let size = number_at(bytes, at, 2)?;
    let begin = at.saturating_add(2);
    let end = begin.saturating_add(size as usize);
    Some((bytes.get(begin..end)?, end))
}

/// The place behind a text that keeps its rule; at a fault, the text's own place.
fn text_end(bytes: &[u8], at: usize, is_key: bool) -> Result<usize, usize> {
    let Some((text, end)) = text_at(bytes, at) else {
        return Err(at);
    };
    let fits = if is_key {
        is_key_name(text)
    } else {
        is_name(text)
    };
    if fits { Ok(end) } else { Err(at) }
}

fn number_end(bytes: &[u8], at: usize, size: usize, least: u64, most: u64) -> Result<usize, usize> {
    match number_at(bytes, at, size) {
        Some(number) if number >= least && number <= most => Ok(at.saturating_add(size)),
        _ => Err(at),
    }
}

/// The place behind a container and a local id, and in a piece a length. The local id is `own` where one is given.
fn item_end(bytes: &[u8], at: usize, is_piece: bool, own: Option<u64>) -> Result<usize, usize> {
    let (least, most) = match own {
        Some(local) => (local, local),
        None => (1, 1 << 62),
    };
    let local = number_end(bytes, at, 8, 1, 1 << 62)?;
    let end = number_end(bytes, local, 8, least, most)?;
    if is_piece {
        return number_end(bytes, end, 4, 1, 65_536);
    }
    Ok(end)
}

/// The place behind a count and its items. The first local id is `own` where one is given.
fn items_end(
    bytes: &[u8],
    at: usize,
    is_piece: bool,
    least: u64,
    own: Option<u64>,
) -> Result<usize, usize> {
    let mut end = number_end(bytes, at, 2, least, 256)?;
    let mut own = own;
    for _ in 0..number_at(bytes, at, 2).unwrap_or(0) {
        end = item_end(bytes, end, is_piece, own)?;
        own = None;
    }
    Ok(end)
}

/// The place behind one field, or the place of the fault.
fn field_end(bytes: &[u8], at: usize, field: u8) -> Result<usize, usize> {
    match field {
        b'n' => text_end(bytes, at, false),
        b'k' => text_end(bytes, at, true),
        b'b' => number_end(bytes, at, 8, 1, 1 << 62),
        b'c' => number_end(bytes, at, 8, 1, u64::MAX),
        b'o' => number_end(bytes, at, 8, 0, u64::MAX),
        b's' => number_end(bytes, at, 1, 1, 2),
        b't' => number_end(bytes, at, 1, 0, 15),
        b'd' => number_end(bytes, at, 8, 0, 1 << 48),
        b'p' => items_end(bytes, at, true, 0, None),
        b'l' => items_end(bytes, at, false, 0, None),
        b'm' => {
            let own = number_at(bytes, at.saturating_sub(8), 8);
            items_end(bytes, at, false, 1, own)
        }
        _ => Err(at),
    }
}

/// The place behind fields, or the place of the fault.
fn fields_end(bytes: &[u8], at: usize, fields: &str) -> Result<usize, usize> {
    let mut end = at;
    for field in fields.as_bytes() {
        end = field_end(bytes, end, *field)?;
    }
    Ok(end)
}

/// The place behind a row, or behind its key alone; at a fault, the fault's place.
fn row_end(bytes: &[u8], at: usize, key_alone: bool) -> Result<usize, usize> {
    let kind = number_at(bytes, at, 1).unwrap_or(0);
    let Some((key, held)) = fields_of(kind).split_once('|') else {
        return Err(at);
    };
    let end = fields_end(bytes, at.saturating_add(1), key)?;
    if key_alone {
        return Ok(end);
    }
    fields_end(bytes, end, held)
}

/// Where bytes stop to be one row: nothing where they are one.
pub fn row_fault(bytes: &[u8]) -> Option<usize> {
    match row_end(bytes, 0, false) {
        Ok(end) if end == bytes.len() => None,
        Ok(end) | Err(end) => Some(end),
    }
}

fn operation_end(bytes: &[u8], at: usize) -> Result<usize, usize> {
    let begin = at.saturating_add(1);
    match number_at(bytes, at, 1).unwrap_or(0) {
        1 => row_end(bytes, begin, false),
        2 => row_end(bytes, begin, true),
        3 | 5 => fields_end(bytes, begin, "nnc"),
        4 => fields_end(bytes, begin, "nnoo"),
        6 => fields_end(bytes, begin, "nn"),
        _ => Err(at),
    }
}

/// The place of the first fault of the operations from a place on.
fn operations_fault(bytes: &[u8], from: usize) -> Option<usize> {
    let mut at = from;
    for _ in 0..bytes.len() {
        if at == bytes.len() {
            return None;
        }
        match operation_end(bytes, at) {
            Ok(end) => at = end,
            Err(place) => return Some(place),
        }
    }
    None
}

/// Where bytes stop to be a body: nothing where they are one.
pub fn body_fault(bytes: &[u8]) -> Option<usize> {
    if number_at(bytes, 0, 1) != Some(1) {
        return Some(0);
    }
    if number_end(bytes, 1, 8, 1, (1 << 63) - 1).is_err() {
        return Some(1);
    }
    operations_fault(bytes, 9)
}
