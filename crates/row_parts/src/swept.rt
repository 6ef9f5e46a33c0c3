//! Where the readers of rows and bodies find the first fault, beside a plain reader.

use crate::plain::{body_fault, row_fault};
use oz_rows::{RowFault, decode, operations};
use std::alloc::{AllocError, Global};

/// Adds the place of a fault.
pub fn push_fault(came: &mut String, place: usize) -> Result<(), AllocError> {
    write!(came, "fault at {place}\n")
}

/// Tells where a plain reader finds another fault, or none where there is one.
pub fn say_plainly(
    came: &mut String,
    fault: Option<usize>,
    plain: Option<usize>,
) -> Result<(), AllocError> {
    if fault == plain {
        return Ok(());
    }
    match plain {
        Some(place) => write!(came, "the plain reader has a fault at {place}\n"),
        None => came.push_str("the plain reader has no fault\n"),
    }
}

/// The place of the fault of bytes that are to be a row, or a body.
fn fault_of(alloc: Global, bytes: &[u8], is_row: bool) -> Result<Option<usize>, AllocError> {
    let fault = if is_row {
        decode(alloc, bytes).err()
    } else {
        operations(alloc, bytes).err()
    };
    match fault {
        None => Ok(None),
        Some(RowFault::At(place)) => Ok(Some(place)),
        Some(RowFault::OutOfMemory) => Err(AllocError),
    }
}

/// Tells of bytes of which a plain reader finds another fault.
fn say_differing(
    alloc: Global,
    bytes: &[u8],
    is_row: bool,
    came: &mut String,
) -> Result<(), AllocError> {
    let fault = fault_of(alloc, bytes, is_row)?;
    let plain = if is_row {
        row_fault(bytes)
    } else {
        body_fault(bytes)
    };
    if fault == plain {
        return Ok(());
    }
    write!(came, "of {bytes:?}: ")?;
    say_plainly(came, fault, plain)
}

/// Tells of the values of a byte.
fn say_values(
    alloc: Global,
    bytes: &mut [u8],
    place: usize,
    is_row: bool,
    came: &mut String,
) -> Result<(), AllocError> {
    for _ in 0..=255u8 {
        if let Some(byte) = bytes.get_mut(place) {
            *byte = byte.wrapping_add(1);
        }
        say_differing(alloc, bytes, is_row, came)?;
    }
    Ok(())
}

/// Tells of the bytes cut at each place.
fn say_cuts(
    alloc: Global,
    bytes: &[u8],
    is_row: bool,
    came: &mut String,
) -> Result<(), AllocError> {
    for size in 0..=bytes.len() {
        if let Some(cut) = bytes.get(..size) {
            say_differing(alloc, cut, is_row, came)?;
        }
    }
    Ok(())
}

/// Adds the fault of bytes, and tells of them cut and changed.
pub fn say_swept(
    alloc: Global,
    bytes: &mut [u8],
    is_row: bool,
    came: &mut String,
) -> Result<(), AllocError> {
    match fault_of(alloc, bytes, is_row)? {
        Some(place) => push_fault(came, place)?,
        None => came.push_str("no fault\n")?,
    }
    say_cuts(alloc, bytes, is_row, came)?;
    for place in 0..bytes.len() {
        say_values(alloc, bytes, place, is_row, came)?;
    }
    Ok(())
}
