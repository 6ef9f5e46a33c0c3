//! Bytes put over others in a `Vec`.

ghost use Rattle.std.specs.Prelude.{◌≡◌, ◌≤◌, ◌+◌, length, take, OnOk, OnErr, IsOk, IfOk, vec_capacity};
ghost use Rattle.oz_world.specs.Disk.{overwritten};
ghost use Rattle.oz_world.specs.Record.{padded, half_of, done};

use std::alloc::AllocError;

/// Puts others over the bytes from `pos` on, or behind them where `pos` is past their end.
pub fn put_over(bytes: &mut Vec<u8>, pos: usize, others: &[u8]) -> Result<(), AllocError>
    ensures ok { OnOk result (bytes.new.items ≡ overwritten pos others.now bytes.old.items) }
    ensures err { OnErr result (bytes.new.items ≡ bytes.old.items) }
    ensures succeeds { pos + length others.now ≤ vec_capacity bytes.old → IsOk result }
    ensures capacity { vec_capacity bytes.old ≤ vec_capacity bytes.new }
{
    let size = bytes.len();
    let start = pos.min(size);
    let over = others.len().min(size - start);
    let (front, behind) = others.split_at(over);
    if !behind.is_empty() {
        bytes.extend_from_slice(behind)?;
    }
    bytes[start..start + over].copy_from_slice(front);
    Ok(())
}

/// Adds zeros behind the bytes up to a length.
pub fn pad(bytes: &mut Vec<u8>, size: usize) -> Result<(), AllocError>
    ensures ok { OnOk result (bytes.new.items ≡ padded size bytes.old.items) }
{
    while bytes.len() < size {
        bytes.push(0)?;
    }
    Ok(())
}
