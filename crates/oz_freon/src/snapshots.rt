//! The lines that make the snapshots.

ghost use Rattle.std.specs.Prelude.{◌≡◌, ◌≤◌, ◌*◌, ◌++◌, OnOk};
ghost use Rattle.oz_freon.specs.Script.{lines_for, lines_here, lines_of, snapshot_line, snapshot_text, texts_below};

use crate::drawing::{Deed, draw, words_of};
use crate::key::push_text;
use std::alloc::{AllocError, Global};

/// A snapshot of each bucket, once its client has done all its lines.
#[tactic(auto, unfolding(crate::specs::Script::texts_below))]
pub fn push_snapshots(
    alloc: Global,
    out: &mut Vec<u8>,
    number: u64,
    count: u16,
) -> Result<(), AllocError>
    ensures { OnOk result (out.new.items ≡ out.old.items ++ texts_below (snapshot_line number count) 4) }
{
    for client in 0..4 {
        push_snapshot(alloc, out, client, lines_of(number, client, count))?;
    }
    Ok(())
}

fn push_snapshot(
    alloc: Global,
    out: &mut Vec<u8>,
    client: u16,
    lines: u32,
) -> Result<(), AllocError>
    ensures { OnOk result (out.new.items ≡ out.old.items ++ snapshot_text client lines) }
{
    push_text(out, "s ")?;
    if lines > 0 {
        push_text(out, &format!(in alloc; "after w{client} {lines} ")?)?;
    }
    push_text(
        out,
        &format!(in alloc; "snapshot create /freon/bk{client} day1\n")?,
    )
}

/// How many lines the client of this digit has in a script of so many keys.
#[tactic(auto, unfolding(crate::specs::Script::lines_of, crate::specs::Drawing::words_at))]
fn lines_of(number: u64, client: u16, count: u16) -> u32
    ensures lines { result ≡ lines_of number client count }
{
    let mut words = words_of(number);
    let mut lines = 0;
    for key in 0..count {
        let drawn = draw(&mut words);
        lines += lines_here(key, client, drawn.deed);
    }
    lines
}

/// How many lines of a key, with which this is done, are the client's.
fn lines_here(key: u16, client: u16, deed: Deed) -> u32
    ensures lines { result ≡ lines_here client key deed }
    ensures few { result ≤ 2 }
{
    if key % 4 == client {
        lines_for(deed)
    } else {
        0
    }
}

/// How many lines a key has, with which this is done.
fn lines_for(deed: Deed) -> u32
    ensures lines { result ≡ lines_for deed }
    ensures few { result ≤ 2 }
{
    match deed {
        Deed::Delete | Deed::Rename | Deed::Get => 2,
        Deed::Leave => 1,
    }
}
