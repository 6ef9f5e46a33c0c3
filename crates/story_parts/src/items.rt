//! Lists.

use crate::words::Words;
use oz_core::Replica;
use oz_fields::{Block, List, Name, OutOfMemory, Piece};
use oz_requests::PurgeRow;
use std::alloc::Global;

/// What may stand in a list. Its parts stand between colons.
pub trait Item: Sized + Drop {
    fn read(alloc: Global, parts: &mut Words<'_>) -> Result<Self, OutOfMemory>;
}

impl Item for u8 {
    fn read(_alloc: Global, parts: &mut Words<'_>) -> Result<u8, OutOfMemory> {
        Ok(parts.u8())
    }
}

impl Item for u64 {
    fn read(_alloc: Global, parts: &mut Words<'_>) -> Result<u64, OutOfMemory> {
        Ok(parts.u64())
    }
}

impl Item for Block {
    fn read(_alloc: Global, parts: &mut Words<'_>) -> Result<Block, OutOfMemory> {
        Ok(parts.block())
    }
}

impl Item for Piece {
    fn read(_alloc: Global, parts: &mut Words<'_>) -> Result<Piece, OutOfMemory> {
        let block = parts.block();
        let length = parts.u32();
        Ok(Piece { block, length })
    }
}

impl Item for Name {
    fn read(alloc: Global, parts: &mut Words<'_>) -> Result<Name, OutOfMemory> {
        parts.name(alloc)
    }
}

/// `bucket:owner:key:local`.
impl Item for PurgeRow {
    fn read(alloc: Global, parts: &mut Words<'_>) -> Result<PurgeRow, OutOfMemory> {
        Ok(PurgeRow {
            bucket: parts.name(alloc)?,
            owner: parts.u64(),
            key: parts.name(alloc)?,
            local: parts.u64(),
        })
    }
}

/// `container:state:greatest`.
impl Item for Replica {
    fn read(_alloc: Global, parts: &mut Words<'_>) -> Result<Replica, OutOfMemory> {
        let container = parts.u64();
        let state = parts.state();
        let greatest = parts.u64();
        Ok(Replica {
            container,
            state,
            greatest,
        })
    }
}

/// The item, as often as it is said.
fn push_items<T: Item>(
    alloc: Global,
    words: &mut Words<'_>,
    item: &str,
    items: &mut Vec<T>,
) -> Result<(), OutOfMemory> {
    let (text, count) = item.split_once('*').unwrap_or((item, "1"));
    let Ok(count) = count.parse::<u16>() else {
        words.refuse();
        return Ok(());
    };
    for _ in 0..count {
        let mut parts = Words::new(text, ':');
        items.push(T::read(alloc, &mut parts)?)?;
        words.end(&parts);
    }
    Ok(())
}

/// The next word, as a list.
pub fn list<T: Item>(alloc: Global, words: &mut Words<'_>) -> Result<List<T>, OutOfMemory> {
    let text = words.word();
    let mut items = Vec::new(alloc);
    if text != "-" {
        for item in text.split(',') {
            push_items(alloc, words, item, &mut items)?;
        }
    }
    Ok(List::of(items))
}
