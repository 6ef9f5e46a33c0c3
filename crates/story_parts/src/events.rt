//! Kinds of events: the kind in small letters, and the fields.

use crate::answers::answer;
use crate::items::list;
use crate::replies::{refusal, reply};
use crate::requests::request;
use crate::words::Words;
use oz_core::EventKind;
use oz_fields::OutOfMemory;
use std::alloc::Global;

pub fn kind(alloc: Global, words: &mut Words<'_>) -> Result<EventKind, OutOfMemory> {
    match words.word() {
        "ask" => ask(alloc, words),
        "decide" => decide(alloc, words),
        "purge_ask" => purge_ask(alloc, words),
        "log" => log(alloc, words),
        "delete" => delete(alloc, words),
        "told" => told(alloc, words),
        "swap" => Ok(EventKind::Swap { index: words.u64() }),
        "flushed" => Ok(flushed(words)),
        "halt" => Ok(halt(words)),
        "grant" => Ok(grant(words)),
        "closed" => Ok(closed(words)),
        "ack_del" => Ok(ack_del(words)),
        "retire" => Ok(EventKind::Retire { txn: words.u64() }),
        other => Ok(of_datanodes(words, other)),
    }
}

fn of_datanodes(words: &mut Words<'_>, word: &str) -> EventKind {
    match word {
        "up" => EventKind::Up { dn: words.u8() },
        "down" => EventKind::Down { dn: words.u8() },
        "put" => put(words),
        "refused" => refused(words),
        "wrote" => wrote(words),
        "bad" => bad(words),
        "copy" => copy(words),
        "stop" => EventKind::Stop { dn: words.u8() },
        "start" => EventKind::Start { dn: words.u8() },
        "wipe" => EventKind::Wipe { dn: words.u8() },
        "close_command" => close_command(words),
        _ => {
            words.refuse();
            EventKind::Swap { index: 0 }
        }
    }
}

fn ask(alloc: Global, words: &mut Words<'_>) -> Result<EventKind, OutOfMemory> {
    let id = words.id();
    let request = request(alloc, words)?;
    Ok(EventKind::Ask { id, request })
}

fn decide(alloc: Global, words: &mut Words<'_>) -> Result<EventKind, OutOfMemory> {
    Ok(EventKind::Decide {
        id: words.id(),
        index: words.u64(),
        reply: reply(alloc, words)?,
        batch: list(alloc, words)?,
    })
}

fn purge_ask(alloc: Global, words: &mut Words<'_>) -> Result<EventKind, OutOfMemory> {
    let blocks = list(alloc, words)?;
    Ok(EventKind::PurgeAsk { blocks })
}

fn log(alloc: Global, words: &mut Words<'_>) -> Result<EventKind, OutOfMemory> {
    let txn = words.u64();
    let container = words.u64();
    let locals = list(alloc, words)?;
    Ok(EventKind::Log {
        txn,
        container,
        locals,
    })
}

fn delete(alloc: Global, words: &mut Words<'_>) -> Result<EventKind, OutOfMemory> {
    let dn = words.u8();
    let txn = words.u64();
    let locals = list(alloc, words)?;
    Ok(EventKind::Delete { dn, txn, locals })
}

fn told(alloc: Global, words: &mut Words<'_>) -> Result<EventKind, OutOfMemory> {
    let client = words.u16();
    let line = words.u16();
    let answer = answer(alloc, words)?;
    Ok(EventKind::Told {
        client,
        line,
        answer,
    })
}

fn flushed(words: &mut Words<'_>) -> EventKind {
    let index = words.u64();
    let moment = words.u64();
    EventKind::Flushed { index, moment }
}

fn halt(words: &mut Words<'_>) -> EventKind {
    let node = words.node();
    let count = words.u64();
    EventKind::Halt { node, count }
}

fn grant(words: &mut Words<'_>) -> EventKind {
    let stripe = words.u8();
    let container = words.u64();
    let pipeline = words.u8();
    let first = words.u64();
    let count = words.u32();
    EventKind::Grant {
        stripe,
        container,
        pipeline,
        first,
        count,
    }
}

fn closed(words: &mut Words<'_>) -> EventKind {
    let container = words.u64();
    let state = words.state();
    EventKind::Closed { container, state }
}

fn ack_del(words: &mut Words<'_>) -> EventKind {
    let dn = words.u8();
    let txn = words.u64();
    EventKind::AckDel { dn, txn }
}

fn put(words: &mut Words<'_>) -> EventKind {
    let dn = words.u8();
    let block = words.block();
    let id = words.id();
    let first = words.u64();
    let length = words.u32();
    EventKind::Put {
        dn,
        block,
        id,
        first,
        length,
    }
}

fn refused(words: &mut Words<'_>) -> EventKind {
    let dn = words.u8();
    let block = words.block();
    let id = words.id();
    let refusal = refusal(words);
    EventKind::Refused {
        dn,
        block,
        id,
        refusal,
    }
}

fn wrote(words: &mut Words<'_>) -> EventKind {
    let block = words.block();
    let id = words.id();
    EventKind::Wrote { block, id }
}

fn bad(words: &mut Words<'_>) -> EventKind {
    let dn = words.u8();
    let block = words.block();
    let id = words.id();
    EventKind::Bad { dn, block, id }
}

fn copy(words: &mut Words<'_>) -> EventKind {
    let source = words.u8();
    let target = words.u8();
    let block = words.block();
    EventKind::Copy {
        source,
        target,
        block,
    }
}

fn close_command(words: &mut Words<'_>) -> EventKind {
    let dn = words.u8();
    let container = words.u64();
    EventKind::CloseCommand { dn, container }
}
