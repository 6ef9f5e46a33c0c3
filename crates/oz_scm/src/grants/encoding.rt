//! Entries written.

ghost use Rattle.std.specs.Prelude.{◌≡◌, ◌<◌, ◌^◌, ◌++◌, length, IfOk, OnOk};
ghost use Rattle.oz_journal.specs.Journal.{body_of};
ghost use Rattle.oz_scm.specs.grants.Entries.{entry_bytes, event_number, locals_bytes};

use crate::grants::entry::{Entry, Grant};
use oz_container::Event;
use oz_dellog::Txn;
use oz_fields::{OutOfMemory, put_u8, put_u16, put_u32, put_u64};
use std::alloc::Global;

/// The bytes of the first entry: how many datanodes there are.
pub fn encode_nodes(alloc: Global, count: u8) -> Result<Vec<u8>, OutOfMemory>
    ensures { IfOk result (λ bytes. bytes.items ≡ entry_bytes (Entry.Nodes count)) }
{
    let mut out = Vec::new(alloc);
    put_u8(alloc, &mut out, 1)?;
    put_u8(alloc, &mut out, count)?;
    Ok(out)
}

/// The bytes of a grant.
pub fn encode_granted(alloc: Global, stripe: u8, grant: &Grant) -> Result<Vec<u8>, OutOfMemory>
    ensures { IfOk result (λ bytes. bytes.items ≡ entry_bytes (Entry.Granted stripe grant.now)) }
{
    let mut out = Vec::new(alloc);
    put_u8(alloc, &mut out, 2)?;
    put_u8(alloc, &mut out, stripe)?;
    put_u64(alloc, &mut out, grant.container)?;
    put_u8(alloc, &mut out, grant.pipeline)?;
    put_u64(alloc, &mut out, grant.first)?;
    put_u32(alloc, &mut out, grant.count)?;
    Ok(out)
}

/// The bytes of a step in the frame in which a journal takes them: four before them, and one behind. It takes no memory.
#[tactic(auto, unfolding(oz_fields::specs::Number::u64_bytes))]
pub fn encode_stepped(container: u64, event: Event) -> [u8; 15]
    ensures { body_of result ≡ entry_bytes (Entry.Stepped container event) }
{
    let number = container.to_be_bytes();
    [
        0,
        0,
        0,
        0,
        3,
        number[0],
        number[1],
        number[2],
        number[3],
        number[4],
        number[5],
        number[6],
        number[7],
        number_of(event),
        0,
    ]
}

/// The bytes of a deletion that is logged.
pub fn encode_logged(alloc: Global, txn: &Txn) -> Result<Vec<u8>, OutOfMemory>
    requires { length txn.now.locals < 2 ^ 16 }
    ensures { IfOk result (λ bytes. bytes.items ≡ entry_bytes (Entry.Logged txn.now)) }
{
    let mut out = Vec::new(alloc);
    put_u8(alloc, &mut out, 4)?;
    put_u64(alloc, &mut out, txn.number)?;
    put_u64(alloc, &mut out, txn.container)?;
    put_locals(alloc, &mut out, txn.locals.items())?;
    Ok(out)
}

fn put_locals(alloc: Global, out: &mut Vec<u8>, locals: &[u64]) -> Result<(), OutOfMemory>
    requires { length locals.now < 2 ^ 16 }
    ensures { OnOk result (out.new.items ≡ out.old.items ++ locals_bytes locals.now) }
{
    put_u16(alloc, out, locals.len() as u16)?;
    for local in locals {
        put_u64(alloc, out, *local)?;
    }
    Ok(())
}

/// The bytes of an acknowledgement in the frame in which a journal takes them. It takes no memory.
#[tactic(auto, unfolding(oz_fields::specs::Number::u64_bytes))]
pub fn encode_acked(number: u64, dn: u8) -> [u8; 15]
    ensures { body_of result ≡ entry_bytes (Entry.Acked number dn) }
{
    let number = number.to_be_bytes();
    [
        0, 0, 0, 0, 5, number[0], number[1], number[2], number[3], number[4], number[5], number[6],
        number[7], dn, 0,
    ]
}

/// The bytes of a retirement in the frame in which a journal takes them. It takes no memory.
#[tactic(auto, unfolding(oz_fields::specs::Number::u64_bytes))]
pub fn encode_retired(number: u64) -> [u8; 14]
    ensures { body_of result ≡ entry_bytes (Entry.Retired number) }
{
    let number = number.to_be_bytes();
    [
        0, 0, 0, 0, 6, number[0], number[1], number[2], number[3], number[4], number[5], number[6],
        number[7], 0,
    ]
}

fn number_of(event: Event) -> u8
    ensures { result ≡ event_number event }
{
    match event {
        Event::Finalize => 1,
        Event::QuasiClose => 2,
        Event::Close => 3,
        Event::ForceClose => 4,
        Event::Delete => 5,
        Event::Cleanup => 6,
    }
}
