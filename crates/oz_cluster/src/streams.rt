//! Reading a text to its end, and writing one.

ghost use Rattle.std.specs.Prelude.{◌≡◌, ◌≤◌, ◌<◌, ◌+◌, ◌↔◌, ◌++◌, [], ℕ, List, length, take, drop, OnOk, OnErr, IfOk};
ghost use Rattle.std.specs.Prelude.{IfSome, IsErrOf};
ghost use Rattle.std.specs.Option.{option_map};
ghost use Rattle.oz_world.specs.Faults.{Rose, HasCause};
ghost use Rattle.oz_cluster.specs.Streams.{IsReadUpTo, TakesUpTo};
ghost use Rattle.oz_running.specs.Printed.{HoldsPrefix};

use oz_fields::OutOfMemory;
use oz_world::{Failed, Sink, Source};
use std::alloc::Global;

/// How much is read at once.
const PIECE: usize = 65_536;

/// Why a text wasn't read.
#[derive(Clone, Copy, Debug, PartialEq, Eq)]
pub enum ReadFault {
    Failed,
    OutOfMemory,
}

fn zeros(alloc: Global, count: usize) -> Result<Vec<u8>, OutOfMemory>
    ensures { IfOk result (λ room. length room.items ≡ count) }
{
    vec![in alloc; 0u8; count]
}

/// Reads some bytes to the end of a text, through `into`.
fn read_more<S: Source>(
    source: &mut S,
    into: &mut [u8],
    text: &mut Vec<u8>,
) -> Result<usize, ReadFault>
    requires { 0 < length into.old }
    ensures fits { IfOk result (λ count. count ≤ length into.old) }
    ensures size { IfOk result (λ count. length text.new.items ≡ length text.old.items + count) }
    ensures bytes { IfOk result (λ count.
        IfSome (S.left source.old) (λ rest. text.new.items ≡ text.old.items ++ take count rest)) }
    ensures end { IfOk result (λ count.
        IfSome (S.left source.old) (λ rest. (count ≡ 0) ↔ (rest ≡ []))) }
    ensures left { IfOk result (λ count. S.left source.new ≡ option_map (drop count) (S.left source.old)) }
    ensures taken { TakesUpTo (length into.old) (S.left source.old) (S.left source.new) }
    ensures cause { IsErrOf result ReadFault.Failed → Rose (S.faults source.old) (S.faults source.new) }
    ensures never_falls { S.faults source.old ≤ S.faults source.new }
{
    let Ok(count) = source.read(into) else {
        return Err(ReadFault::Failed);
    };
    let Ok(()) = text.extend_from_slice(&into[..count]) else {
        return Err(ReadFault::OutOfMemory);
    };
    Ok(count)
}

/// Reads a source to its end, or so many bytes of it, through a room.
fn read_through<S: Source>(
    alloc: Global,
    source: &mut S,
    limit: usize,
    room: &mut [u8],
) -> Result<Vec<u8>, ReadFault>
    requires { 0 < length room.old }
    ensures bytes { IfOk result (λ text. IfSome (S.left source.old) (λ rest. text.items ≡ take limit rest)) }
    ensures size { IfOk result (λ text. length text.items ≤ limit) }
    ensures through { IfOk result (λ _. IsReadUpTo limit (S.left source.old) (S.left source.new)) }
    ensures taken { TakesUpTo limit (S.left source.old) (S.left source.new) }
    ensures cause { IsErrOf result ReadFault.Failed → Rose (S.faults source.old) (S.faults source.new) }
    ensures never_falls { S.faults source.old ≤ S.faults source.new }
{
    let mut text = Vec::new(alloc);
    while text.len() < limit {
        let size = room.len().min(limit - text.len());
        let count = match read_more(source, &mut room[..size], &mut text) {
            Ok(count) => count,
            Err(fault) => return Err(fault),
        };
        if count == 0 {
            return Ok(text);
        }
    }
    Ok(text)
}

/// Reads a source to its end, or so many bytes of it.
pub fn read_up_to<S: Source>(
    alloc: Global,
    source: &mut S,
    limit: usize,
) -> Result<Vec<u8>, ReadFault>
    ensures bytes { IfOk result (λ text. IfSome (S.left source.old) (λ rest. text.items ≡ take limit rest)) }
    ensures size { IfOk result (λ text. length text.items ≤ limit) }
    ensures through { IfOk result (λ _. IsReadUpTo limit (S.left source.old) (S.left source.new)) }
    ensures taken { TakesUpTo limit (S.left source.old) (S.left source.new) }
    ensures cause { IsErrOf result ReadFault.Failed → Rose (S.faults source.old) (S.faults source.new) }
    ensures never_falls { S.faults source.old ≤ S.faults source.new }
{
    let Ok(mut room) = zeros(alloc, PIECE) else {
        return Err(ReadFault::OutOfMemory);
    };
    read_through(alloc, source, limit, &mut room)
}

/// Writes all the bytes.
pub fn write_all<K: Sink>(out: &mut K, bytes: &[u8]) -> Result<(), Failed>
    ensures ok { OnOk result (K.held out.new ≡ option_map (λ before. before ++ bytes.now) (K.held out.old)) }
    ensures err { OnErr result (HoldsPrefix bytes.now (K.held out.old) (K.held out.new)) }
    ensures cause { HasCause (K.faults out.old) (K.faults out.new) result }
{
    let mut at = 0;
    while at < bytes.len() {
        let Ok(count) = out.write(&bytes[at..]) else {
            return Err(Failed);
        };
        at += count;
    }
    Ok(())
}
