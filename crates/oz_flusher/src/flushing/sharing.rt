//! Flushing by many threads.

ghost use Rattle.std.specs.Prelude.{◌≡◌, ◌<◌, IfSome, IfOk, IfErr};
ghost use Rattle.oz_turn.specs.Turn.{turn_id};
ghost use Rattle.oz_world.specs.Faults.{Rose};

use crate::Flushed;
use crate::flushing::flushing::Flushing;
use crate::flushing::mounted::Mounted;
use oz_buffer::{Ledger, Opened};
use oz_turn::{Ring, Turn};
use oz_world::{Disk, Gate};
use std::sync::{Mutex, Wait};

/// Flushes if no other thread has the lock; None where one has it, or is about to. An error is the count of faults with
/// which the manager halted.
pub fn flush_if_free<D: Disk, O: Opened, M: Mounted, R: Ring, W: Wait, G: Gate>(
    rt: &W,
    lock: &Mutex<Flushing<D, Ledger<O>, O, M, R>>,
    turn: &Turn<Ledger<O>>,
    gate: &G,
) -> Option<Result<Option<Flushed>, u64>>
    requires { turn_id turn.now ≡ R.turn }
    ensures moment { IfSome result (λ told. IfOk told (λ flushed. IfSome flushed (λ this. M.disk.clock < this.moment))) }
    ensures err { IfSome result (λ told. IfErr told (λ count. Rose M.disk.faults count)) }
{
    let mut guard = lock.try_lock()?;
    Some(guard.flush(rt, turn, gate))
}

/// Waits for the lock, and flushes. An error is the count of faults with which the manager halted.
pub fn flush_in_turn<D: Disk, O: Opened, M: Mounted, R: Ring, W: Wait, G: Gate>(
    rt: &W,
    lock: &Mutex<Flushing<D, Ledger<O>, O, M, R>>,
    turn: &Turn<Ledger<O>>,
    gate: &G,
) -> Result<Option<Flushed>, u64>
    requires { turn_id turn.now ≡ R.turn }
    ensures moment { IfOk result (λ flushed. IfSome flushed (λ this. M.disk.clock < this.moment)) }
    ensures err { IfErr result (λ count. Rose M.disk.faults count) }
{
    let mut guard = lock.lock(rt);
    guard.flush(rt, turn, gate)
}
