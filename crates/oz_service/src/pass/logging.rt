//! The blocks of deleted rows are logged, in transactions of the log of deleted blocks.

ghost use Rattle.std.specs.Prelude.{◌≡◌, [], All, IfErr, IfOk, OnOk};
ghost use Rattle.oz_buffer.specs.Buffer.{AllFollow, Follows};
ghost use Rattle.oz_core.specs.Law.{IsPurged};
ghost use Rattle.oz_core.specs.Seats.{service_seat};
ghost use Rattle.oz_om.specs.Purging.{blocks_of_all};
ghost use Rattle.oz_om.specs.Shown.{HasSeen};
ghost use Rattle.oz_service.specs.Purges.{AreLogged, ArePurgedOf, IsInLog, LogFaultHolds};
ghost use Rattle.oz_turn.specs.Seat.{IsReady, seen_of};

use crate::pass::parts::Parts;
use crate::splitting::transactions;
use oz_buffer::{Ledger, Opened};
use oz_dellog::Txn;
use oz_fields::{Block, List, OutOfMemory};
use oz_locks::Loaded;
use oz_rows::RowKey;
use oz_scm_events::{AckFault, ScmCell, the_scm_alone_tells};
use oz_turn::{Ring, Seat};
use oz_world::Disk;
use std::alloc::Global;
use std::sync::Wait;

/// Has the storage container manager log all blocks of these rows, which were asked for, under one hold of its lock.
///
/// Errors: as `ScmCell::log_txn` says. The transactions before that are logged.
pub(crate) fn log_all<D: Disk, O: Opened, L: Loaded, R: Ring, W: Wait>(
    parts: &Parts<'_, D, O, L, R, W>,
    seat: &mut Seat<Ledger<O>>,
    rows: &[(RowKey, List<Block>)],
) -> Result<(), AckFault>
    requires ready { IsReady R.turn service_seat seat.old }
    requires follow { AllFollow (Follows O.coherent O.opening O.bytes O.script) [] (seen_of seat.old) }
    requires purged { All (IsPurged (seen_of seat.old)) (blocks_of_all rows.now) }
    ensures shown { HasSeen R.turn O.coherent O.opening O.bytes O.script service_seat seat.old seat.new }
    ensures logged { OnOk result (AreLogged (seen_of seat.new) (blocks_of_all rows.now)) }
    ensures refused { IfErr result (LogFaultHolds (seen_of seat.new)) }
{
    let blocks = all_blocks(parts.lent.alloc, rows)?;
    let mut scm = parts.lent.scm.lock(parts.lent.rt);
    log_locked(parts, &mut scm, seat, blocks.as_slice())
}

/// All blocks of these rows.
fn all_blocks(alloc: Global, rows: &[(RowKey, List<Block>)]) -> Result<Vec<Block>, OutOfMemory>
    ensures { IfOk result (λ blocks. blocks.items ≡ blocks_of_all rows.now) }
{
    let mut blocks = Vec::new(alloc);
    for row in rows {
        blocks.extend_from_slice(row.1.items())?;
    }
    Ok(blocks)
}

/// Logs these blocks while the lock is held.
fn log_locked<D: Disk, O: Opened, L: Loaded, R: Ring, W: Wait>(
    parts: &Parts<'_, D, O, L, R, W>,
    scm: &mut ScmCell<D, Ledger<O>, O, R>,
    seat: &mut Seat<Ledger<O>>,
    blocks: &[Block],
) -> Result<(), AckFault>
    requires ready { IsReady R.turn service_seat seat.old }
    requires follow { AllFollow (Follows O.coherent O.opening O.bytes O.script) [] (seen_of seat.old) }
    requires purged { All (IsPurged (seen_of seat.old)) blocks.now }
    ensures shown { HasSeen R.turn O.coherent O.opening O.bytes O.script service_seat seat.old seat.new }
    ensures logged { OnOk result (AreLogged (seen_of seat.new) blocks.now) }
    ensures refused { IfErr result (LogFaultHolds (seen_of seat.new)) }
{
    let txns = transactions(parts.lent.alloc, scm.last_txn(), blocks)?;
    log_txns(parts, scm, seat, txns.as_slice())
}

/// Logs these transactions while the lock is held.
fn log_txns<D: Disk, O: Opened, L: Loaded, R: Ring, W: Wait>(
    parts: &Parts<'_, D, O, L, R, W>,
    scm: &mut ScmCell<D, Ledger<O>, O, R>,
    seat: &mut Seat<Ledger<O>>,
    txns: &[Txn],
) -> Result<(), AckFault>
    requires ready { IsReady R.turn service_seat seat.old }
    requires follow { AllFollow (Follows O.coherent O.opening O.bytes O.script) [] (seen_of seat.old) }
    requires purged { All (ArePurgedOf (seen_of seat.old)) txns.now }
    ensures shown { HasSeen R.turn O.coherent O.opening O.bytes O.script service_seat seat.old seat.new }
    ensures logged { OnOk result (All (IsInLog (seen_of seat.new)) txns.now) }
    ensures refused { IfErr result (LogFaultHolds (seen_of seat.new)) }
{
    for txn in txns {
        log_one(parts, scm, seat, txn)?;
    }
    Ok(())
}

/// Logs one transaction while the lock is held.
fn log_one<D: Disk, O: Opened, L: Loaded, R: Ring, W: Wait>(
    parts: &Parts<'_, D, O, L, R, W>,
    scm: &mut ScmCell<D, Ledger<O>, O, R>,
    seat: &mut Seat<Ledger<O>>,
    txn: &Txn,
) -> Result<(), AckFault>
    requires ready { IsReady R.turn service_seat seat.old }
    requires purged { ArePurgedOf (seen_of seat.old) txn.now }
    ensures shown { HasSeen R.turn O.coherent O.opening O.bytes O.script service_seat seat.old seat.new }
    ensures logged { OnOk result (IsInLog (seen_of seat.new) txn.now) }
    ensures refused { IfErr result (LogFaultHolds (seen_of seat.new)) }
{
    the_scm_alone_tells::<O>();
    let (rt, alloc, turn) = (parts.lent.rt, parts.lent.alloc, parts.lent.turn);
    scm.log_txn(rt, alloc, turn, seat, txn)
}
