//! What the log keeps of a transaction.
ghost use Rattle.std.specs.Prelude.{◌≡◌, IfOk, nat_le, not};
ghost use Rattle.std.specs.Bool.{OnTrue, OnFalse};
ghost use Rattle.oz_dellog.specs.Logged.{nobody, new_logged, is_acknowledged_by, acknowledgement_count};
ghost use Rattle.oz_dellog.specs.Logged.{with_acknowledgement, pending_txn};

use crate::txn::Txn;
use oz_fields::{List, OutOfMemory};
use std::alloc::Global;

/// A transaction that isn't retired: the blocks of one container by their own numbers, and of each number that a
/// datanode may have, whether that one acknowledged the transaction.
#[derive(Drop)]
pub struct Logged {
    pub container: u64,
    pub locals: List<u64>,
    pub acknowledged: [bool; DATANODES],
}

/// How many numbers a datanode may have.
const DATANODES: usize = 256;

/// How many acknowledgements a transaction needs: those of its container's three datanodes.
const REPLICAS: usize = 3;

fn nobody() -> [bool; DATANODES]
    ensures { result ≡ nobody }
{
    [false; DATANODES]
}

/// A transaction that nobody acknowledged yet.
pub(crate) fn new_logged(container: u64, locals: List<u64>) -> Logged
    ensures { result ≡ new_logged container locals }
{
    Logged {
        container,
        locals,
        acknowledged: nobody(),
    }
}

/// Notes an acknowledgement. False where it was noted before.
pub(crate) fn acknowledge(logged: &mut Logged, dn: u8) -> bool
    ensures before { is_acknowledged_by logged.old dn ≡ not result }
    ensures new { OnTrue result (logged.new ≡ with_acknowledgement logged.old dn) }
    ensures again { OnFalse result (logged.new ≡ logged.old) }
    ensures container { logged.new.container ≡ logged.old.container }
{
    if logged.acknowledged[dn as usize] {
        return false;
    }
    logged.acknowledged[dn as usize] = true;
    true
}

/// Whether enough datanodes acknowledged it.
pub(crate) fn is_done(logged: &Logged) -> bool
    ensures { result ≡ nat_le 3 (acknowledgement_count logged.now) }
{
    logged.acknowledged.iter().filter(|flag| **flag).count() >= REPLICAS
}

/// The transaction as a datanode is told it, None where that one acknowledged it.
pub(crate) fn pending_txn(
    alloc: Global,
    number: u64,
    logged: &Logged,
    dn: u8,
) -> Result<Option<Txn>, OutOfMemory>
    ensures { IfOk result (λ txn. txn ≡ pending_txn number logged.now dn) }
{
    if logged.acknowledged[dn as usize] {
        return Ok(None);
    }
    let locals = Vec::from_slice(alloc, logged.locals.items())?;
    Ok(Some(Txn {
        number,
        container: logged.container,
        locals: List::of(locals),
    }))
}
