//! What is due of the log of deleted blocks: to whom each transaction is to be sent.

ghost use Rattle.std.specs.Prelude.{◌≡◌, ◌≤◌, ◌<◌, ◌↔◌, ◌++◌, ◌&&◌, All, IfOk, IfSome, IsTrue, OnOk, filter, length, not};
ghost use Rattle.std.specs.List.{list_all};
ghost use Rattle.std.specs.Option.{option_to_list};
ghost use Rattle.oz_core.specs.Scm.{is_up};
ghost use Rattle.oz_dellog.specs.Logged.{is_acknowledged_by};
ghost use Rattle.oz_scm.specs.grants.Log.{IsLocalCount};
ghost use Rattle.oz_service.specs.Sending.{IsSound, due_in, dues_in};

use oz_buffer::{Ledger, Opened};
use oz_dellog::{Logged, Txn};
use oz_fields::{List, OutOfMemory};
use oz_scm_events::ScmCell;
use oz_turn::Ring;
use oz_world::Disk;
use std::alloc::{AllocError, Global};

/// A transaction that is to be sent to these datanodes. Where they are none, all members have acknowledged it, and it is to be retired.
#[derive(Drop)]
pub struct Due {
    pub txn: Txn,
    pub receivers: List<u8>,
}

/// What is due of the log, in the order of the numbers. `count` is how many datanodes there are.
///
/// Errors: no memory. The same is answered where a transaction has the number 0 or a container that wasn't made, and where a
/// member isn't there: no log that was opened has such a one.
pub(crate) fn dues_of<D: Disk, O: Opened, R: Ring>(
    alloc: Global,
    scm: &ScmCell<D, Ledger<O>, O, R>,
    count: u8,
) -> Result<Vec<Due>, OutOfMemory>
    requires opened { count ≡ length O.opening.nodes }
    ensures dues { IfOk result (λ dues. dues.items ≡ dues_in O.opening scm.now.mine scm.now.scm.made) }
    ensures sound { IfOk result (λ dues. All (IsSound count) dues.items) }
{
    scm.are_counted();
    let mut dues = Vec::new(alloc);
    for (number, logged) in scm.unretired() {
        let due = due_of(alloc, scm, count, *number, logged)?;
        push_some(&mut dues, due)?;
    }
    Ok(dues)
}

/// Puts a thing at the end, where there is one.
fn push_some(dues: &mut Vec<Due>, due: Option<Due>) -> Result<(), OutOfMemory>
    ensures { OnOk result (dues.new.items ≡ dues.old.items ++ option_to_list due) }
{
    if let Some(due) = due {
        dues.push(due)?;
    }
    Ok(())
}

/// What is due of what stands under a number.
fn due_of<D: Disk, O: Opened, R: Ring>(
    alloc: Global,
    scm: &ScmCell<D, Ledger<O>, O, R>,
    count: u8,
    number: u64,
    logged: &Logged,
) -> Result<Option<Due>, OutOfMemory>
    requires opened { count ≡ length O.opening.nodes }
    requires counted { IsLocalCount logged.now.locals }
    ensures due { IfOk result (λ due. due ≡ due_in O.opening scm.now.mine (number, logged.now)) }
    ensures sound { IfOk result (λ due. IfSome due (IsSound count)) }
{
    let Some(dns) = scm.members_told(logged.container) else {
        return Err(AllocError);
    };
    if number == 0 || !are_below(dns, count) {
        return Err(AllocError);
    }
    let receivers = receivers_of(alloc, scm, logged, dns)?;
    if receivers.is_empty() && !is_whole(logged, dns) {
        return Ok(None);
    }
    let locals = Vec::from_slice(alloc, logged.locals.items())?;
    let txn = Txn {
        number,
        container: logged.container,
        locals: List::of(locals),
    };
    Ok(Some(Due { txn, receivers }))
}

/// Whether these are numbers of datanodes, where there are so many.
fn are_below(dns: [u8; 3], count: u8) -> bool
    ensures { IsTrue result ↔ All (λ dn. dn < count) dns }
{
    dns.iter().all(|dn| *dn < count)
}

/// Those of these datanodes that are up and haven't acknowledged a transaction.
fn receivers_of<D: Disk, O: Opened, R: Ring>(
    alloc: Global,
    scm: &ScmCell<D, Ledger<O>, O, R>,
    logged: &Logged,
    dns: [u8; 3],
) -> Result<List<u8>, OutOfMemory>
    requires there { All (λ dn. dn < length O.opening.nodes) dns }
    ensures { IfOk result (λ receivers. receivers
        ≡ filter (λ dn. is_up dn scm.now.mine && not (is_acknowledged_by logged.now dn)) dns) }
{
    let mut receivers = Vec::new(alloc);
    for dn in dns {
        if scm.is_up(dn) && !is_acknowledged(logged, dn) {
            receivers.push(dn)?;
        }
    }
    Ok(List::of(receivers))
}

/// Whether each of these datanodes has acknowledged a transaction.
fn is_whole(logged: &Logged, dns: [u8; 3]) -> bool
    ensures { result ≡ list_all (is_acknowledged_by logged.now) dns }
{
    dns.iter().all(|dn| is_acknowledged(logged, *dn))
}

/// Whether a datanode has acknowledged a transaction.
fn is_acknowledged(logged: &Logged, dn: u8) -> bool
    ensures { result ≡ is_acknowledged_by logged.now dn }
{
    logged.acknowledged[usize::from(dn)]
}
