//! The transactions that aren't retired, by their numbers.
ghost use Rattle.std.specs.Prelude.{◌≡◌, ◌≤◌, ◌+◌, ◌↔◌, ℕ, List, length, None, IsTrue, IfOk, IfErr, OnOk, OnErr, Any, filter_map};
ghost use Rattle.std.specs.Prelude.{option_copied};
ghost use Rattle.std.specs.Bool.{OnTrue, OnFalse};
ghost use Rattle.oz_dellog.specs.declared.txn.TheConstants.{MOST_LOCALS};
ghost use Rattle.oz_dellog.specs.Index.{pending_at, Names};
ghost use Rattle.std.specs.FinMap.{empty, get, entries};
ghost use Rattle.std.specs.Map.Iter.{ShowsInOrder, deref_pair};

use crate::index::{list, numbers_of, unlist};
use crate::logged::{Logged, acknowledge, is_done, new_logged, pending_txn};
use crate::txn::Txn;
use oz_fields::{Block, List, OutOfMemory};
use std::alloc::{AllocError, Global};
use std::collections::BTreeMap;
use std::collections::btree_map::Iter;
use std::marker::Model;

/// The log of deleted blocks. A transaction has a number of its own, one above the last, from 1, and is kept until
/// it is retired.
#[derive(Drop)]
pub struct DelLog {
    last: u64,
    unretired: BTreeMap<u64, Logged>,
    index: BTreeMap<u64, Vec<u64>>,
}

impl Model for DelLog {
    ghost use Rattle.std.specs.FinMap.{from_entries};
    ghost use Rattle.oz_dellog.specs.Codes.{coded_log};
    ghost use Rattle.oz_dellog.specs.Log.{Log};
    ghost use Rattle.oz_dellog.specs.Index.{IsIndexed};

    ghost Value = { Log };

    ghost coded = { coded_log };

    ghost view = { λ log. record { last = log.last; unretired = from_entries log.unretired.entries } };

    ghost invariant = { λ log. IsIndexed log.last log.unretired log.index };
}

impl DelLog {
    ghost use Rattle.oz_dellog.specs.declared.logged.Logged.{Logged as Entry};
    ghost use Rattle.oz_dellog.specs.Log.{Log, with_txn, pending, awaits, acknowledged, is_done, without_txn, IsLogged};

    /// A log in which no transaction was logged. It takes no memory.
    pub fn new(alloc: Global) -> DelLog
        ensures { result ≡ record { last = 0; unretired = empty } }
    {
        DelLog {
            last: 0,
            unretired: BTreeMap::new(alloc),
            index: BTreeMap::new(alloc),
        }
    }

    /// The number of the last transaction that was logged, 0 for none.
    pub fn last(&self) -> u64
        ensures { result ≡ self.now.last }
    {
        self.last
    }

    /// What was logged under a number and isn't retired.
    pub fn get(&self, number: u64) -> Option<&Logged>
        ensures { option_copied result ≡ get self.now.unretired number }
    {
        self.unretired.get(&number)
    }

    /// What was logged and isn't retired, in the order of the numbers.
    pub fn unretired(&self) -> Iter<'_, u64, Logged>
        ensures rest { result ≡ entries self.now.unretired }
        ensures runs { ShowsInOrder (deref_pair {K = ℕ} {X = Entry}) }
    {
        self.unretired.iter()
    }

    /// Logs that these blocks of a container are to be deleted, and gives the number of the transaction. Where memory
    /// runs out the local ids come back. The same is answered where the numbers are spent, after 2^64 - 1 transactions.
    pub fn add(
        &mut self,
        alloc: Global,
        container: u64,
        locals: List<u64>,
    ) -> Result<u64, (List<u64>, OutOfMemory)>
        requires some { 1 ≤ length locals }
        requires few { length locals ≤ MOST_LOCALS }
        ensures number { IfOk result (λ number. number ≡ self.old.last + 1) }
        ensures ok { OnOk result (self.new ≡ with_txn self.old container locals) }
        ensures err { OnErr result (self.new ≡ self.old) }
        ensures returned { IfErr result (λ refused. refused.0 ≡ locals) }
    {
        let Some(number) = self.last.checked_add(1) else {
            return Err((locals, AllocError));
        };
        let Ok(()) = list(&mut self.index, alloc, container, number) else {
            return Err((locals, AllocError));
        };
        match self.unretired.insert(number, new_logged(container, locals)) {
            Ok(_) => {
                self.last = number;
                Ok(number)
            }
            Err(refused) => {
                unlist(&mut self.index, container, number);
                let (_, logged) = refused.value;
                Err((logged.locals, AllocError))
            }
        }
    }

    /// The transactions of a container that a datanode hasn't acknowledged, in the order of their numbers.
    pub fn pending(&self, alloc: Global, container: u64, dn: u8) -> Result<Vec<Txn>, OutOfMemory>
        ensures { IfOk result (λ txns. txns.items ≡ pending self.now container dn) }
    {
        let numbers = numbers_of(&self.index, container);
        pending_txns(alloc, &self.unretired, numbers, dn)
    }

    /// Notes that a datanode acknowledged a transaction. It takes no memory.
    pub fn ack(&mut self, number: u64, dn: u8) -> bool
        ensures answer { result ≡ awaits self.old number dn }
        ensures noted { OnTrue result (self.new ≡ acknowledged self.old number dn) }
        ensures refused { OnFalse result (self.new ≡ self.old) }
    {
        match self.unretired.get_mut(&number) {
            Some(logged) => acknowledge(logged, dn),
            None => false,
        }
    }

    /// Forgets a transaction that three datanodes acknowledged. It takes no memory.
    pub fn retire(&mut self, number: u64) -> bool
        ensures answer { result ≡ is_done self.old number }
        ensures retired { OnTrue result (self.new ≡ without_txn self.old number) }
        ensures refused { OnFalse result (self.new ≡ self.old) }
    {
        match self.unretired.get(&number) {
            Some(logged) if is_done(logged) => {
                unlist(&mut self.index, logged.container, number);
                self.unretired.remove(&number);
                true
            }
            _ => false,
        }
    }

    /// Takes away what was logged last, as if it never had been. Where that is retired nothing changes. It takes no memory.
    pub fn take_back(&mut self)
        ensures taken { (log : Log) (container : ℕ) (locals : List ℕ) → get log.unretired (log.last + 1) ≡ None →
            self.old ≡ with_txn log container locals → self.new ≡ log }
        ensures stays { get self.old.unretired self.old.last ≡ None → self.new ≡ self.old }
    {
        let number = self.last;
        let Some(before) = number.checked_sub(1) else {
            return;
        };
        if let Some(logged) = self.unretired.get(&number) {
            unlist(&mut self.index, logged.container, number);
            self.unretired.remove(&number);
            self.last = before;
        }
    }

    /// Whether a transaction that isn't retired names the block.
    pub fn logged(&self, block: Block) -> bool
        ensures { IsTrue result ↔ IsLogged self.now block }
    {
        let numbers = numbers_of(&self.index, block.container);
        any_names(&self.unretired, numbers, block.local)
    }
}

/// Of the transactions with these numbers, those that a datanode hasn't acknowledged.
fn pending_txns(
    alloc: Global,
    unretired: &BTreeMap<u64, Logged>,
    numbers: &[u64],
    dn: u8,
) -> Result<Vec<Txn>, OutOfMemory>
    ensures { IfOk result (λ txns. txns.items ≡ filter_map (pending_at unretired.now dn) numbers.now) }
{
    let mut found = Vec::new(alloc);
    for number in numbers {
        if let Some(txn) = pending_at(alloc, unretired, dn, *number)? {
            found.push(txn)?;
        }
    }
    Ok(found)
}

fn pending_at(
    alloc: Global,
    unretired: &BTreeMap<u64, Logged>,
    dn: u8,
    number: u64,
) -> Result<Option<Txn>, OutOfMemory>
    ensures { IfOk result (λ txn. txn ≡ pending_at unretired.now dn number) }
{
    match unretired.get(&number) {
        Some(logged) => pending_txn(alloc, number, logged, dn),
        None => Ok(None),
    }
}

/// Whether one of the transactions with these numbers has the local id.
fn any_names(unretired: &BTreeMap<u64, Logged>, numbers: &[u64], local: u64) -> bool
    ensures { IsTrue result ↔ Any (λ number. Names unretired.now number local) numbers.now }
{
    numbers
        .iter()
        .any(|number| names(unretired, *number, local))
}

fn names(unretired: &BTreeMap<u64, Logged>, number: u64, local: u64) -> bool
    ensures { IsTrue result ↔ Names unretired.now number local }
{
    match unretired.get(&number) {
        Some(logged) => logged.locals.items().contains(&local),
        None => false,
    }
}
