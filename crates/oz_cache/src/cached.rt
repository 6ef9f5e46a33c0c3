//! Tables with newer rows above them, as one map.

ghost use Rattle.std.specs.Prelude.{◌≡◌, ◌+◌, ◌^◌, ◌<◌, ◌≤◌, ◌↔◌, [], ◌∷◌, ◌++◌, length, false, None, option_copied, IsTrue};
ghost use Rattle.std.specs.Prelude.{MatchOption, IfOk, OnOk};
ghost use Rattle.std.specs.Ordering.{is_gt, is_lt};
ghost use Rattle.oz_rows.specs.declared.key.RowKey.{RowKey as AnyKey};
ghost use Rattle.oz_rows.specs.declared.operation.TheConstants.{END_OF_INDEXES};
ghost use Rattle.oz_rows.specs.Rows.{kind_of};
ghost use Rattle.oz_rows.specs.Order.{key_order};
ghost use Rattle.oz_rows.specs.Counts.{IsCount};
ghost use Rattle.oz_rows.specs.RowMaps.{row_of, row_after, IsNext, HasNoNext};
ghost use Rattle.oz_cache.specs.Places.{over_rows, counted_anew};
ghost use Rattle.oz_cache.specs.Cache.{changed_at, epochs_under, one_or_none};
ghost use Rattle.oz_cache.specs.Cache.{batch_of, batched_changes, newest, epoch_after, last_epoch, up_to, later};

use crate::cached_rows::CachedRows;
use crate::newer::Newer;
use crate::pending::Pending;
use crate::prepared::Prepared;
use oz_epochs::{EpochList, Steps};
use oz_fields::OutOfMemory;
use oz_rows::{Change, Row, RowKey, RowMap};
use oz_tables::Tables;
use std::alloc::Global;
use std::marker::Model;
use std::sync::ledger::Ledger;

/// Tables with newer rows above them, as one map from keys to rows.
pub struct Cached {
    pending: Pending,
    newer: Newer,
}

impl Model for Cached {
    ghost use Rattle.std.specs.Prelude.{min};
    ghost use Rattle.oz_cache.specs.Cache.{CacheView, epoch_after};
    ghost use Rattle.oz_cache.specs.Places.{AreLastOf};
    ghost use Rattle.oz_cache.specs.Linked.{AllBy};

    ghost Value = { CacheView };

    ghost view = { λ c. record {
      durable = c.pending.durable;
      entered = c.pending.batches;
      epochs = c.newer.epochs;
      spare = min c.pending.spare c.newer.spare;
    } };

    ghost invariant = { λ c. record {
      last : AreLastOf c.pending.batches c.newer.rows;
      ends : AllBy (epoch_after c.pending.durable.last_index c.pending.batches) c.newer.epochs;
    } };
}

/// Who lets cached rows go needn't know how they are kept.
impl Drop for Cached {
    fn drop(self) {
        let Cached {
            pending: _,
            newer: _,
        } = self;
    }
}

impl Cached {
    /// Tables with nothing above them. It takes no memory.
    pub fn over(alloc: Global, tables: Tables) -> Cached
        ensures durable { result.durable ≡ tables }
        ensures entered { result.entered ≡ [] }
        ensures epochs { result.epochs ≡ [] }
    {
        Cached {
            pending: Pending::over(alloc, tables),
            newer: Newer::new(alloc),
        }
    }

    /// The newest row of a key.
    pub fn get(&self, key: &RowKey) -> Option<&Row>
        ensures { option_copied result ≡ newest self.now key.now }
    {
        match self.newer.rows().find(key) {
            Some(cached) => cached.row.as_ref(),
            None => self.pending.tables().get(key),
        }
    }

    /// The least key above this one that is of the same kind and has a row, and its newest row. The
    /// key itself may have none. It looks at one cached row more than it passes over, and passes
    /// only over keys that were taken away.
    pub fn next(&self, key: &RowKey) -> Option<(&RowKey, &Row)>
        ensures { MatchOption result
            (HasNoNext (newest self.now) key.now)
            (λ found. IsNext (newest self.now) key.now found.0.now found.1.now) }
    {
        let tables = self.pending.tables();
        let rows = self.newer.rows();
        let mut from = key;
        let mut next = rows.next(key);
        while let Some((at, cached)) = next {
            let below = tables.next(from);
            if !comes_first(at, from, below) {
                return below;
            }
            match &cached.row {
                Some(row) => return Some((at, row)),
                None => from = at,
            }
            next = rows.next(at);
        }
        tables.next(from)
    }

    /// How many keys from one on and below another have a row. It searches by halving, and looks at
    /// each cached row between the two.
    pub fn count(&self, from: &RowKey, to: &RowKey) -> usize
        ensures { IsCount (newest self.now) from.now to.now result }
    {
        count_with(self.pending.tables(), self.newer.rows(), from, to)
    }

    /// The tables, which stand for what was flushed.
    pub fn durable(&self) -> &Tables
        ensures { result.now ≡ self.now.durable }
    {
        self.pending.tables()
    }

    /// The last epoch that was entered, or the tables' last index where everything was flushed.
    pub fn last_epoch(&self) -> u64
        ensures { result ≡ last_epoch self.now }
    {
        self.pending.last_epoch()
    }

    /// The list of the epochs of all cached rows, those among them that mark a removal. It has one
    /// entry for each key that was changed and not yet flushed since, of the epoch of the last change.
    pub fn epochs(&self) -> &EpochList<RowKey>
        ensures list { result.now.entries ≡ self.now.epochs }
        ensures each { (key : AnyKey) → epochs_under key self.now.epochs
            ≡ one_or_none (changed_at key None self.now.entered) }
    {
        self.newer.epochs()
    }

    /// Takes all memory that these changes need. Where it runs out, the changes are gone.
    pub fn prepare(&mut self, alloc: Global, changes: Vec<Change>) -> Result<Prepared, OutOfMemory>
        ensures changes { IfOk result (λ prepared. prepared ≡ changes.items) }
        ensures room { OnOk result (length changes.items ≤ self.new.spare) }

        ensures rows { self.new.durable.rows ≡ self.old.durable.rows }
        ensures last_index { self.new.durable.last_index ≡ self.old.durable.last_index }
        ensures entered { self.new.entered ≡ self.old.entered }
        ensures epochs { self.new.epochs ≡ self.old.epochs }
        ensures kept { self.old.spare ≤ self.new.spare }
    {
        self.pending.reserve(alloc, changes.len())?;
        self.newer.reserve(alloc, changes.len())?;
        Prepared::of(alloc, changes)
    }

    /// Enters prepared changes under an epoch. It takes no memory. The limit is that of the indices
    /// in the manager's journal.
    pub fn enter(&mut self, epoch: u64, prepared: Prepared)
        requires room { length prepared ≤ self.old.spare }
        requires above { last_epoch self.old < epoch }
        requires limit { epoch < END_OF_INDEXES }
        ensures entered { self.new.entered ≡ self.old.entered ++ batch_of epoch prepared ∷ [] }
        ensures durable { self.new.durable ≡ self.old.durable }
        ensures newest { (key : AnyKey) → newest self.new key ≡ row_after prepared key (newest self.old key) }
        ensures last { last_epoch self.new ≡ epoch }
        ensures spare { self.old.spare ≤ self.new.spare + length prepared }
    {
        let (batch, changes) = prepared.under(epoch);
        self.pending.push(batch, changes.len());
        self.newer.enter(epoch, changes);
    }

    /// Moves what was entered up to an epoch down into the tables, where it is durable, and takes the
    /// cached rows out that no later epoch wrote. It takes no memory, and at most one step more than
    /// it takes rows out. The changes that go down are not counted, nor is the search for a row.
    pub fn flushed<L: Ledger>(&mut self, epoch: u64, steps: &mut Steps<L>)
        ensures rows { (key : AnyKey) → row_of self.new.durable.rows key
            ≡ row_after (batched_changes (up_to epoch self.old.entered)) key (row_of self.old.durable.rows key) }
        ensures last_index { self.new.durable.last_index
            ≡ epoch_after self.old.durable.last_index (up_to epoch self.old.entered) }
        ensures entered { self.new.entered ≡ later epoch self.old.entered }

        // To readers nothing changes.
        ensures newest { (key : AnyKey) → newest self.new key ≡ newest self.old key }
        ensures last { last_epoch self.new ≡ last_epoch self.old }

        ensures spare { self.old.spare ≤ self.new.spare }
        ensures steps { steps.new + length self.new.epochs ≤ steps.old + length self.old.epochs + 1 }
    {
        self.pending.move_down(epoch);
        self.newer.keep_after(epoch, steps);
    }
}

/// Whether the first cached row above a key comes before what the tables have next.
fn comes_first(at: &RowKey, from: &RowKey, below: Option<(&RowKey, &Row)>) -> bool
    ensures { IsTrue result ↔ MatchOption below.entry
        (kind_of at.now ≡ kind_of from.now)
        (λ found. is_gt (key_order at.now found.0.now) ≡ false) }
{
    match below {
        Some((key, _)) => at.cmp(key).is_le(),
        None => at.kind() == from.kind(),
    }
}

/// How many keys have a row in tables with these cached rows above them.
fn count_with(tables: &Tables, cached: &CachedRows, from: &RowKey, to: &RowKey) -> usize
    ensures { IsCount (over_rows cached.now.rows.entries (row_of tables.now.rows)) from.now to.now result }
{
    let mut count = tables.count(from, to);
    let _ = cached.len();
    let mut next = cached.first_from(from);
    while let Some((at, row)) = next {
        if !is_below(at, to) {
            break;
        }
        count = count_after(count, tables.get(at).is_some(), row.row.is_some());
        next = cached.next(at);
    }
    count
}

fn is_below(a: &RowKey, b: &RowKey) -> bool
    ensures { result ≡ is_lt (key_order a.now b.now) }
{
    a.cmp(b).is_lt()
}

/// A count, where a row was there before or not, and is there now or not.
fn count_after(count: usize, before: bool, now: bool) -> usize
    requires { count + 1 < 2 ^ 64 }
    ensures { result ≡ counted_anew count before now }
{
    if before == now {
        count
    } else if now {
        count + 1
    } else {
        count.saturating_sub(1)
    }
}

/// The newest rows, for who decides over them.
impl RowMap for Cached {
    ghost rows = { newest };

    fn get(&self, key: &RowKey) -> Option<&Row> {
        Cached::get(self, key)
    }

    fn next(&self, key: &RowKey) -> Option<(&RowKey, &Row)> {
        Cached::next(self, key)
    }

    fn count(&self, from: &RowKey, to: &RowKey) -> usize {
        Cached::count(self, from, to)
    }
}
