//! Tables, and the batches that wait to go down into them.

ghost use Rattle.std.specs.Prelude.{◌≡◌, ◌+◌, ◌<◌, ◌≤◌, [], ◌++◌, length, take, drop, OnOk};
ghost use Rattle.oz_rows.specs.declared.key.RowKey.{RowKey as AnyKey};
ghost use Rattle.oz_rows.specs.declared.operation.TheConstants.{END_OF_INDEXES};
ghost use Rattle.oz_rows.specs.RowMaps.{row_of, row_after};
ghost use Rattle.oz_cache.specs.Cache.{batched_changes, epoch_after, up_to, later};
ghost use Rattle.oz_cache.specs.Waiting.{EpochsRise, starts_by};

use crate::batch::Batch;
use oz_fields::OutOfMemory;
use oz_tables::Tables;
use std::alloc::{AllocError, Global};
use std::collections::LinkedList;
use std::marker::Model;

/// Tables, and the batches that wait to go down into them. The tables have room for `room` changes,
/// of which `count` are those of the batches.
#[derive(Drop)]
pub struct Pending {
    tables: Tables,
    batches: LinkedList<Batch>,
    count: usize,
    room: usize,
}

impl Model for Pending {
    ghost use Rattle.std.specs.Prelude.{◌-◌};
    ghost use Rattle.oz_cache.specs.Waiting.{Waiting, IsBacked};

    ghost Value = { Waiting };

    ghost view = { λ p. record { durable = p.tables; batches = p.batches; spare = p.room - p.count } };

    ghost invariant = { λ p. IsBacked p.tables p.batches p.count p.room };
}

impl Pending {
    pub fn over(alloc: Global, tables: Tables) -> Pending
        ensures durable { result.durable ≡ tables }
        ensures batches { result.batches ≡ [] }
    {
        Pending {
            tables,
            batches: LinkedList::new(alloc),
            count: 0,
            room: 0,
        }
    }

    pub fn tables(&self) -> &Tables
        ensures { result.now ≡ self.now.durable }
    {
        &self.tables
    }

    pub fn last_epoch(&self) -> u64
        ensures { result ≡ epoch_after self.now.durable.last_index self.now.batches }
    {
        match self.batches.back() {
            Some(batch) => batch.epoch,
            None => self.tables.last_index(),
        }
    }

    /// Makes room for so many more changes.
    pub fn reserve(&mut self, alloc: Global, changes: usize) -> Result<(), OutOfMemory>
        ensures rows { self.new.durable.rows ≡ self.old.durable.rows }
        ensures last_index { self.new.durable.last_index ≡ self.old.durable.last_index }
        ensures batches { self.new.batches ≡ self.old.batches }
        ensures room { OnOk result (changes ≤ self.new.spare) }
        ensures kept { self.old.spare ≤ self.new.spare }
    {
        let Some(room) = self.count.checked_add(changes) else {
            return Err(AllocError);
        };
        self.tables.reserve(alloc, room)?;
        self.room = self.room.max(room);
        Ok(())
    }

    /// Puts a batch, which has so many changes, behind the others.
    pub fn push(&mut self, mut batch: LinkedList<Batch>, changes: usize)
        requires changes { changes ≡ length (batched_changes batch) }
        requires room { changes ≤ self.old.spare }
        requires rise { EpochsRise (epoch_after self.old.durable.last_index self.old.batches) batch }
        requires limit { epoch_after (epoch_after self.old.durable.last_index self.old.batches) batch < END_OF_INDEXES }
        ensures durable { self.new.durable ≡ self.old.durable }
        ensures batches { self.new.batches ≡ self.old.batches ++ batch }
        ensures spare { self.old.spare ≡ self.new.spare + changes }
        ensures rise { EpochsRise self.new.durable.last_index self.new.batches }
    {
        self.count += changes;
        self.batches.append(&mut batch).unwrap();
    }

    /// Applies the batches up to an epoch to the tables.
    pub fn move_down(&mut self, epoch: u64)
        ensures rows { (key : AnyKey) → row_of self.new.durable.rows key
            ≡ row_after (batched_changes (up_to epoch self.old.batches)) key (row_of self.old.durable.rows key) }
        ensures last_index { self.new.durable.last_index
            ≡ epoch_after self.old.durable.last_index (up_to epoch self.old.batches) }
        ensures batches { self.new.batches ≡ later epoch self.old.batches }
        ensures spare { self.old.spare ≤ self.new.spare }
        ensures rise { EpochsRise self.old.durable.last_index self.old.batches }
    {
        let _ = &self.count;
        while self.starts_by(epoch) {
            self.move_first();
        }
    }

    /// Whether the first batch is of an epoch up to this one.
    fn starts_by(&self, epoch: u64) -> bool
        ensures starts { result ≡ starts_by epoch self.now.batches }
        ensures rise { EpochsRise self.now.durable.last_index self.now.batches }
    {
        let _ = &self.count;
        match self.batches.front() {
            Some(batch) => batch.epoch <= epoch,
            None => false,
        }
    }

    /// Applies the first batch.
    fn move_first(&mut self)
        requires { 0 < length self.old.batches }
        ensures rows { (key : AnyKey) → row_of self.new.durable.rows key
            ≡ row_after (batched_changes (take 1 self.old.batches)) key (row_of self.old.durable.rows key) }
        ensures last_index { self.new.durable.last_index
            ≡ epoch_after self.old.durable.last_index (take 1 self.old.batches) }
        ensures batches { self.new.batches ≡ drop 1 self.old.batches }
        ensures spare { self.old.spare ≤ self.new.spare }
    {
        let Some(Batch { epoch, changes }) = self.batches.pop_front() else {
            unreachable!()
        };
        self.count -= changes.len();
        self.room -= changes.len();
        self.tables.apply(epoch, changes.into_items());
    }
}
