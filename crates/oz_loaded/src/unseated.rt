//! What was loaded, before it has its seats.

ghost use Rattle.std.specs.Prelude.{◌≡◌, IfOk, List as AnyList};
ghost use Rattle.oz_loaded.specs.Counted.{IsGreatestId, left_in as blocks_left};
ghost use Rattle.oz_loaded.specs.Parts.{AreParts};
ghost use Rattle.oz_namespace.specs.declared.namespace.Namespace.{Namespace as AnyNamespace};
ghost use Rattle.oz_rows.specs.declared.entry.RowEntry.{RowEntry as AnyEntry};
ghost use Rattle.oz_rows.specs.RowMaps.{row_of};
ghost use Rattle.oz_sound.specs.StandsFor.{StandsFor};

use crate::counting::{greatest_in, left_in};
use crate::parting::parts_of;
use crate::standing::namespace_of;
use crate::walking::{all_rows, first_keys};
use oz_cache::Cached;
use oz_fields::{Block, List, OutOfMemory, TryClone};
use oz_namespace::Namespace;
use oz_tables::Tables;
use std::alloc::Global;
use std::marker::Model;

/// What was counted of the rows of a disk.
#[derive(Drop)]
pub struct Counted {
    pub last_index: u64,
    pub greatest_id: u64,
    pub left: List<Block>,
}

/// The rows of a disk in sixteen parts, and what was counted of them.
#[derive(Drop)]
pub struct Unseated {
    parts: Vec<Cached>,
    last_index: u64,
    greatest_id: u64,
    left: List<Block>,
}

impl Model for Unseated {
    ghost use Rattle.oz_loaded.specs.Unseated.{UnseatedView};

    ghost Value = { UnseatedView };

    ghost view = { λ u. record {
      parts = u.parts.items;
      last_index = u.last_index;
      greatest_id = u.greatest_id;
      left = u.left;
    } };
}

impl Unseated {
    /// Copies of the rows of tables, in parts.
    pub(crate) fn over(alloc: Global, tables: &Tables) -> Result<Unseated, OutOfMemory>
        ensures parts { IfOk result (λ unseated. AreParts tables.now.rows tables.now.last_index unseated.parts) }
        ensures last_index { IfOk result (λ unseated. unseated.last_index ≡ tables.now.last_index) }
        ensures greatest_id { IfOk result (λ unseated. IsGreatestId (row_of tables.now.rows) unseated.greatest_id) }
        ensures left { IfOk result (λ unseated. unseated.left ≡ blocks_left tables.now.rows) }
    {
        tables.rows_are_in_order();
        let starts = first_keys(alloc)?;
        let rows = all_rows(alloc, tables, &starts)?;
        let parts = parts_of(alloc, &rows, tables.last_index())?;
        let left = left_in(alloc, &rows)?;
        Ok(Unseated {
            parts,
            last_index: tables.last_index(),
            greatest_id: greatest_in(&rows),
            left,
        })
    }

    /// The index of the last transaction that the rows stand for, 0 where there was none.
    pub fn last_index(&self) -> u64
        ensures { result ≡ self.now.last_index }
    {
        self.last_index
    }

    /// The greatest local id in any row, 0 where there is none.
    pub fn greatest_id(&self) -> u64
        ensures { result ≡ self.now.greatest_id }
    {
        self.greatest_id
    }

    /// The blocks of deleted rows, in the order of the rows.
    pub fn left(&self, alloc: Global) -> Result<Vec<Block>, OutOfMemory>
        ensures { IfOk result (λ blocks. blocks.items ≡ self.now.left) }
    {
        let left = self.left.try_clone(alloc)?;
        Ok(left.into_items())
    }

    /// The namespace that the rows stand for, made of copies. Where they stand for none it is some namespace.
    pub fn namespace(&self, alloc: Global) -> Result<Namespace, OutOfMemory>
        ensures { IfOk result (λ made. (all : AnyList AnyEntry) (namespace : AnyNamespace) →
            AreParts all self.now.last_index self.now.parts → StandsFor (row_of all) namespace → made ≡ namespace) }
    {
        namespace_of(alloc, &self.parts)
    }

    /// The sixteen parts, in the order of the stripes, and what was counted. It takes no memory.
    pub fn into_parts(self) -> (Vec<Cached>, Counted)
        ensures { self ≡ record {
          parts = result.0.items;
          last_index = result.1.last_index;
          greatest_id = result.1.greatest_id;
          left = result.1.left;
        } }
    {
        let Unseated {
            parts,
            last_index,
            greatest_id,
            left,
        } = self;
        let counted = Counted {
            last_index,
            greatest_id,
            left,
        };
        (parts, counted)
    }

    /// Parts, and what was counted of them, put together again. It takes no memory.
    pub fn from_parts(parts: Vec<Cached>, counted: Counted) -> Unseated
        ensures { result ≡ record {
          parts = parts.items;
          last_index = counted.last_index;
          greatest_id = counted.greatest_id;
          left = counted.left;
        } }
    {
        let Counted {
            last_index,
            greatest_id,
            left,
        } = counted;
        Unseated {
            parts,
            last_index,
            greatest_id,
            left,
        }
    }
}
