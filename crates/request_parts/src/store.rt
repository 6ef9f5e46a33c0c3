//! What a case of requests has: rows, the namespace beside them, and what was opened and granted.

ghost use Rattle.std.specs.Prelude.{◌≡◌, ◌<◌};

use oz_cache::Cached;
use oz_epochs::Steps;
use oz_fields::{Block, List, OutOfMemory};
use oz_model::Namespace;
use oz_reclaim::Sweep;
use oz_requests::Reply;
use oz_rows::Change;
use oz_tables::Tables;
use std::alloc::{AllocError, Global};
use std::marker::Brand;
use std::sync::ledger::{Blank, Ledger};

/// A block that was granted to a session.
#[derive(Drop)]
pub struct Grant {
    pub session: String,
    pub block: Block,
    /// The index at which the block left reach, None while it is reached.
    pub left: Option<u64>,
}

/// Rows and the namespace beside them.
#[derive(Drop)]
pub struct Store {
    pub cached: Cached,
    pub namespace: Namespace,
    /// The sessions that were opened, each by its volume, bucket, key and number.
    pub opened: Vec<String>,
    pub grants: Vec<Grant>,
    /// The operations of the last request that was decided.
    pub batch: List<u8>,
    /// Whether rows were purged, so that granted blocks may stand nowhere.
    pub is_purged: bool,
    pub sweep: Sweep,
    /// Whether a snapshot was deleted since the last sweep.
    pub is_marked: bool,
    /// Whether a deleted snapshot was worked off before the sweep knew of its deletion, so that it may date a row later.
    pub is_early: bool,
    /// The line of the statement that is gone through, and what doesn't hold, once something doesn't.
    pub why: String,
}

impl Store {
    pub fn new(alloc: Global) -> Store {
        Store {
            cached: Cached::over(alloc, Tables::new(alloc)),
            namespace: Namespace::new(alloc),
            opened: Vec::new(alloc),
            grants: Vec::new(alloc),
            batch: List::new(alloc),
            is_purged: false,
            sweep: Sweep::new(alloc),
            is_marked: false,
            is_early: false,
            why: String::new(alloc),
        }
    }

    /// Enters changes of the rows under the next epoch.
    pub fn enter(&mut self, alloc: Global, changes: List<Change>) -> Result<(), OutOfMemory> {
        if changes.is_empty() {
            return Ok(());
        }
        let epoch = self.cached.last_epoch();
        self.sweep.room(alloc, changes.items())?;
        let prepared = self.cached.prepare(alloc, changes.into_items())?;
        if epoch < 1 << 62 {
            self.cached.enter(epoch + 1, prepared);
            self.sweep.enter(epoch + 1);
        }
        Ok(())
    }

    /// Notes what the reply to a request opened or granted.
    pub fn note(&mut self, alloc: Global, said: &str, reply: &Reply) -> Result<(), AllocError> {
        match reply {
            Reply::Session(number) => note_opened(alloc, &mut self.opened, said, *number),
            Reply::Granted(block, _) => note_granted(alloc, &mut self.grants, said, *block),
            _ => Ok(()),
        }
    }
}

fn note_opened(
    alloc: Global,
    opened: &mut Vec<String>,
    said: &str,
    number: u64,
) -> Result<(), AllocError> {
    let mut session = some_words(alloc, said, 3)?;
    write!(session, " {number}")?;
    opened.push(session)?;
    Ok(())
}

fn note_granted(
    alloc: Global,
    grants: &mut Vec<Grant>,
    said: &str,
    block: Block,
) -> Result<(), AllocError> {
    let session = some_words(alloc, said, 4)?;
    grants.push(Grant {
        session,
        block,
        left: None,
    })?;
    Ok(())
}

/// So many words of a request, behind the first.
pub fn some_words(alloc: Global, said: &str, count: usize) -> Result<String, AllocError> {
    let mut text = String::new(alloc);
    for word in said.split(' ').skip(1).take(count) {
        if !text.is_empty() {
            text.push(' ')?;
        }
        text.push_str(word)?;
    }
    Ok(text)
}

/// Moves what was entered down into the tables.
pub fn flush(cached: &mut Cached) {
    bring_down::<Brand>(cached, Blank::new(1));
}

fn bring_down<L: Ledger>(cached: &mut Cached, blank: Blank)
    requires name { blank.name ≡ L.name }
    requires parts { blank.parts ≡ L.parts }
    requires some { 0 < L.parts }
{
    let mut steps = Steps::<L>::start(blank);
    let epoch = cached.last_epoch();
    cached.flushed(epoch, &mut steps);
}
