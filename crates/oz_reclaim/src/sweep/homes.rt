//! Which dead row has a block.

ghost use Rattle.std.specs.Prelude.{◌≡◌, ◌||◌, ◌+◌, ◌++◌, ◌≤◌, [], false, length, flat_map, None, Some, IfOk, OnOk, option_copied, if◌then◌else◌};
ghost use Rattle.oz_fields.specs.declared.block.Block.{Block as AnyBlock};
ghost use Rattle.oz_reclaim.specs.sweep.Homes.{Enters, blocks_at, has_block, home_of, homes_in, is_left, is_others as others_too};
ghost use Rattle.oz_rows.specs.RowMaps.{is_block, row_of};

use oz_fields::{Block, OutOfMemory, TryClone};
use oz_rows::{Change, Row, RowKey};
use oz_sorted::SortedMap;
use oz_tables::Tables;
use std::alloc::Global;

/// The keys of dead rows, by their blocks. Sound rows don't share a block. Where rows did once, the keys may lack some of them.
#[derive(Debug, Drop)]
pub(crate) struct Homes {
    pub keys: SortedMap<Block, RowKey>,
    pub is_shared: bool,
}

impl Homes {
    /// No block has a key. It takes no memory.
    pub fn new(alloc: Global) -> Homes
        ensures keys { result.keys.entries ≡ [] }
        ensures shared { result.is_shared ≡ false }
    {
        Homes {
            keys: SortedMap::new(alloc),
            is_shared: false,
        }
    }
}

/// A block of a dead row, and the row's key.
#[derive(Debug, Drop)]
pub(crate) struct Home {
    pub block: Block,
    pub key: RowKey,
}

/// The blocks of dead rows that come, with room for them.
pub(crate) fn homes_to_come(
    alloc: Global,
    homes: &mut Homes,
    changes: &[Change],
) -> Result<Vec<Home>, OutOfMemory>
    ensures others { IfOk result (λ others. others.items ≡ flat_map homes_in changes.now) }
    ensures room { IfOk result (λ others. length others.items ≤ homes.new.keys.spare) }
    ensures keys { homes.new.keys.entries ≡ homes.old.keys.entries }
    ensures shared { homes.new.is_shared ≡ homes.old.is_shared }
{
    let others = homes_of(alloc, changes)?;
    homes.keys.reserve(alloc, others.len())?;
    Ok(others)
}

fn homes_of(alloc: Global, changes: &[Change]) -> Result<Vec<Home>, OutOfMemory>
    ensures { IfOk result (λ homes. homes.items ≡ flat_map homes_in changes.now) }
{
    let mut homes = Vec::new(alloc);
    for change in changes {
        add_homes(alloc, change, &mut homes)?;
    }
    Ok(homes)
}

fn add_homes(alloc: Global, change: &Change, homes: &mut Vec<Home>) -> Result<(), OutOfMemory>
    ensures { OnOk result (homes.new.items ≡ homes.old.items ++ homes_in change.now) }
{
    let blocks = dead_blocks(change.row.as_ref());
    for block in blocks {
        let key = change.key.try_clone(alloc)?;
        homes.push(Home { block: *block, key })?;
    }
    Ok(())
}

/// The blocks of a deleted row.
fn dead_blocks(row: Option<&Row>) -> &[Block]
    ensures { result.now ≡ blocks_at (option_copied row.entry) }
{
    match row {
        Some(Row::Deleted { blocks }) => blocks.items(),
        _ => &[],
    }
}

/// The blocks lose their keys that the rows have which these changes put or take away.
pub(crate) fn leave_homes(homes: &mut Homes, dead: &Tables, changes: &[Change])
    ensures keys { (block : AnyBlock) → home_of homes.new.keys.entries block
        ≡ (if is_left dead.now.rows changes.now block then None else home_of homes.old.keys.entries block) }
    ensures spare { homes.old.keys.spare ≤ homes.new.keys.spare }
    ensures shared { homes.new.is_shared ≡ homes.old.is_shared }
{
    for change in changes {
        leave_row(&mut homes.keys, dead.get(&change.key));
    }
}

fn leave_row(keys: &mut SortedMap<Block, RowKey>, row: Option<&Row>)
    ensures keys { (block : AnyBlock) → home_of keys.new.entries block
        ≡ (if has_block block (option_copied row.entry) then None else home_of keys.old.entries block) }
    ensures spare { keys.old.spare ≤ keys.new.spare }
{
    let blocks = dead_blocks(row);
    for block in blocks {
        keys.remove(block);
    }
}

/// Gives blocks their keys. Room for them was made.
pub(crate) fn enter_homes(homes: &mut Homes, others: Vec<Home>)
    requires { length others.items ≤ homes.old.keys.spare }
    ensures { homes.new.is_shared ≡ false → (homes.old.is_shared ≡ false)
        × Enters others.items homes.old.keys.entries homes.new.keys.entries }
{
    for home in others {
        enter_home(homes, home);
    }
}

fn enter_home(homes: &mut Homes, home: Home)
    requires { 1 ≤ homes.old.keys.spare }
    ensures shared { homes.new.is_shared ≡ (homes.old.is_shared || others_too (home_of homes.old.keys.entries home.block) home.key) }
    ensures keys { (block : AnyBlock) → home_of homes.new.keys.entries block
        ≡ (if is_block block home.block then Some home.key else home_of homes.old.keys.entries block) }
    ensures spare { homes.old.keys.spare ≤ homes.new.keys.spare + 1 }
{
    let Home { block, key } = home;
    let is_others = is_others(homes.keys.get(&block), &key);
    homes.is_shared = homes.is_shared || is_others;
    homes.keys.insert(block, key);
}

fn is_others(home: Option<&RowKey>, key: &RowKey) -> bool
    ensures { result ≡ others_too (option_copied home.entry) key.now }
{
    match home {
        Some(other) => !other.cmp(key).is_eq(),
        None => false,
    }
}
