//! The maps in which rows and replicas are kept.

ghost use Rattle.std.specs.Prelude.{◌≡◌, ◌==◌, ℕ, None, Some, true, is_some, option_copied, OnOk, if◌then◌else◌};
ghost use Rattle.oz_entries.specs.Held.{place_of, row_of, replica_of, state_in, greatest_in};
ghost use Rattle.oz_entries.specs.Node.{is_same_block, is_in};
ghost use Rattle.oz_fields.specs.declared.block.Block.{Block as AnyBlock};

use crate::replica::Replica;
use crate::row::BlockRow;
use oz_container::State;
use oz_fields::{Block, OutOfMemory};
use std::collections::BTreeMap;

/// The rows of blocks, None where there is only room for one.
pub(crate) type Rows = BTreeMap<Block, Option<BlockRow>>;

pub(crate) fn row_at<'m>(rows: &'m Rows, block: &Block) -> Option<&'m BlockRow>
    ensures { option_copied result ≡ row_of rows.now.entries block.now }
{
    match rows.get(block) {
        Some(Some(row)) => Some(row),
        _ => None,
    }
}

/// Makes room for a block's row, so that it can be given one later without memory. It stands for the same.
pub(crate) fn make_room(rows: &mut Rows, block: Block) -> Result<(), OutOfMemory>
    ensures room { OnOk result (is_some (place_of rows.new.entries block) ≡ true) }
    ensures rows { (other : AnyBlock) → row_of rows.new.entries other ≡ row_of rows.old.entries other }
{
    match rows.get(&block) {
        Some(_) => Ok(()),
        None => {
            rows.insert(block, None)?;
            Ok(())
        }
    }
}

/// Gives a row to a block for which there is room.
pub(crate) fn give_row(rows: &mut Rows, block: Block, row: BlockRow)
    requires { is_some (place_of rows.old.entries block) ≡ true }
    ensures { (other : AnyBlock) → row_of rows.new.entries other
        ≡ (if is_same_block block other then Some row else row_of rows.old.entries other) }
{
    let _ = rows.insert(block, Some(row));
}

/// The row that a block had, which is gone.
pub(crate) fn take_row(rows: &mut Rows, block: &Block) -> Option<BlockRow>
    ensures taken { result ≡ row_of rows.old.entries block.now }
    ensures gone { (other : AnyBlock) → row_of rows.new.entries other
        ≡ (if is_same_block block.now other then None else row_of rows.old.entries other) }
{
    match rows.remove(block) {
        Some(row) => row,
        None => None,
    }
}

/// The rows of a container's blocks are gone.
pub(crate) fn drop_rows(rows: &mut Rows, container: u64)
    ensures { (other : AnyBlock) → row_of rows.new.entries other
        ≡ (if is_in container other then None else row_of rows.old.entries other) }
{
    rows.retain(|block, _| container != block.container);
}

pub(crate) fn replica_at(replicas: &BTreeMap<u64, Replica>, container: u64) -> Option<Replica>
    ensures { result ≡ replica_of replicas.now.entries container }
{
    replicas.get(&container).copied()
}

/// Names a replica that wasn't named, so that it can be changed later without memory. It stands for the same.
pub(crate) fn name(replicas: &mut BTreeMap<u64, Replica>, container: u64) -> Result<(), OutOfMemory>
    ensures named { OnOk result (is_some (replica_of replicas.new.entries container) ≡ true) }
    ensures states { (other : ℕ) → state_in replicas.new.entries other ≡ state_in replicas.old.entries other }
    ensures greatest { (other : ℕ) → greatest_in replicas.new.entries other ≡ greatest_in replicas.old.entries other }
{
    match replicas.get(&container) {
        Some(_) => Ok(()),
        None => {
            replicas.insert(
                container,
                Replica {
                    state: State::Open,
                    greatest: 0,
                },
            )?;
            Ok(())
        }
    }
}

/// Changes a replica that was named.
pub(crate) fn change(replicas: &mut BTreeMap<u64, Replica>, container: u64, replica: Replica)
    requires { is_some (replica_of replicas.old.entries container) ≡ true }
    ensures { (other : ℕ) → replica_of replicas.new.entries other
        ≡ (if container == other then Some replica else replica_of replicas.old.entries other) }
{
    let _ = replicas.insert(container, replica);
}
