//! What a body of a datanode's journal says.

use crate::row::BlockRow;
use oz_container::State;
use oz_dellog::Txn;
use oz_fields::Block;

/// One body of a datanode's journal.
#[derive(Debug, Drop, PartialEq, Eq)]
pub enum Entry {
    /// The block was put or copied.
    Put { block: Block, row: BlockRow },
    /// The replica of a container came to a state.
    SetState { container: u64, state: State },
    /// A transaction was applied: its blocks are gone.
    Apply { txn: Txn },
    /// The replica of a container was dropped: its blocks are gone, and it is deleted.
    Drop { container: u64 },
}
