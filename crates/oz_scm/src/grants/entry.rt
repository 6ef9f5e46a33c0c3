//! What a body of the storage container manager's journal says.

use oz_container::Event;
use oz_dellog::Txn;

/// Block ids that are granted at once: `count` of them from `first` on, in one container.
#[derive(Clone, Copy, Debug, PartialEq, Eq)]
pub struct Grant {
    pub container: u64,
    /// The pipeline whose datanodes have the container's replicas.
    pub pipeline: u8,
    pub first: u64,
    pub count: u32,
}

/// One body of the journal.
#[derive(Debug, Drop, PartialEq, Eq)]
pub enum Entry {
    /// How many datanodes there are.
    Nodes { count: u8 },
    /// Block ids were granted to a stripe. The first grant in a container makes it.
    Granted { stripe: u8, grant: Grant },
    /// A container that was made goes on to another state.
    Stepped { container: u64, event: Event },
    /// Blocks of a container are to be deleted, under the number of the transaction.
    Logged { txn: Txn },
    /// A datanode acknowledged the transaction of a number.
    Acked { number: u64, dn: u8 },
    /// All three of its datanodes acknowledged it, and it is kept no more.
    Retired { number: u64 },
}
