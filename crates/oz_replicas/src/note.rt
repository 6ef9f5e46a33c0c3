//! What is noted of a datanode.

use oz_core::PutRefusal;
use oz_fields::Block;

/// One thing that came of writing or reading a block at the datanode of this number.
#[derive(Clone, Copy, Debug, PartialEq, Eq)]
pub enum Note {
    /// It holds the block, with so many bytes, and that is stable.
    Put {
        dn: u8,
        block: Block,
        length: u32,
    },
    /// It didn't take the block, or didn't give it.
    Refused {
        dn: u8,
        block: Block,
        refusal: PutRefusal,
    },
    /// One of its disks failed: how often both have so far.
    Halt {
        dn: u8,
        count: u64,
    },
    /// A chunk of the block, as it was read, hasn't the digest that is kept of it.
    Bad {
        dn: u8,
        block: Block,
    },
}
