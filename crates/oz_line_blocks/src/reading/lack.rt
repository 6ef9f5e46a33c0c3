//! What is known of a member that gives no bytes of a block.

ghost use Rattle.std.specs.Prelude.{◌≡◌, ◌↔◌, map, Contains, IsTrue, Some};
ghost use Rattle.oz_line_blocks.specs.reading.Lacks.{doubted_in, lack_of, none_doubted};

use oz_asker::Still;
use oz_fields::Block;

/// Why a member gives no bytes of a block for an ask.
#[derive(Clone, Copy, Debug, PartialEq, Eq)]
pub enum Lack {
    /// The datanode of this number has refused the block for the ask, or told that it is bad. That stays so.
    Doubted(u8),
    /// It hasn't the block, as long as it doesn't come to have it.
    Absent(Still),
}

/// The members of a block that have refused it for an ask, or told that it is bad. They aren't asked for it again.
#[derive(Clone, Copy, Debug, PartialEq, Eq)]
pub struct Doubted {
    dns: [Option<u8>; 3],
}

impl Doubted {
    pub fn none() -> Doubted
        ensures { result ≡ none_doubted }
    {
        Doubted { dns: [None; 3] }
    }

    /// Those of three members that were doubted.
    pub fn of(lacks: [Lack; 3]) -> Doubted
        ensures { result.dns ≡ map doubted_in lacks }
    {
        let [first, second, third] = lacks;
        Doubted {
            dns: [doubted_in(first), doubted_in(second), doubted_in(third)],
        }
    }

    pub(crate) fn has(&self, dn: u8) -> bool
        ensures { IsTrue result ↔ Contains self.now.dns (Some dn) }
    {
        self.dns.contains(&Some(dn))
    }
}

fn doubted_in(lack: Lack) -> Option<u8>
    ensures { result ≡ doubted_in lack }
{
    match lack {
        Lack::Doubted(dn) => Some(dn),
        Lack::Absent(_) => None,
    }
}

/// What a member lacks that gave no bytes at this place of the story, and told why or told nothing.
pub(crate) fn lack_of(dn: u8, block: Block, has_told: bool, place: u64) -> Lack
    ensures { result ≡ lack_of dn block has_told place }
{
    if has_told {
        return Lack::Doubted(dn);
    }
    Lack::Absent(Still::Without { dn, block, place })
}
