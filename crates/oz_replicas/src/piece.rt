//! Reading a piece from the members of its block.

ghost use Rattle.std.specs.Prelude.{◌≡◌, ◌<◌, [], All, Contains, IfOk, OnErr};
ghost use Rattle.std.specs.Option.{option_map};
ghost use Rattle.oz_replicas.specs.Reading.{Gave, IsFirstGiven, ReadsShort};

use crate::kept::Kept;
use crate::nodes::Nodes;
use crate::noter::Noter;
use crate::reading::read_at;
use oz_fields::{OutOfMemory, Piece};
use oz_world::Disk;
use std::alloc::Global;
use std::sync::Wait;

/// The bytes of a piece, from the first of its members that gives as many, and None where none does. What came of each is
/// noted. Where there is no memory the members that gave none have been noted.
pub fn read_piece<D: Disk, K: Kept<D>, N: Noter<D, K>, W: Wait>(
    rt: &W,
    alloc: Global,
    nodes: &Nodes<D, K>,
    members: [u8; 3],
    piece: Piece,
    noter: &mut N,
) -> Result<Option<Vec<u8>>, OutOfMemory>
    requires members { All (λ dn. dn < nodes.now) members }
    requires its_members { (N.subject noter.old).members ≡ members }
    requires its_block { (N.subject noter.old).block ≡ piece.block }
    ensures given { IfOk result (λ given. IsFirstGiven D.told D.clock D.image D.faults K.stands N.noted N.knows
        (N.subject noter.old) piece.length members (option_map (λ bytes. bytes.items) given) noter.old noter.new) }
    ensures lacks { OnErr result (ReadsShort D.told D.clock D.image D.faults K.stands N.noted N.knows (N.subject noter.old)
        piece.length members noter.old noter.new) }
    ensures subject { N.subject noter.new ≡ N.subject noter.old }
{
    for dn in members {
        if let Some(bytes) = read_member(rt, alloc, nodes, dn, piece, noter)? {
            return Ok(Some(bytes));
        }
    }
    Ok(None)
}

/// The bytes of a piece from one of its members.
fn read_member<D: Disk, K: Kept<D>, N: Noter<D, K>, W: Wait>(
    rt: &W,
    alloc: Global,
    nodes: &Nodes<D, K>,
    dn: u8,
    piece: Piece,
    noter: &mut N,
) -> Result<Option<Vec<u8>>, OutOfMemory>
    requires there { dn < nodes.now }
    requires member { Contains (N.subject noter.old).members dn }
    requires its_block { (N.subject noter.old).block ≡ piece.block }
    ensures gave { IfOk result (λ given. Gave D.told D.clock D.image D.faults K.stands N.noted N.knows
        (N.subject noter.old) piece.length dn (option_map (λ bytes. bytes.items) given) noter.old noter.new) }
    ensures lacks { OnErr result (N.noted noter.old [] noter.new) }
    ensures subject { N.subject noter.new ≡ N.subject noter.old }
{
    let mut cell = nodes.lock(rt, dn);
    read_at(alloc, &mut cell, piece, noter)
}
