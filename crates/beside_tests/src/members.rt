//! A block that is put at one of its members in a call, and a piece that is read from all in one, which no run does: a line's block is
//! put at all of them in one call, and its members are asked for a piece one after another.

ghost use Rattle.std.specs.Prelude.{◌≡◌, ◌<◌, ◌+◌, length, IfOk};
ghost use Rattle.oz_replicas.specs.Cells.{AreInOrder};
ghost use Rattle.oz_replicas.specs.Stays.{IsIdle};

use crate::book::holds;
use oz_datanode::{Datanode, NodeDisks};
use oz_fields::{Block, Piece};
use oz_replicas::{
    NoNotes, NodeCell, Nodes, cells_stay_in_order, read_piece, write_at, write_block,
};
use oz_world::{MemoryDisk, OpenGate, OutOfMemory};
use std::alloc::Global;
use std::sync::Wait;
use std::test::Fail;

type Three = Nodes<MemoryDisk, ()>;

type Cell = NodeCell<MemoryDisk, ()>;

const MEMBERS: [u8; 3] = [0, 1, 2];

fn empty_disk(alloc: Global) -> Result<MemoryDisk, OutOfMemory> {
    MemoryDisk::new(alloc, Vec::new(alloc), Vec::new(alloc), 32_768)
}

fn empty_disks(alloc: Global) -> Result<NodeDisks<MemoryDisk>, OutOfMemory> {
    Ok(NodeDisks {
        meta: empty_disk(alloc)?,
        slots: empty_disk(alloc)?,
    })
}

/// The datanode of this number over empty disks.
fn loaded(alloc: Global, dn: u8) -> Result<Datanode<MemoryDisk>, Fail>
    ensures number { IfOk result (λ node. node.id ≡ dn) }
    ensures idle { IfOk result (λ node. IsIdle node) }
{
    match Datanode::load(alloc, dn, empty_disks(alloc)?) {
        Ok(node) => Ok(node),
        Err((_disks, _fault)) => Err("not loaded".into()),
    }
}

fn cell(alloc: Global, dn: u8) -> Result<Cell, Fail>
    ensures { IfOk result (λ cell. cell.node.id ≡ dn) }
{
    Ok(NodeCell::new(loaded(alloc, dn)?, ()))
}

/// These cells, and the datanode of the next number behind them.
fn with_next(alloc: Global, cells: Vec<Cell>, dn: u8) -> Result<Vec<Cell>, Fail>
    requires count { length cells.items ≡ dn }
    requires in_order { AreInOrder cells.items }
    ensures count { IfOk result (λ more. length more.items ≡ dn + 1) }
    ensures in_order { IfOk result (λ more. AreInOrder more.items) }
{
    cells_stay_in_order::<MemoryDisk, ()>();
    let mut more = cells;
    let next = cell(alloc, dn)?;
    more.push(next)?;
    Ok(more)
}

/// The datanodes 0, 1 and 2.
fn three(alloc: Global) -> Result<Three, Fail>
    ensures { IfOk result (λ nodes. nodes ≡ 3) }
{
    cells_stay_in_order::<MemoryDisk, ()>();
    let cells = with_next(alloc, Vec::new(alloc), 0)?;
    let cells = with_next(alloc, cells, 1)?;
    let cells = with_next(alloc, cells, 2)?;
    match Nodes::make(alloc, cells) {
        Ok(nodes) => Ok(nodes),
        Err((_cells, error)) => Err(error.into()),
    }
}

fn block() -> Block
    ensures { result ≡ record { container = 1; local = 1 } }
{
    Block {
        container: 1,
        local: 1,
    }
}

/// The block is put at the first of them alone. Answers whether it is.
fn puts_at_first(alloc: Global, cell: &mut Cell) -> Result<bool, OutOfMemory> {
    if cell.node.id() != 0 {
        return Ok(false);
    }
    let bytes = b"abc".as_slice();
    let mut notes = NoNotes {
        block: block(),
        members: [0, 1, 2],
        bytes,
    };
    let refusal = write_at(alloc, cell, block(), bytes, &mut notes)?;
    Ok(refusal.is_none())
}

fn first_puts<R: Wait>(rt: &R, alloc: Global, nodes: &Three) -> Result<bool, OutOfMemory>
    requires { nodes.now ≡ 3 }
{
    let mut cell = nodes.lock(rt, 0);
    puts_at_first(alloc, &mut cell)
}

/// The block is put at all three, with the same bytes.
fn puts<R: Wait>(rt: &R, alloc: Global, nodes: &Three) -> Result<bool, OutOfMemory>
    requires { nodes.now ≡ 3 }
{
    let (bytes, gate) = (b"abc".as_slice(), OpenGate);
    let mut notes = NoNotes {
        block: block(),
        members: MEMBERS,
        bytes,
    };
    let written = write_block(rt, alloc, nodes, MEMBERS, block(), bytes, &gate, &mut notes)?;
    let [first, second, third] = written.answers;
    Ok(first.is_none() && second.is_none() && third.is_none())
}

/// Whether a piece of this length gives these bytes.
fn gives<R: Wait>(
    rt: &R,
    alloc: Global,
    nodes: &Three,
    length: u32,
    wanted: Option<&[u8]>,
) -> Result<bool, OutOfMemory>
    requires { nodes.now ≡ 3 }
{
    let mut notes = NoNotes {
        block: block(),
        members: MEMBERS,
        bytes: &[],
    };
    let piece = Piece {
        block: block(),
        length,
    };
    let found = read_piece(rt, alloc, nodes, MEMBERS, piece, &mut notes)?;
    Ok(match (&found, wanted) {
        (Some(bytes), Some(wanted)) => bytes.as_slice() == wanted,
        (None, None) => true,
        _ => false,
    })
}

fn stop<R: Wait>(rt: &R, nodes: &Three, dn: u8)
    requires { dn < nodes.now }
{
    let mut cell = nodes.lock(rt, dn);
    cell.node.stop();
}

#[test]
fn the_first_member_that_has_a_piece_gives_it(rt: HostRuntime) -> Result<(), Fail> {
    let alloc = rt.alloc();
    let nodes = three(alloc)?;
    holds(&rt, gives(&rt, alloc, &nodes, 3, None)?, "none has it");
    holds(&rt, first_puts(&rt, alloc, &nodes)?, "one puts it");
    let abc = Some(b"abc".as_slice());
    holds(&rt, gives(&rt, alloc, &nodes, 3, abc)?, "and gives it");
    holds(&rt, puts(&rt, alloc, &nodes)?, "all three have it");
    holds(&rt, gives(&rt, alloc, &nodes, 2, None)?, "another length");
    stop(&rt, &nodes, 0);
    holds(&rt, gives(&rt, alloc, &nodes, 3, abc)?, "the second");
    stop(&rt, &nodes, 1);
    stop(&rt, &nodes, 2);
    holds(&rt, gives(&rt, alloc, &nodes, 3, None)?, "all are stopped");
    Ok(())
}
