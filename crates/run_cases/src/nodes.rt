//! The disks of datanodes, as many as the words of a run say.

ghost use Rattle.std.specs.Prelude.{◌≡◌, ◌≤◌, ℕ, length, map, IfOk};
ghost use Rattle.std.specs.String.{string_bytes};
ghost use Rattle.oz_command.specs.command_line.Words.{IsRead, IsRunWith};

use crate::going::{Fused, disk_of};
use oz_cluster::{DiskName, NodeDisks, Words, read_words};
use oz_command::{words_are_one_run, words_of_a_run_have_no_fault};
use oz_fused::FusedDisk;
use oz_world::OutOfMemory;
use std::alloc::Global;

/// The disks of a datanode.
fn node_of(alloc: Global, dn: u8, fused: &Fused) -> Result<NodeDisks<FusedDisk>, OutOfMemory> {
    Ok(NodeDisks {
        meta: disk_of(alloc, DiskName::Meta(dn), fused)?,
        slots: disk_of(alloc, DiskName::Slots(dn), fused)?,
    })
}

/// The disks of so many datanodes.
fn nodes_of(
    alloc: Global,
    count: u8,
    fused: &Fused,
) -> Result<Vec<NodeDisks<FusedDisk>>, OutOfMemory>
    ensures { IfOk result (λ nodes. length nodes.items ≡ count) }
{
    let mut nodes = Vec::new(alloc);
    for dn in 0..count {
        nodes.push(node_of(alloc, dn, fused)?)?;
    }
    Ok(nodes)
}

/// The disks of as many datanodes as words say that were read.
fn nodes_named(
    alloc: Global,
    words: &[String],
    read: Words,
    fused: &Fused,
) -> Result<Vec<NodeDisks<FusedDisk>>, OutOfMemory>
    requires { IsRead (map string_bytes words.now) read }
    ensures { (nodes workers : ℕ) → IsRunWith (map string_bytes words.now) nodes workers →
        IfOk result (λ disks. length disks.items ≡ nodes) }
{
    words_are_one_run();
    match read {
        Words::Run { nodes, .. } => nodes_of(alloc, nodes, fused),
    }
}

/// The disks of as many datanodes as these words say, and of three where they are wrong.
pub fn nodes_for(
    alloc: Global,
    words: &[String],
    fused: &Fused,
) -> Result<Vec<NodeDisks<FusedDisk>>, OutOfMemory>
    ensures { (nodes workers : ℕ) → IsRunWith (map string_bytes words.now) nodes workers →
        IfOk result (λ disks. length disks.items ≡ nodes) }
{
    words_of_a_run_have_no_fault();
    match read_words(words) {
        Ok(read) => nodes_named(alloc, words, read, fused),
        Err(_) => nodes_of(alloc, 3, fused),
    }
}
