//! The disks of a folder.

ghost use Rattle.std.specs.Prelude.{ℕ, ◌≡◌, None, codes, vec_len, IfOk, IfSome, All, slice_get};
ghost use Rattle.oz_host.specs.Folder.{IsFileIn, AreNodeFilesIn};

use crate::FileDisk;
use oz_cluster::{Disks, NodeDisks};
use oz_command::DEFAULT_NODES;
use oz_world::OutOfMemory;
use std::alloc::Global;
use std::fs::File;
use std::rt::Files;

/// The disk that is the file of this name in a folder.
fn disk_in<'a, R: Files<File = File>>(
    rt: &'a R,
    alloc: Global,
    dir: &'a str,
    name: &str,
) -> Result<FileDisk<'a, R>, OutOfMemory>
    ensures place { IfOk result (IsFileIn dir.now name.now) }
    ensures unopened { IfOk result (λ disk. disk.file ≡ None) }
{
    let path = format!(in alloc; "{dir}/{name}")?;
    Ok(FileDisk::at(rt, dir, path))
}

/// The disks of a datanode, which are its two files in a folder.
fn node_in<'a, R: Files<File = File>>(
    rt: &'a R,
    alloc: Global,
    dir: &'a str,
    dn: u8,
) -> Result<NodeDisks<FileDisk<'a, R>>, OutOfMemory>
    ensures places { IfOk result (λ node. AreNodeFilesIn dir.now dn node.meta node.slots) }
    ensures unopened { IfOk result (λ node. (node.meta.file ≡ None) × (node.slots.file ≡ None)) }
{
    let meta = format!(in alloc; "dn{dn}.meta")?;
    let slots = format!(in alloc; "dn{dn}.slots")?;
    Ok(NodeDisks {
        meta: disk_in(rt, alloc, dir, &meta)?,
        slots: disk_in(rt, alloc, dir, &slots)?,
    })
}

/// The disks of so many datanodes in a folder.
fn nodes_in<'a, R: Files<File = File>>(
    rt: &'a R,
    alloc: Global,
    dir: &'a str,
    count: u8,
) -> Result<Vec<NodeDisks<FileDisk<'a, R>>>, OutOfMemory>
    ensures count { IfOk result (λ nodes. vec_len nodes ≡ count) }
    ensures places { IfOk result (λ nodes. (dn : ℕ) →
        IfSome (slice_get nodes.items dn) (λ node. AreNodeFilesIn dir.now dn node.meta node.slots)) }
    ensures unopened { IfOk result (λ nodes.
        All (λ node. (node.meta.file ≡ None) × (node.slots.file ≡ None)) nodes.items) }
{
    let mut nodes = Vec::with_capacity(alloc, count as usize)?;
    for dn in 0..count {
        nodes.push_reserved(node_in(rt, alloc, dir, dn)?);
    }
    Ok(nodes)
}

/// The disks of so many datanodes without files.
fn nodes_without_files<'a, R: Files<File = File>>(
    alloc: Global,
    count: u8,
) -> Result<Vec<NodeDisks<FileDisk<'a, R>>>, OutOfMemory>
    ensures count { IfOk result (λ nodes. vec_len nodes ≡ count) }
    ensures untouched { IfOk result (λ nodes.
        All (λ node. (node.meta.place ≡ None) × (node.slots.place ≡ None)) nodes.items) }
    ensures unopened { IfOk result (λ nodes.
        All (λ node. (node.meta.file ≡ None) × (node.slots.file ≡ None)) nodes.items) }
{
    let mut nodes = Vec::with_capacity(alloc, count as usize)?;
    for _ in 0..count {
        nodes.push_reserved(NodeDisks {
            meta: FileDisk::without_file(),
            slots: FileDisk::without_file(),
        });
    }
    Ok(nodes)
}

/// The disks of a folder, each a file there, with those of so many datanodes.
pub fn disks_in<'a, R: Files<File = File>>(
    rt: &'a R,
    alloc: Global,
    dir: &'a str,
    count: u8,
) -> Result<Disks<FileDisk<'a, R>>, OutOfMemory>
    ensures manager { IfOk result (λ disks. IsFileIn dir.now (codes "manager") disks.manager) }
    ensures scm { IfOk result (λ disks. IsFileIn dir.now (codes "scm") disks.scm) }
    ensures nodes { IfOk result (λ disks. (dn : ℕ) →
        IfSome (slice_get disks.nodes.items dn) (λ node. AreNodeFilesIn dir.now dn node.meta node.slots)) }
    ensures count { IfOk result (λ disks. vec_len disks.nodes ≡ count) }
    ensures unopened { IfOk result (λ disks. (disks.manager.file ≡ None) × (disks.scm.file ≡ None)
        × All (λ node. (node.meta.file ≡ None) × (node.slots.file ≡ None)) disks.nodes.items) }
{
    Ok(Disks {
        manager: disk_in(rt, alloc, dir, "manager")?,
        scm: disk_in(rt, alloc, dir, "scm")?,
        nodes: nodes_in(rt, alloc, dir, count)?,
    })
}

/// Disks without files, with those of `DEFAULT_NODES` datanodes.
pub fn disks_without_files<'a, R: Files<File = File>>(
    alloc: Global,
) -> Result<Disks<FileDisk<'a, R>>, OutOfMemory>
    ensures untouched { IfOk result (λ disks. (disks.manager.place ≡ None) × (disks.scm.place ≡ None)
        × All (λ node. (node.meta.place ≡ None) × (node.slots.place ≡ None)) disks.nodes.items) }
    ensures count { IfOk result (λ disks. vec_len disks.nodes ≡ 3) }
    ensures unopened { IfOk result (λ disks. (disks.manager.file ≡ None) × (disks.scm.file ≡ None)
        × All (λ node. (node.meta.file ≡ None) × (node.slots.file ≡ None)) disks.nodes.items) }
{
    Ok(Disks {
        manager: FileDisk::without_file(),
        scm: FileDisk::without_file(),
        nodes: nodes_without_files(alloc, DEFAULT_NODES)?,
    })
}

/// Closes the files.
pub fn let_go<R: Files<File = File>>(disks: Disks<FileDisk<'_, R>>) {
    let Disks {
        manager: _,
        scm: _,
        mut nodes,
    } = disks;
    loop {
        match nodes.pop() {
            Some(NodeDisks { meta: _, slots: _ }) => {}
            None => {
                nodes.destroy_empty();
                return;
            }
        }
    }
}
