//! One run over disks in memory.

ghost use Rattle.std.specs.Prelude.{◌≡◌, ℕ, length, map, IfOk};
ghost use Rattle.std.specs.String.{string_bytes};
ghost use Rattle.oz_command.specs.command_line.Words.{IsRunWith};

use crate::gate::CountingGate;
use crate::nodes::nodes_for;
use oz_cluster::{DiskName, Disks, Ended, NodeDisks, run};
use oz_fused::{Fuse, FusedDisk};
use oz_world::{MemoryDisk, MemorySink, MemorySource, OutOfMemory};
use run_parts::{Bytes, Left, Place, Stage, bytes_at};
use std::alloc::Global;
use std::mem;
use std::sync::Wait;
use std::thread::Threads;

/// What the disks of a run are made of, and the fuse that they share.
#[derive(Drop)]
pub struct Fused<'a> {
    pub stage: &'a Stage,
    pub fuse: Fuse,
}

/// A disk with the bytes that it is given, whose calls fail as the case says.
pub fn disk_of(alloc: Global, name: DiskName, fused: &Fused) -> Result<FusedDisk, OutOfMemory> {
    let stage = fused.stage;
    let bytes = bytes_at(&stage.given, name).to_vec(alloc)?;
    let fails = stage.calls_of(Place::Disk(name)).to_vec(alloc)?;
    let room = stage.room.max(bytes.len() as u64);
    let inner = MemoryDisk::new(alloc, bytes, fails, room)?;
    Ok(FusedDisk::new(inner, fused.fuse.share(alloc)?))
}

/// The bytes of the disks of datanodes.
fn bytes_of_nodes(
    alloc: Global,
    nodes: &[NodeDisks<FusedDisk>],
) -> Result<Vec<NodeDisks<Vec<u8>>>, OutOfMemory> {
    let mut all = Vec::new(alloc);
    for node in nodes {
        all.push(NodeDisks {
            meta: node.meta.inner().bytes().to_vec(alloc)?,
            slots: node.slots.inner().bytes().to_vec(alloc)?,
        })?;
    }
    Ok(all)
}

/// The bytes of all disks.
fn bytes_of(alloc: Global, left: &Left) -> Result<Bytes, OutOfMemory> {
    Ok(Bytes {
        manager: left.manager.inner().bytes().to_vec(alloc)?,
        scm: left.scm.inner().bytes().to_vec(alloc)?,
        nodes: bytes_of_nodes(alloc, &left.nodes)?,
    })
}

/// The disks of a run with these words.
fn disks_for(
    alloc: Global,
    words: &[String],
    fused: &Fused,
) -> Result<Disks<FusedDisk>, OutOfMemory>
    ensures { (nodes workers : ℕ) → IsRunWith (map string_bytes words.now) nodes workers →
        IfOk result (λ disks. length disks.nodes.items ≡ nodes) }
{
    Ok(Disks {
        manager: disk_of(alloc, DiskName::Manager, fused)?,
        scm: disk_of(alloc, DiskName::Scm, fused)?,
        nodes: nodes_for(alloc, words, fused)?,
    })
}

/// The disks of a run with these words over what the stage gives.
fn disks_of(alloc: Global, words: &[String], stage: &Stage) -> Result<Disks<FusedDisk>, OutOfMemory>
    ensures { (nodes workers : ℕ) → IsRunWith (map string_bytes words.now) nodes workers →
        IfOk result (λ disks. length disks.nodes.items ≡ nodes) }
{
    let fused = Fused {
        stage,
        fuse: Fuse::new(alloc, stage.fuse)?,
    };
    disks_for(alloc, words, &fused)
}

/// The script of a run, of which the calls fail that the stage says.
fn source_of(alloc: Global, stage: &Stage) -> Result<MemorySource, OutOfMemory> {
    let script = stage.script.to_vec(alloc)?;
    let calls = stage.calls_of(Place::Source).to_vec(alloc)?;
    Ok(MemorySource::new(script, calls))
}

/// What takes the text of a run, of which the calls fail that the stage says.
fn sink_of(alloc: Global, stage: &Stage) -> Result<MemorySink, OutOfMemory> {
    let calls = stage.calls_of(Place::Sink).to_vec(alloc)?;
    MemorySink::new(alloc, calls)
}

/// Runs over these disks. What a run promises isn't asked of it here: whoever judges asks the disks and the story.
fn ran<R: Threads + Wait + Sync + AllocGlobal>(
    rt: &R,
    words: &[String],
    source: &mut MemorySource,
    out: &mut MemorySink,
    disks: Disks<FusedDisk>,
    gate: &CountingGate,
) -> Ended<FusedDisk>
    requires { (nodes workers : ℕ) → IsRunWith (map string_bytes words.now) nodes workers →
        length disks.nodes.items ≡ nodes }
{
    run(rt, rt.alloc(), words, source, out, disks, gate)
}

/// What a run left, which wrote this text at this gate.
fn left_of(ended: Ended<FusedDisk>, text: String, gate: &CountingGate) -> Left {
    let Ended {
        status,
        story,
        disks,
    } = ended;
    let Disks {
        manager,
        scm,
        nodes,
    } = disks;
    Left {
        status,
        text,
        story,
        manager,
        scm,
        nodes,
        flusher: gate.flusher(),
        others: gate.others(),
    }
}

/// What a run with these words leaves of what the stage gives it.
fn left_by<R: Threads + Wait + Sync + AllocGlobal>(
    rt: &R,
    stage: &Stage,
    words: &[String],
) -> Result<Left, OutOfMemory> {
    let alloc = rt.alloc();
    let mut source = source_of(alloc, stage)?;
    let mut out = sink_of(alloc, stage)?;
    let disks = disks_of(alloc, words, stage)?;
    let gate = CountingGate::new(stage.yields);
    let ended = ran(rt, words, &mut source, &mut out, disks, &gate);
    let text = String::from_utf8_lossy(alloc, out.held())?;
    Ok(left_of(ended, text, &gate))
}

/// Runs with these words over what the stage gives. The next run is given what this one left, and no call of it fails.
pub fn go<R: Threads + Wait + Sync + AllocGlobal>(
    rt: &R,
    stage: &mut Stage,
    words: &[String],
) -> Result<(), OutOfMemory> {
    let left = left_by(rt, stage, words)?;
    let after = bytes_of(rt.alloc(), &left)?;
    let given = mem::replace(&mut stage.given, after);
    stage.was = given;
    stage.failing = Vec::new(rt.alloc());
    stage.fuse = u64::MAX;
    stage.left = Some(left);
    Ok(())
}
