//! A disk in memory by hand: each of its bytes is a letter.

use oz_world::{Disk, MemoryDisk};
use std::alloc::{AllocError, Global};
use std::process::Abort;
use std::test::Fail;

/// How many bytes the disk has room for.
const ROOM: u64 = 8;

fn holds(rt: &impl Abort, it: bool, what: &str) {
    assert!(rt; it, "{what}");
}

/// Whether a read answers. It gives these bytes, or leaves the room for them alone.
fn reads(
    rt: &impl Abort,
    alloc: Global,
    disk: &mut MemoryDisk,
    at: u64,
    bytes: &str,
) -> Result<bool, AllocError> {
    let mut room = vec![in alloc; b'.'; bytes.len()]?;
    let size = disk.bytes().len() as u64;
    assert!(rt; at <= size && room.len() as u64 <= size - at);
    let answers = disk.read_at(at, &mut room).is_ok();
    let wanted = if answers { bytes } else { "..." };
    holds(rt, room.as_slice() == wanted.as_bytes(), "what is read");
    Ok(answers)
}

/// Whether a call of the disk answers.
fn answers(
    rt: &impl Abort,
    alloc: Global,
    disk: &mut MemoryDisk,
    name: &str,
    at: u64,
    bytes: &str,
) -> Result<bool, AllocError> {
    assert!(rt; at <= disk.bytes().len() as u64);
    Ok(match name {
        "write" => disk.write_at(at, bytes.as_bytes()).is_ok(),
        "cut" => disk.cut(at).is_ok(),
        "sync" => disk.sync().is_ok(),
        "len" => disk.len() == Ok(at),
        _ => reads(rt, alloc, disk, at, bytes)?,
    })
}

/// Whether a stop may leave these bytes, by what it leaves of the writes that no sync followed.
fn leaves(alloc: Global, disk: &MemoryDisk, choice: u8, bytes: &str) -> Result<bool, AllocError> {
    Ok(disk.image(alloc, choice)?.as_slice() == bytes.as_bytes())
}

/// A call with its place and its bytes, whether it answers, and what a stop may leave then: nothing of what no sync
/// followed, all of it, or the first half of each write.
type Row = (
    &'static str,
    u64,
    &'static str,
    bool,
    &'static str,
    &'static str,
    &'static str,
);

/// Of these calls the seventh and those behind it fail up to the eleventh.
const ROWS: [Row; 15] = [
    ("write", 1, "wxyz", true, "abc", "awxyz", "awx"),
    ("read", 1, "wxy", true, "abc", "awxyz", "awx"),
    ("sync", 0, "", true, "awxyz", "awxyz", "awxyz"),
    ("cut", 2, "", true, "awxyz", "aw", "aw"),
    ("write", 2, "jkl", true, "awxyz", "awjkl", "awj"),
    ("write", 5, "mn", true, "awxyz", "awjklmn", "awj\0\0m"),
    ("len", 7, "", false, "awxyz", "awjklmn", "awj\0\0m"),
    ("write", 7, "o", false, "awxyz", "awjklmn", "awj\0\0m"),
    ("sync", 0, "", false, "awxyz", "awjklmn", "awj\0\0m"),
    ("cut", 2, "", false, "awxyz", "awjklmn", "awj\0\0m"),
    ("read", 4, "lmn", false, "awxyz", "awjklmn", "awj\0\0m"),
    ("len", 7, "", true, "awxyz", "awjklmn", "awj\0\0m"),
    ("write", 7, "op", false, "awxyz", "awjklmn", "awj\0\0m"),
    ("write", 7, "o", true, "awxyz", "awjklmno", "awj\0\0m\0"),
    ("sync", 0, "", true, "awjklmno", "awjklmno", "awjklmno"),
];

#[test]
fn a_stop_leaves_what_was_synced_and_part_of_the_rest(rt: HostRuntime) -> Result<(), Fail> {
    let alloc = rt.alloc();
    let fails = [7, 8, 9, 10, 11].to_vec(alloc)?;
    let mut disk = MemoryDisk::new(alloc, b"abc".to_vec(alloc)?, fails, ROOM)?;
    for (name, at, bytes, is_answered, synced, all, half) in ROWS {
        let answers = answers(&rt, alloc, &mut disk, name, at, bytes)?;
        holds(&rt, answers == is_answered, name);
        holds(&rt, leaves(alloc, &disk, 0, synced)?, synced);
        holds(&rt, leaves(alloc, &disk, 1, all)?, all);
        holds(&rt, leaves(alloc, &disk, 2, half)?, half);
        holds(&rt, leaves(alloc, &disk, 255, half)?, half);
    }
    holds(&rt, disk.clock() == 11, "a moment for each change");
    holds(&rt, disk.faults() == 6, "each failure counts");
    Ok(())
}
