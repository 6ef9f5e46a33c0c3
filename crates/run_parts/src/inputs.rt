//! The statements that say what a run is given.

use crate::bytes::add_bytes;
use crate::changes::change;
use crate::places::{bytes_at, disk_named, nothing, place_named, put_bytes};
use crate::said::Said;
use crate::stage::{Failing, Left, Stage};
use case_files::{Statement, values_of};
use oz_fused::FusedDisk;
use oz_nodes_loaded::DiskName;
use oz_world::OutOfMemory;
use std::alloc::Global;

/// `script`, with a block of lines, or `script-bytes`, with words of bytes.
fn take_script(
    alloc: Global,
    stage: &mut Stage,
    statement: &Statement,
) -> Result<Said, OutOfMemory> {
    if statement.word(0) == "script" {
        stage.script = statement.text(alloc)?.into_bytes();
        return Ok(Said::if_read(statement.words.len() == 1));
    }
    let mut bytes = Vec::new(alloc);
    if !add_bytes(alloc, &mut bytes, statement, 1)? {
        return Ok(Said::Unread);
    }
    stage.script = bytes;
    Ok(Said::Well)
}

/// `fail PLACE NUMBERS`: these calls of the next run fail. Of one place this is said once.
fn take_failing(
    alloc: Global,
    stage: &mut Stage,
    statement: &Statement,
) -> Result<Said, OutOfMemory> {
    let Some(place) = place_named(statement.word(1)) else {
        return Ok(Said::Unread);
    };
    let calls = values_of(alloc, statement.words.get(2..).unwrap_or(&[]))?;
    match calls {
        Some(calls) if !calls.is_empty() && stage.calls_of(place).is_empty() => {
            stage.failing.push(Failing { place, calls })?;
            Ok(Said::Well)
        }
        _ => Ok(Said::Unread),
    }
}

/// What a stop leaves that is chosen by the word at a place: 0, 1 or 2.
fn choice_at(statement: &Statement, place: usize) -> Option<u8> {
    match statement.word(place) {
        "0" => Some(0),
        "1" => Some(1),
        "2" => Some(2),
        _ => None,
    }
}

/// A disk of a run that ended, where it had such a one.
fn disk_of(left: &Left, name: DiskName) -> Option<&FusedDisk> {
    match name {
        DiskName::Manager => Some(&left.manager),
        DiskName::Scm => Some(&left.scm),
        DiskName::Meta(dn) => Some(&left.nodes.get(usize::from(dn))?.meta),
        DiskName::Slots(dn) => Some(&left.nodes.get(usize::from(dn))?.slots),
    }
}

/// Gives the next run the image of a disk of the last one, and says whether there was such a disk.
fn take_image(
    alloc: Global,
    stage: &mut Stage,
    name: DiskName,
    choice: u8,
) -> Result<bool, OutOfMemory> {
    let Some(left) = &stage.left else {
        return Ok(false);
    };
    let Some(disk) = disk_of(left, name) else {
        return Ok(false);
    };
    let image = disk.inner().image(alloc, choice)?;
    put_bytes(alloc, &mut stage.given, name, &image)?;
    Ok(true)
}

/// `disk NAME image CHOICE`.
fn take_one_image(
    alloc: Global,
    stage: &mut Stage,
    name: DiskName,
    statement: &Statement,
) -> Result<Said, OutOfMemory> {
    match choice_at(statement, 3) {
        Some(choice) if statement.words.len() == 4 => {
            let is_there = take_image(alloc, stage, name, choice)?;
            Ok(Said::if_read(is_there))
        }
        _ => Ok(Said::Unread),
    }
}

/// Gives a disk what a statement makes of its bytes.
fn take_change(
    alloc: Global,
    stage: &mut Stage,
    name: DiskName,
    statement: &Statement,
) -> Result<Said, OutOfMemory> {
    let mut bytes = bytes_at(&stage.given, name).to_vec(alloc)?;
    if !change(alloc, &mut bytes, statement)? {
        return Ok(Said::Unread);
    }
    put_bytes(alloc, &mut stage.given, name, &bytes)?;
    Ok(Said::Well)
}

/// `disk NAME ..`: `image CHOICE`, or what its bytes become.
fn take_disk(alloc: Global, stage: &mut Stage, statement: &Statement) -> Result<Said, OutOfMemory> {
    match disk_named(statement.word(1)) {
        None => Ok(Said::Unread),
        Some(name) if statement.word(2) == "image" => {
            take_one_image(alloc, stage, name, statement)
        }
        Some(name) => take_change(alloc, stage, name, statement),
    }
}

/// Gives the next run the images of one choice of the disks of all datanodes of the last one.
fn take_node_images(alloc: Global, stage: &mut Stage, choice: u8) -> Result<(), OutOfMemory> {
    for dn in 0..16u8 {
        take_image(alloc, stage, DiskName::Meta(dn), choice)?;
        take_image(alloc, stage, DiskName::Slots(dn), choice)?;
    }
    Ok(())
}

/// `disks images M S D`, with a choice for the manager, for the storage container manager and for all datanodes.
fn take_images(
    alloc: Global,
    stage: &mut Stage,
    statement: &Statement,
) -> Result<Said, OutOfMemory> {
    let (Some(manager), Some(scm), Some(nodes), 5) = (
        choice_at(statement, 2),
        choice_at(statement, 3),
        choice_at(statement, 4),
        statement.words.len(),
    ) else {
        return Ok(Said::Unread);
    };
    take_node_images(alloc, stage, nodes)?;
    let is_read = take_image(alloc, stage, DiskName::Manager, manager)?
        && take_image(alloc, stage, DiskName::Scm, scm)?;
    Ok(Said::if_read(is_read))
}

/// `disks empty`, or `disks images M S D`.
fn take_disks(
    alloc: Global,
    stage: &mut Stage,
    statement: &Statement,
) -> Result<Said, OutOfMemory> {
    match (statement.word(1), statement.words.len()) {
        ("empty", 2) => {
            stage.given = nothing(alloc);
            Ok(Said::Well)
        }
        ("images", _) => take_images(alloc, stage, statement),
        _ => Ok(Said::Unread),
    }
}

/// Takes the number behind a statement's word, which has no other.
fn take_number(into: &mut u64, statement: &Statement) -> Said {
    match statement.number(1) {
        Some(number) if statement.words.len() == 2 => {
            *into = number;
            Said::Well
        }
        _ => Said::Unread,
    }
}

/// Takes what a statement says of the next run; none where it isn't such a statement.
pub fn take(
    alloc: Global,
    stage: &mut Stage,
    statement: &Statement,
) -> Result<Option<Said>, OutOfMemory> {
    let said = match statement.word(0) {
        "script" | "script-bytes" => take_script(alloc, stage, statement)?,
        "fail" => take_failing(alloc, stage, statement)?,
        "disk" => take_disk(alloc, stage, statement)?,
        "disks" => take_disks(alloc, stage, statement)?,
        "room" => take_number(&mut stage.room, statement),
        "fuse" => take_number(&mut stage.fuse, statement),
        "yields" => take_number(&mut stage.yields, statement),
        _ => return Ok(None),
    };
    Ok(Some(said))
}
