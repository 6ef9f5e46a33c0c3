//! The labels that clients have opened.

ghost use Rattle.std.specs.Prelude.{◌≡◌, ◌==◌, ◌&&◌, ◌||◌, List, ℕ, IfOk};
ghost use Rattle.std.specs.Option.{option_copied};
ghost use Rattle.std.specs.Str.{bytes_eq};
ghost use Rattle.oz_script.specs.draft.Drafts.{label_used, opens};
ghost use Rattle.oz_script.specs.draft.Tracked.{has_label};

use oz_command::Command;
use oz_fields::{Name, OutOfMemory};
use std::alloc::Global;
use std::collections::BTreeSet;

/// A label that a client has opened.
#[derive(Debug, PartialEq, Eq, PartialOrd, Ord, Drop)]
pub struct OpenedLabel {
    client: u16,
    label: Name,
}

pub(crate) fn has_label(
    alloc: Global,
    opened: &BTreeSet<OpenedLabel>,
    client: u16,
    label: &Name,
) -> Result<bool, OutOfMemory>
    ensures { IfOk result (λ found. found ≡ has_label opened.now client label.now) }
{
    let label = Name::copy(alloc, label.bytes())?;
    Ok(opened.contains(&OpenedLabel { client, label }))
}

/// The labels, with the one that the command opens, if it opens one.
pub(crate) fn with_opened(
    alloc: Global,
    opened: BTreeSet<OpenedLabel>,
    client: u16,
    command: &Command,
) -> Result<BTreeSet<OpenedLabel>, OutOfMemory>
    ensures { IfOk result (λ more. (other : ℕ) → (label : List ℕ) → has_label more other label
        ≡ (has_label opened other label || (client == other && opens label command.now))) }
{
    let Command::KeyOpen { label, .. } = command else {
        return Ok(opened);
    };
    with_label(alloc, opened, client, label)
}

fn with_label(
    alloc: Global,
    mut opened: BTreeSet<OpenedLabel>,
    client: u16,
    label: &Name,
) -> Result<BTreeSet<OpenedLabel>, OutOfMemory>
    ensures { IfOk result (λ more. (other : ℕ) → (sought : List ℕ) → has_label more other sought
        ≡ (has_label opened other sought || (client == other && bytes_eq label.now sought))) }
{
    let label = Name::copy(alloc, label.bytes())?;
    opened.insert(OpenedLabel { client, label })?;
    Ok(opened)
}

/// The label that a command takes up.
pub(crate) fn label_used(command: &Command) -> Option<&Name>
    ensures { option_copied result ≡ label_used command.now }
{
    match command {
        Command::KeyCommit { label } => Some(label),
        Command::VolumeCreate { .. }
        | Command::VolumeDelete { .. }
        | Command::VolumeInfo { .. }
        | Command::BucketCreate { .. }
        | Command::BucketDelete { .. }
        | Command::BucketInfo { .. }
        | Command::BucketList { .. }
        | Command::KeyPut { .. }
        | Command::KeyOpen { .. }
        | Command::KeyGet { .. }
        | Command::KeyDelete { .. }
        | Command::KeyRename { .. }
        | Command::KeyList { .. }
        | Command::KeyExpire { .. }
        | Command::SnapshotCreate { .. }
        | Command::SnapshotDelete { .. }
        | Command::SnapshotInfo { .. }
        | Command::SnapshotList { .. }
        | Command::Admin(_) => None,
    }
}
