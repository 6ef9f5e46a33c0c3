//! Which lines are served today.

ghost use Rattle.std.specs.Prelude.{◌≡◌};
ghost use Rattle.oz_script.specs.placed.Served.{is_served, is_served_admin, is_served_command, later_index};

use crate::Line;
use oz_command::{AdminCommand, Command};
use oz_fields::List;

/// Which line is the first that isn't served yet, counted from 0, if there is one.
pub fn later_index(lines: &List<Line>) -> Option<usize>
    ensures { result ≡ later_index lines.now }
{
    lines.iter().position(|line| !is_served(line))
}

/// A line whose command is served.
pub fn is_served(line: &Line) -> bool
    ensures { result ≡ is_served line.now }
{
    is_served_command(&line.command)
}

fn is_served_command(command: &Command) -> bool
    ensures { result ≡ is_served_command command.now }
{
    match command {
        Command::VolumeCreate { .. }
        | Command::VolumeDelete { .. }
        | Command::VolumeInfo { .. }
        | Command::BucketCreate { .. }
        | Command::BucketDelete { .. }
        | Command::BucketInfo { .. }
        | Command::BucketList { .. }
        | Command::KeyPut { .. }
        | Command::KeyOpen { .. }
        | Command::KeyCommit { .. }
        | Command::KeyGet { .. }
        | Command::KeyDelete { .. }
        | Command::KeyRename { .. }
        | Command::KeyList { .. }
        | Command::KeyExpire { .. }
        | Command::SnapshotCreate { .. }
        | Command::SnapshotDelete { .. }
        | Command::SnapshotInfo { .. }
        | Command::SnapshotList { .. } => true,
        Command::Admin(command) => is_served_admin(*command),
    }
}

fn is_served_admin(command: AdminCommand) -> bool
    ensures { result ≡ is_served_admin command }
{
    match command {
        AdminCommand::Stop(_) | AdminCommand::Start(_) | AdminCommand::Wipe(_) => true,
        AdminCommand::Close | AdminCommand::Containers | AdminCommand::Drain => false,
    }
}
