//! What a line is told with `OK`.

ghost use Rattle.std.specs.Prelude.{◌≡◌, Some, true, IfOk};
ghost use Rattle.oz_core.specs.Due.{counted, values_of};
ghost use Rattle.oz_core.specs.Stories.{last_in};
ghost use Rattle.oz_client.specs.inner.Ready.{last_gives};

use crate::reading::last_reply;
use oz_command::Command;
use oz_fields::{OutOfMemory, TryClone};
use oz_requests::{Reply, Values};
use oz_steps::Came;
use std::alloc::Global;

fn counted(command: &Command, count: u32) -> Option<Values>
    ensures { result ≡ counted command.now count }
{
    match command {
        Command::VolumeInfo { .. } => Some(Values::Buckets(count)),
        Command::KeyExpire { .. } => Some(Values::Sessions(count)),
        Command::SnapshotInfo { .. } => Some(Values::Keys(count)),
        _ => None,
    }
}

fn values_of(alloc: Global, command: &Command, reply: &Reply) -> Result<Option<Values>, OutOfMemory>
    ensures { IfOk result (λ values. values ≡ values_of command.now reply.now) }
{
    match reply {
        Reply::Done => Ok(Some(Values::Done)),
        Reply::Count(count) => Ok(counted(command, *count)),
        Reply::Counts(counts) => Ok(Some(Values::Counts(*counts))),
        Reply::Names(names) => Ok(Some(Values::Names(names.try_clone(alloc)?))),
        Reply::Session(_) | Reply::Granted(..) | Reply::Pieces(_) | Reply::Code(_) => Ok(None),
    }
}

/// The values of the last reply.
pub(crate) fn last_values(
    alloc: Global,
    command: &Command,
    came: &Came,
) -> Result<Values, OutOfMemory>
    requires { last_gives command.now came.now ≡ true }
    ensures { IfOk result (λ values. (reply : _) × (last_in came.now.replies ≡ Some reply)
        × (values_of command.now reply ≡ Some values)) }
{
    let Some(reply) = last_reply(came.replies.items()) else {
        unreachable!()
    };
    match values_of(alloc, command, reply)? {
        Some(values) => Ok(values),
        None => unreachable!(),
    }
}
