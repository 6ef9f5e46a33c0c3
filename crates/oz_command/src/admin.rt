//! Commands on datanodes and containers.

ghost use Rattle.std.specs.Prelude.{◌≡◌};
ghost use Rattle.oz_command.specs.Commands.{admin_command, admin_verb, node_verb};
ghost use Rattle.oz_command.specs.Words.{words};

use crate::command::AdminCommand;
use crate::numbers::number_in;
use crate::words::{only_word, split_word};

/// The greatest number of a datanode.
pub const GREATEST_NODE: u64 = 15;

#[tactic(auto, unfolding(crate::specs::Commands::admin_command))]
pub fn admin_command(verb: &[u8], line: &[u8]) -> Option<AdminCommand>
    ensures { result ≡ admin_command verb.now (words line.now) }
{
    if split_word(line).is_none() {
        return admin_verb(verb);
    }
    let Some(word) = only_word(line) else {
        return None;
    };
    let Some(node) = number_in(word, 0, GREATEST_NODE) else {
        return None;
    };
    node_verb(verb, node as u8)
}

fn admin_verb(verb: &[u8]) -> Option<AdminCommand>
    ensures { result ≡ admin_verb verb.now }
{
    if verb == b"close".as_slice() {
        return Some(AdminCommand::Close);
    }
    if verb == b"containers".as_slice() {
        return Some(AdminCommand::Containers);
    }
    if verb == b"drain".as_slice() {
        return Some(AdminCommand::Drain);
    }
    None
}

fn node_verb(verb: &[u8], node: u8) -> Option<AdminCommand>
    ensures { result ≡ node_verb verb.now node }
{
    if verb == b"stop".as_slice() {
        return Some(AdminCommand::Stop(node));
    }
    if verb == b"start".as_slice() {
        return Some(AdminCommand::Start(node));
    }
    if verb == b"wipe".as_slice() {
        return Some(AdminCommand::Wipe(node));
    }
    None
}
