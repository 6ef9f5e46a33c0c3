//! Whether all lines of a script were told.

ghost use Rattle.std.specs.Prelude.{◌≡◌, ◌≤◌, ◌↔◌, true, length};
ghost use Rattle.oz_script.specs.declared.lines.script.TheConstants.{MOST_CLIENTS};
ghost use Rattle.oz_script.specs.lines.Numbered.{lines_of};
ghost use Rattle.oz_headline.specs.Counts.{AreToldAsMany};

use oz_buffer::{Ledger, Opened};
use oz_script::{Line, Script};

/// Whether each client of the script was told as many lines as it has.
pub(crate) fn each_is_told_as_many<O: Opened>(script: &Script, ledger: &Ledger<O>) -> bool
    requires { length script.now.clients ≤ MOST_CLIENTS }
    ensures { (result ≡ true) ↔ AreToldAsMany script.now ledger.now.story }
{
    for client in 0..script.clients.items().len() as u16 {
        if ledger.lines_told(client + 1) != line_count(script.lines.items(), client + 1) {
            return false;
        }
    }
    true
}

/// How many of these lines are a client's.
fn line_count(lines: &[Line], client: u16) -> u64
    ensures { result ≡ lines_of lines.now client }
{
    let mut count: u64 = 0;
    for line in lines {
        count += u64::from(line.client == client);
    }
    count
}
