//! What holds of the lines of a client of a script, and of the clients of a worker.

ghost use Rattle.std.specs.Prelude.{◌≡◌, ◌≢◌, ◌+◌, ◌-◌, ◌%◌, ◌<◌, ◌≤◌, ℕ, List, Contains, None, Some, slice_get, if◌then◌else◌};
ghost use Rattle.oz_core.specs.declared.limits.TheConstants.{SERVICE_CLIENT};
ghost use Rattle.oz_core.specs.Contents.{IsLineOf};
ghost use Rattle.oz_core.specs.Steps.{is_opened_as, opening_line};
ghost use Rattle.oz_script.specs.declared.lines.script.Line.{Line as AnyLine};
ghost use Rattle.oz_script.specs.declared.lines.script.Script.{Script as AnyScript};
ghost use Rattle.oz_script.specs.lines.Numbered.{IsNumbered};
ghost use Rattle.oz_worker.specs.ClientLines.{lines_of_client};
ghost use Rattle.oz_worker.specs.Workers.{clients_of};

/// Each line of a client is the script's, has the number that comes next, and is no line of the service.
pub fn a_clients_lines_are_numbered()
    ensures { (script : AnyScript) (client place : ℕ) (line : AnyLine) → IsNumbered script →
        slice_get (lines_of_client script client) place ≡ Some line →
        IsLineOf script client (place + 1) line × (client ≢ SERVICE_CLIENT) }
{}

/// The line that opened a label last, before a client's next line: the one before that, if it opens the label, and
/// else the one that opened it before that line. Before a client's first line no label was opened.
pub fn a_label_is_opened_by_the_last_line()
    ensures next { (script : AnyScript) (line next : AnyLine) (name : List ℕ) → IsNumbered script →
        IsLineOf script next.client line.number line → next.number ≡ line.number + 1 →
        opening_line script next name ≡ (if is_opened_as name line.command then Some line
        else opening_line script line name) }
    ensures first { (script : AnyScript) (line : AnyLine) (name : List ℕ) → IsNumbered script →
        line.number ≤ 1 → opening_line script line name ≡ None }
{}

/// Each client is dealt to one worker, and to no other.
pub fn each_client_has_one_worker()
    ensures dealt { (workers client count : ℕ) → 0 < workers → 1 ≤ client → client ≤ count →
        ((client - 1) % workers < workers) × Contains (clients_of workers ((client - 1) % workers) count) client }
    ensures alone { (workers place client count : ℕ) → Contains (clients_of workers place count) client →
        place ≡ (client - 1) % workers }
{}
