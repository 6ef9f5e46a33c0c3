//! What is wrong with a script.

ghost use Rattle.std.specs.Prelude.{◌≡◌};
ghost use Rattle.oz_script.specs.draft.Causes.{cause_text};

use oz_fields::OutOfMemory;

/// Why bytes are no script.
#[derive(Clone, Copy, Debug, PartialEq, Eq)]
pub enum ScriptFault {
    /// The line at fault. All lines count, from 1, and 0 is the script as a whole.
    At { line: u64, cause: Cause },
    OutOfMemory,
}

/// What is wrong with a line.
#[derive(Clone, Copy, Debug, PartialEq, Eq)]
pub enum Cause {
    /// The script has too many bytes.
    Long,
    /// The line is in none of the forms.
    Form,
    /// Too many lines with a command stand before it, or too many clients have spoken.
    Many,
    /// It commits a label that no earlier line of its client opens.
    Label,
    /// Its `after` names no line.
    After,
    /// It waits for itself.
    Circle,
    /// It isn't served yet.
    Later,
}

impl Cause {
    /// The word that the program prints.
    pub fn text(self) -> &'static str
        ensures { result.now ≡ cause_text self }
    {
        match self {
            Cause::Long => "long",
            Cause::Form => "form",
            Cause::Many => "many",
            Cause::Label => "label",
            Cause::After => "after",
            Cause::Circle => "circle",
            Cause::Later => "later",
        }
    }
}

impl From<OutOfMemory> for ScriptFault {
    ghost use Rattle.oz_script.specs.declared.draft.fault.ScriptFault.TheVariants.{OutOfMemory};

    ghost from_gives = { λ _ fault. fault ≡ OutOfMemory };

    fn from(_error: OutOfMemory) -> ScriptFault {
        ScriptFault::OutOfMemory
    }
}
