//! What is true of all scripts.

ghost use Rattle.std.specs.Prelude.{◌≡◌, ℕ, List, Result};
ghost use Rattle.oz_script.specs.declared.draft.fault.ScriptFault.{ScriptFault};
ghost use Rattle.oz_script.specs.declared.lines.script.Script.{Script};
ghost use Rattle.oz_script.specs.Parsing.{ParsesTo};

/// No bytes give two answers.
pub fn each_text_has_one_answer()
    ensures { (bytes : List ℕ) (one other : Result Script ScriptFault) → ParsesTo bytes one → ParsesTo bytes other
        → one ≡ other }
{}
