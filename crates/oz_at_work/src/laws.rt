//! What stays of a line that is worked for, and what a label that was left stands for.

ghost use Rattle.std.specs.Prelude.{◌≡◌, ◌≢◌, ℕ, List, Option, Some};
ghost use Rattle.oz_at_work.specs.AtWork.{HasLeft, IsAtWork, MayBegin, WorkView};
ghost use Rattle.oz_command.specs.declared.command.Command.TheVariants.{KeyCommit};
ghost use Rattle.oz_core.specs.declared.event.Event.{Event as AnyEvent};
ghost use Rattle.oz_core.specs.Steps.{opening_line};
ghost use Rattle.oz_script.specs.declared.lines.script.Line.{Line as AnyLine};
ghost use Rattle.oz_steps.specs.declared.label.Label.{Label as AnyLabel};
ghost use Rattle.oz_turn.specs.Told.{BeginsWith};
ghost use Rattle.oz_underway.specs.UnderWay.{LabelStays};

use oz_buffer::Opened;

/// Whatever the seat sees later, a line may still begin, is still at work, and has still left what it left.
pub fn what_is_at_work_stays<O: Opened>()
    ensures begins { (seen later : List AnyEvent) (line : AnyLine) (label : Option AnyLabel) →
        BeginsWith later seen → MayBegin O.coherent O.opening O.bytes O.script seen line label →
        MayBegin O.coherent O.opening O.bytes O.script later line label }
    ensures works { (seen later : List AnyEvent) (work : WorkView) →
        BeginsWith later seen → IsAtWork O.coherent O.opening O.bytes O.script seen work →
        IsAtWork O.coherent O.opening O.bytes O.script later work }
    ensures left { (seen later : List AnyEvent) (line : AnyLine) (left : Option AnyLabel) →
        BeginsWith later seen → HasLeft O.coherent O.opening O.bytes O.script seen line left →
        HasLeft O.coherent O.opening O.bytes O.script later line left }
{}

/// What the last line that opened a label left is what the label stands for, for a line that commits it. A line that
/// commits none needs none.
pub fn a_label_was_left<O: Opened>()
    ensures commits { (seen : List AnyEvent) (line opened : AnyLine) (name : List ℕ) (left : Option AnyLabel) →
        line.command ≡ KeyCommit name → opening_line O.script line name ≡ Some opened →
        HasLeft O.coherent O.opening O.bytes O.script seen opened left →
        LabelStays O.coherent O.opening O.bytes O.script seen line line.command left }
    ensures other { (seen : List AnyEvent) (line : AnyLine) (label : Option AnyLabel) →
        ((name : List ℕ) → line.command ≢ KeyCommit name) →
        LabelStays O.coherent O.opening O.bytes O.script seen line line.command label }
{}
