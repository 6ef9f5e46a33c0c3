//! What stays of the lines that were told, and what the tests of telling come to.

ghost use Rattle.std.specs.Prelude.{◌≡◌, ℕ, [], ◌∷◌, ◌++◌, true, List, Option, None, Some};
ghost use Rattle.oz_command.specs.declared.command.AdminCommand.TheVariants as admin;
ghost use Rattle.oz_command.specs.declared.command.Command.TheVariants as commands;
ghost use Rattle.oz_core.specs.declared.event.Event.{Event as AnyEvent};
ghost use Rattle.oz_core.specs.declared.event.EventKind.TheVariants as events;
ghost use Rattle.oz_core.specs.declared.opening.Opening.{Opening as AnyOpening};
ghost use Rattle.oz_core.specs.Asks.{is_told};
ghost use Rattle.oz_core.specs.Contents.{OpeningBytes};
ghost use Rattle.oz_core.specs.Due.{IsDue};
ghost use Rattle.oz_core.specs.Lines.{HasStarted};
ghost use Rattle.oz_script.specs.declared.lines.script.Line.{Line as AnyLine};
ghost use Rattle.oz_script.specs.declared.lines.script.Script.{Script as AnyScript};
ghost use Rattle.oz_requests.specs.declared.answer.Answer.{Answer as AnyAnswer};
ghost use Rattle.oz_requests.specs.declared.answer.Answer.TheVariants as answers;
ghost use Rattle.oz_requests.specs.declared.request.AskId.{AskId as AnyId};
ghost use Rattle.oz_asker.specs.declared.telling.still.Still.{Still as AnyStill};
ghost use Rattle.oz_asker.specs.declared.telling.untold.Untold.{Untold as AnyCause};
ghost use Rattle.oz_asker.specs.declared.telling.untold.Untold.TheVariants as causes;
ghost use Rattle.oz_asker.specs.telling.Tells.{KeepsUntold, MayTell};
ghost use Rattle.oz_turn.specs.Told.{BeginsWith};

/// A line that is told was told then, and in each story that goes on.
pub fn what_was_told_stays()
    ensures now { (story : List AnyEvent) (seat client line : ℕ) (answer : AnyAnswer) →
        is_told client line (story ++ record { seat = seat; kind = events.Told client line answer } ∷ []) ≡ true }
    ensures later { (story later : List AnyEvent) (client line : ℕ) → BeginsWith later story →
        is_told client line story ≡ true → is_told client line later ≡ true }
{}

/// A line that has started has started in each story that goes on.
pub fn what_started_stays()
    ensures { (story later : List AnyEvent) (line : AnyLine) → BeginsWith later story →
        HasStarted story line → HasStarted later line }
{}

/// Where a line may be told its answer nothing but want of memory keeps it from being told.
pub fn what_keeps_a_line_untold()
    ensures { (opening : AnyOpening) (story : List AnyEvent) (client line : ℕ) (last : Option AnyId)
        (said : ℕ) (stills : List AnyStill) (answer : AnyAnswer) (cause : AnyCause) →
        MayTell opening story client line last said stills answer →
        KeepsUntold opening story client line last said stills answer cause → cause ≡ causes.OutOfMemory }
{}

/// What a line is told of the manager's end is due. That the manager had stopped is due of a line that asked nothing
/// where it drains.
pub fn what_is_told_of_the_manager_is_due()
    ensures unacknowledged { (opening : AnyOpening) (bytes : OpeningBytes) (script : AnyScript) (story : List AnyEvent)
        (line : AnyLine) (last : Option AnyId) (said : ℕ) (stills : List AnyStill) →
        MayTell opening story line.client line.number last said stills answers.Unacknowledged →
        IsDue opening bytes script story line answers.Unacknowledged }
    ensures stopped { (opening : AnyOpening) (bytes : OpeningBytes) (script : AnyScript) (story : List AnyEvent)
        (line : AnyLine) (id : AnyId) (said : ℕ) (stills : List AnyStill) →
        MayTell opening story line.client line.number (Some id) said stills answers.ManagerStopped →
        IsDue opening bytes script story line answers.ManagerStopped }
    ensures drain { (opening : AnyOpening) (bytes : OpeningBytes) (script : AnyScript) (story : List AnyEvent)
        (line : AnyLine) (said : ℕ) (stills : List AnyStill) → line.command ≡ commands.Admin admin.Drain →
        MayTell opening story line.client line.number None said stills answers.ManagerStopped →
        IsDue opening bytes script story line answers.ManagerStopped }
{}
