//! What one history says.

ghost use Rattle.std.specs.Prelude.{◌≡◌, ◌≢◌, ◌≤◌, ℕ, [], List, Contains, IfSome};
ghost use Rattle.oz_command.specs.declared.command.Command.TheVariants as commands;
ghost use Rattle.oz_command.specs.declared.command.Data.{Data as AnyData};
ghost use Rattle.oz_core.specs.declared.event.Event.{Event as AnyEvent};
ghost use Rattle.oz_core.specs.declared.limits.TheConstants.{SERVICE_CLIENT};
ghost use Rattle.oz_core.specs.declared.opening.Opening.{Opening as AnyOpening};
ghost use Rattle.oz_core.specs.Coherent.{LogIsCoherent};
ghost use Rattle.oz_core.specs.Contents.{OpeningBytes};
ghost use Rattle.oz_core.specs.Due.{IsDone};
ghost use Rattle.oz_core.specs.Fits.{AllAreTold, Fits, FitsFrom, line_numbers, told_lines};
ghost use Rattle.oz_core.specs.Law.{IsLegal};
ghost use Rattle.oz_core.specs.Manager.{flushed_moment};
ghost use Rattle.oz_core.specs.Steps.{target};
ghost use Rattle.oz_headline.specs.Counts.{AreToldAsMany, IsClient};
ghost use Rattle.oz_headline.specs.Deletes.{DeletesAreOutOfReach};
ghost use Rattle.oz_headline.specs.History.{AllAreBy, AllAreInTurn, RepliesAreOneThreads, ToldIsStable};
ghost use Rattle.oz_headline.specs.Puts.{HasNamed};
ghost use Rattle.oz_headline.specs.Reads.{ReadsAreContents};
ghost use Rattle.oz_kept.specs.Held.{LinesAreApart};
ghost use Rattle.oz_requests.specs.declared.answer.Values.{Values as AnyValues};
ghost use Rattle.oz_script.specs.declared.lines.script.Line.{Line as AnyLine};
ghost use Rattle.oz_script.specs.declared.lines.script.Script.{Script as AnyScript};
ghost use Rattle.oz_script.specs.lines.Numbered.{IsNumbered};

/// A story that is one history says the rest of the headline: each reply is one thread's at its place, each line asks
/// in its turn, what was acknowledged is stable, a line that reads is told the contents of the blocks that it looked
/// up, nothing reaches what is deleted, and nothing is flushed later than the last that is.
pub fn one_history_says_the_rest()
    ensures replies { (opening : AnyOpening) (story : List AnyEvent) → IsLegal opening story →
        RepliesAreOneThreads opening story }
    ensures asks { (opening : AnyOpening) (bytes : OpeningBytes) (script : AnyScript) (story : List AnyEvent) →
        IsLegal opening story → Fits opening bytes script story → AllAreInTurn opening script story }
    ensures answers { (opening : AnyOpening) (bytes : OpeningBytes) (script : AnyScript) (story : List AnyEvent) →
        IsLegal opening story → Fits opening bytes script story → ToldIsStable opening story }
    ensures reads { (opening : AnyOpening) (bytes : OpeningBytes) (script : AnyScript) (story : List AnyEvent) →
        Fits opening bytes script story → ReadsAreContents opening bytes script story }
    ensures deletes { (opening : AnyOpening) (story : List AnyEvent) → LogIsCoherent opening → IsLegal opening story →
        DeletesAreOutOfReach opening story }
    ensures moments { (opening : AnyOpening) (story : List AnyEvent) (clock : ℕ) → IsLegal opening story →
        IfSome (flushed_moment story) (λ moment. moment ≤ clock) → AllAreBy clock story }
{}

/// Each client of the script that was told as many lines as it has was told all of them, in order. A client that the
/// script hasn't has no lines, and none is told.
pub fn all_are_told_by_count()
    ensures all { (opening : AnyOpening) (bytes : OpeningBytes) (script : AnyScript) (story : List AnyEvent) →
        IsNumbered script → Fits opening bytes script story →
        AreToldAsMany script story → AllAreTold script story }
    ensures others { (opening : AnyOpening) (bytes : OpeningBytes) (script : AnyScript) (story : List AnyEvent)
        (client : ℕ) → IsNumbered script → Fits opening bytes script story → (IsClient script client → ⊥) →
        (line_numbers script client ≡ []) × (told_lines client story ≡ []) }
{}

/// A put that is done has its key named, at some place of the story behind its commit, with what was written for it and
/// nothing else. The lines of the script are apart, and the put isn't the service job's.
pub fn a_put_names_its_key()
    ensures { (opening : AnyOpening) (bytes : OpeningBytes) (script : AnyScript) (story : List AnyEvent) (line : AnyLine)
        (volume bucket key : List ℕ) (payload : AnyData) (it : AnyValues) →
        IsLegal opening story → FitsFrom opening bytes script [] story →
        LinesAreApart script → Contains script.lines line → line.client ≢ SERVICE_CLIENT →
        line.command ≡ commands.KeyPut volume bucket key payload →
        IsDone opening bytes script story line it →
        HasNamed opening story line (target volume bucket key) }
{}
