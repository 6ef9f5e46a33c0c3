//! What holds of all stories and of all views of a container.

ghost use Rattle.std.specs.Prelude.{◌≡◌, ◌⊎◌, ◌↔◌, ◌<◌, ℕ, true, List, [], ◌∷◌, ◌++◌, Some, None};
ghost use Rattle.std.specs.Prelude.{Contains, length, slice_index, slice_set};
ghost use Rattle.oz_dellog.specs.declared.txn.Txn.{Txn as AnyTxn};
ghost use Rattle.oz_fields.specs.declared.block.Block.{Block as AnyBlock};
ghost use Rattle.oz_core.specs.declared.event.Event.{Event as AnyEvent};
ghost use Rattle.oz_core.specs.declared.event.EventKind.TheVariants.{Put};
ghost use Rattle.oz_core.specs.declared.opening.Opening.{Opening as AnyOpening};
ghost use Rattle.oz_core.specs.Coherent.{IsCoherent};
ghost use Rattle.oz_core.specs.Contents.{OpeningBytes};
ghost use Rattle.oz_container.specs.declared.state.Event.{Event as AnyStep};
ghost use Rattle.oz_container.specs.declared.state.Event.TheVariants.{Delete};
ghost use Rattle.oz_container.specs.declared.state.State.{State as AnyState};
ghost use Rattle.oz_container.specs.declared.state.State.TheVariants.{Closed, Deleted};
ghost use Rattle.oz_container.specs.Steps.{next};
ghost use Rattle.oz_core.specs.Due.{AdminIsDone, AreClosed, EmptyAreDeleted, IsCopyDue, IsOfClosing, MayBeLeft};
ghost use Rattle.oz_core.specs.Law.{AllowsStep, AreEmpty, CopyIsEnabled, IsLegal, may_be_copied};
ghost use Rattle.std.specs.FinMap.{get};
ghost use Rattle.oz_core.specs.declared.opening.Container.{Container as AnyContainer};
ghost use Rattle.oz_core.specs.Seats.{IsDatanodeSeat, datanode_seat};
ghost use Rattle.oz_requests.specs.declared.request.AskId.{AskId as AnyId};
ghost use Rattle.oz_repl.specs.declared.repl.view.CopyOrder.{CopyOrder as AnyOrder};
ghost use Rattle.oz_repl.specs.declared.repl.view.View.{View as AnyView};
ghost use Rattle.oz_repl.specs.repl.View.{IsDueCopy, IsNext};
ghost use Rattle.oz_repl.specs.views.View.{IsViewOf, block_in};
ghost use Rattle.oz_core.specs.Nodes.{holds, is_running};
ghost use Rattle.oz_core.specs.Scm.{containers, is_logged, is_logged_at_opening, names_block};
ghost use Rattle.oz_kept.specs.reopened.Left.{IsUnretired};
ghost use Rattle.oz_command.specs.declared.command.AdminCommand.TheVariants.{Close, Containers};
ghost use Rattle.oz_requests.specs.declared.answer.Values.{Values as AnyValues};
ghost use Rattle.oz_script.specs.declared.lines.script.Line.{Line as AnyLine};
ghost use Rattle.oz_command.specs.declared.command.AdminCommand.{AdminCommand as AnyCommand};
ghost use Rattle.oz_script.specs.declared.lines.script.Script.{Script as AnyScript};
ghost use Rattle.oz_core.specs.Fits.{IsAtWork};
ghost use Rattle.oz_repl.specs.views.Lines.{AreForLines, command_of};
ghost use Rattle.oz_repl.specs.views.Still.{GaveNothing};
ghost use Rattle.oz_repl.specs.views.Away.{IsUntoldSince, NumbersAreOld, StaysAway};

/// A block that a transaction names and a datanode holds is of a transaction that isn't retired, or of one of the opening,
/// where behind a Delete the datanode puts no block that it took away.
pub fn logged_and_held()
    ensures { (opening : AnyOpening) (bytes : OpeningBytes) (story : List AnyEvent) (dn : ℕ) (block : AnyBlock) →
        IsLegal opening story → IsCoherent opening bytes → NumbersAreOld opening → StaysAway opening dn story →
        is_logged opening story block ≡ true → holds opening story dn block ≡ true →
        ((txn : AnyTxn) × (names_block block txn ≡ true) × IsUnretired opening story txn)
        ⊎ (is_logged_at_opening opening block ≡ true) }
{}

/// A datanode stays away from what it deleted as the run begins, and still does behind one event more, where a Put of it is for a
/// line that wasn't told at a place behind all that its seat had given. So it does where it puts nothing, and so it did in each part of the
/// story from its beginning on.
pub fn a_datanode_stays_away()
    ensures first { (opening : AnyOpening) (dn : ℕ) → StaysAway opening dn [] }
    ensures unput { (opening : AnyOpening) (dn : ℕ) (story more : List AnyEvent) → IsLegal opening (story ++ more) →
        NumbersAreOld opening → StaysAway opening dn story →
        ((block : AnyBlock) (id : AnyId) (first count : ℕ) → Contains more (record { seat = datanode_seat dn; kind = Put dn block id first count }) → ⊥) →
        StaysAway opening dn (story ++ more) }
    ensures front { (opening : AnyOpening) (dn : ℕ) (story more : List AnyEvent) →
        StaysAway opening dn (story ++ more) → StaysAway opening dn story }
    ensures more { (opening : AnyOpening) (dn : ℕ) (story : List AnyEvent) (event : AnyEvent) →
        IsLegal opening (story ++ event ∷ []) → NumbersAreOld opening → StaysAway opening dn story →
        ((block : AnyBlock) (id : AnyId) (first count : ℕ) → event.kind ≡ Put dn block id first count →
        IsUntoldSince dn id.client id.line story) → StaysAway opening dn (story ++ event ∷ []) }
{}

/// What a line that closes or counts containers was done with stays so, as long as neither the storage container manager nor a
/// datanode gives an event; and so does that empty containers are deleted.
pub fn closed_still()
    ensures closed { (opening : AnyOpening) (place behind : List AnyEvent) (line : AnyLine) →
        IsLegal opening (place ++ behind) → GaveNothing opening place (place ++ behind) →
        AreClosed opening place line → AreClosed opening (place ++ behind) line }
    ensures close_done { (opening : AnyOpening) (place behind : List AnyEvent) (line : AnyLine) (it : AnyValues) →
        IsLegal opening (place ++ behind) → GaveNothing opening place (place ++ behind) →
        AdminIsDone opening place line Close it →
        AdminIsDone opening (place ++ behind) line Close it }
    ensures counted { (opening : AnyOpening) (place behind : List AnyEvent) (line : AnyLine) (it : AnyValues) →
        IsLegal opening (place ++ behind) → GaveNothing opening place (place ++ behind) →
        AdminIsDone opening place line Containers it →
        AdminIsDone opening (place ++ behind) line Containers it }
    ensures deleted { (opening : AnyOpening) (place behind : List AnyEvent) (line : AnyLine) →
        IsLegal opening (place ++ behind) → GaveNothing opening place (place ++ behind) →
        EmptyAreDeleted opening place line → EmptyAreDeleted opening (place ++ behind) line }
{}

/// The event that is next by a view is allowed at the view's place.
pub fn what_comes_next_is_allowed()
    ensures { (opening : AnyOpening) (story : List AnyEvent) (number : ℕ) (view : AnyView) (by : AnyStep) →
        IsViewOf opening story number view → IsNext view by → AllowsStep opening story number by }
{}

/// Where no event of a container's closing is next by a view, none is allowed at the view's place.
pub fn where_nothing_comes_nothing_is_allowed()
    ensures { (opening : AnyOpening) (story : List AnyEvent) (number : ℕ) (view : AnyView) →
        IsViewOf opening story number view → ((by : AnyStep) → IsOfClosing by → IsNext view by → ⊥) →
        (by : AnyStep) (state : AnyState) → IsOfClosing by → next view.state by ≡ Some state →
        AllowsStep opening story number by → ⊥ }
{}

/// A closed container may be deleted by a view just where its members are empty at the view's place.
pub fn an_empty_container_may_be_deleted()
    ensures { (opening : AnyOpening) (story : List AnyEvent) (number : ℕ) (view : AnyView) →
        IsViewOf opening story number view → view.state ≡ Closed →
        (IsNext view Delete ↔ AreEmpty opening story number) }
{}

/// A copy that is due by a view may be made at the view's place, where its target runs.
pub fn an_order_may_be_copied()
    ensures { (opening : AnyOpening) (story : List AnyEvent) (number seat : ℕ) (view : AnyView) (order : AnyOrder) →
        IsViewOf opening story number view → IsDueCopy view order → IsDatanodeSeat opening order.target seat →
        is_running order.target story ≡ true →
        CopyIsEnabled opening story seat order.source order.target (block_in number order.local) }
{}

/// Where each copy that is due by a view may be left by a line, no other is due at the view's place.
pub fn what_is_left_may_be_left()
    ensures { (opening : AnyOpening) (story : List AnyEvent) (number : ℕ) (view : AnyView) (id : AnyId) →
        IsViewOf opening story number view →
        ((order : AnyOrder) → IsDueCopy view order →
        MayBeLeft opening story id number (block_in number order.local) order.target) →
        may_be_copied view.state ≡ true → (block : AnyBlock) (lacking : ℕ) →
        IsCopyDue opening story number block lacking → MayBeLeft opening story id number block lacking }
{}

/// A container that was closed, and of which no event is next by a view, is deleted or isn't empty at the view's place.
pub fn deleted_or_not_empty()
    ensures { (opening : AnyOpening) (start behind : List AnyEvent) (number : ℕ) (before : AnyContainer) (view : AnyView) →
        IsLegal opening (start ++ behind) → get (containers opening start) number ≡ Some before →
        before.state ≡ Closed → IsViewOf opening (start ++ behind) number view →
        ((event : AnyStep) → IsNext view event → ⊥) → AreEmpty opening (start ++ behind) number →
        view.state ≡ Deleted }
{}

/// That each command of a datanode is for a line of its own holds of the empty story. An event that no line commands leaves it
/// so. So does one for a line that is at work and comes after the last of its client, and then that line is the last.
pub fn each_command_is_for_a_line_of_its_own()
    ensures none { (script : AnyScript) (dn : ℕ) (last : List ℕ) → AreForLines script dn last [] }
    ensures still { (script : AnyScript) (dn : ℕ) (last : List ℕ) (story : List AnyEvent) (event : AnyEvent) →
        AreForLines script dn last story → command_of dn event.kind ≡ None →
        AreForLines script dn last (story ++ event ∷ []) }
    ensures more { (script : AnyScript) (dn : ℕ) (last : List ℕ) (story : List AnyEvent) (event : AnyEvent)
        (command : AnyCommand) (work : IsAtWork script story command) →
        AreForLines script dn last story → command_of dn event.kind ≡ Some command →
        work.line.client < length last → slice_index last work.line.client < work.line.number →
        AreForLines script dn (slice_set last work.line.client work.line.number) (story ++ event ∷ []) }
{}
