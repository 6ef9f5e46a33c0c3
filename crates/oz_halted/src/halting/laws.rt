//! What holds of each datanode that halted.

ghost use Rattle.std.specs.Prelude.{◌≡◌, ◌≢◌, ℕ, true, false, not, List, [], ◌∷◌, ◌++◌, Option, None, IfSome, Contains};
ghost use Rattle.oz_container.specs.declared.state.State.{State as AnyState};
ghost use Rattle.oz_dellog.specs.declared.txn.Txn.{Txn as AnyTxn};
ghost use Rattle.oz_fields.specs.declared.block.Block.{Block as AnyBlock};
ghost use Rattle.oz_requests.specs.declared.request.AskId.{AskId as AnyId};
ghost use Rattle.oz_script.specs.declared.lines.script.Script.{Script as AnyScript};
ghost use Rattle.oz_entries.specs.declared.entry.Entry.{Entry as AnyEntry};
ghost use Rattle.oz_entries.specs.declared.entry.Entry.TheVariants as entries;
ghost use Rattle.oz_entries.specs.declared.row.BlockRow.{BlockRow as AnyRow};
ghost use Rattle.oz_entries.specs.Node.{Node, after_entry, empty_node, is_held};
ghost use Rattle.oz_core.specs.declared.event.Event.{Event as AnyEvent};
ghost use Rattle.oz_core.specs.declared.event.EventKind.TheVariants.{Put, Copy, Delete, CloseCommand, Halt, Start, Stop, Wipe};
ghost use Rattle.oz_core.specs.declared.event.Node.TheVariants.{Datanode};
ghost use Rattle.oz_core.specs.declared.opening.Opening.{Opening as AnyOpening};
ghost use Rattle.oz_core.specs.Coherent.{IsCoherent};
ghost use Rattle.oz_core.specs.Contents.{OpeningBytes};
ghost use Rattle.oz_core.specs.Fits.{EventFits, Fits};
ghost use Rattle.oz_core.specs.Law.{CloseCommandIsEnabled, CopyIsEnabled, DeleteIsEnabled, IsEnabled, IsLegal, PutIsEnabled};
ghost use Rattle.oz_core.specs.Law.{StartIsEnabled, StopIsEnabled, WipeIsEnabled};
ghost use Rattle.oz_core.specs.Nodes.{holds, is_closed, is_open};
ghost use Rattle.oz_core.specs.Scm.{is_logged, logged};
ghost use Rattle.oz_core.specs.Seats.{datanode_seat};
ghost use Rattle.oz_kept.specs.Held.{LinesAreApart};
ghost use Rattle.oz_kept.specs.reopened.Left.{IsLeftByNode, lengths_of};
ghost use Rattle.oz_halted.specs.Further.{MayBeLeftByNode};
ghost use Rattle.oz_halted.specs.Missing.{LogIsNumbered};
ghost use Rattle.oz_halted.specs.halting.Leaves.{GivenBytes, GivesContents, IsOpenedOf, MayHaveEntry};
ghost use Rattle.oz_halted.specs.halting.Story.{HoldsNoneOf, IsAllowed, IsOfStory, WasToApply, WasToMake, WasToPut};

/// What the journal stands for behind an entry is what the story makes of the datanode behind the entry's event: a block
/// that is put or copied, a transaction that is applied, and a replica that is closed. Behind a Wipe it is an empty one, and
/// behind a Stop or a Start what it was.
pub fn an_entry_makes_what_its_event_makes()
    ensures put { (opening : AnyOpening) (before : List AnyEvent) (dn seat : ℕ) (was : Node) (block : AnyBlock) (id : AnyId)
        (first : ℕ) (row : AnyRow) →
        LogIsNumbered opening → IsLegal opening before → IsOfStory opening before dn was →
        PutIsEnabled opening before seat dn block id first row.length →
        IsOfStory opening (before ++ record { seat = seat; kind = Put dn block id first row.length } ∷ []) dn
        (after_entry (entries.Put block row) was) }
    ensures copied { (opening : AnyOpening) (before : List AnyEvent) (dn seat : ℕ) (was : Node) (source : ℕ) (block : AnyBlock)
        (row : AnyRow) →
        LogIsNumbered opening → IsLegal opening before → IsOfStory opening before dn was →
        CopyIsEnabled opening before seat source dn block → Contains (lengths_of opening before block) row.length →
        IsOfStory opening (before ++ record { seat = seat; kind = Copy source dn block } ∷ []) dn
        (after_entry (entries.Put block row) was) }
    ensures applied { (opening : AnyOpening) (before : List AnyEvent) (dn seat : ℕ) (was : Node) (number : ℕ) (locals : List ℕ)
        (enabled : DeleteIsEnabled opening before seat dn number locals) →
        LogIsNumbered opening → IsLegal opening before → IsOfStory opening before dn was →
        IsOfStory opening (before ++ record { seat = seat; kind = Delete dn number locals } ∷ []) dn
        (after_entry (entries.Apply enabled.txn) was) }
    ensures closed { (opening : AnyOpening) (before : List AnyEvent) (dn seat : ℕ) (was : Node) (container : ℕ) (state : AnyState) →
        LogIsNumbered opening → IsLegal opening before → IsOfStory opening before dn was → is_open state ≡ false →
        CloseCommandIsEnabled opening before seat dn container →
        IsOfStory opening (before ++ record { seat = seat; kind = CloseCommand dn container } ∷ []) dn
        (after_entry (entries.SetState container state) was) }
    ensures wiped { (opening : AnyOpening) (before : List AnyEvent) (dn seat : ℕ) (was : Node) →
        LogIsNumbered opening → IsLegal opening before → IsOfStory opening before dn was →
        WipeIsEnabled opening before seat dn →
        IsOfStory opening (before ++ record { seat = seat; kind = Wipe dn } ∷ []) dn empty_node }
    ensures stopped { (opening : AnyOpening) (before : List AnyEvent) (dn seat : ℕ) (was : Node) →
        LogIsNumbered opening → IsLegal opening before → IsOfStory opening before dn was →
        StopIsEnabled opening before seat dn →
        IsOfStory opening (before ++ record { seat = seat; kind = Stop dn } ∷ []) dn was }
    ensures started { (opening : AnyOpening) (before : List AnyEvent) (dn seat : ℕ) (was : Node) →
        LogIsNumbered opening → IsLegal opening before → IsOfStory opening before dn was →
        StartIsEnabled opening before seat dn →
        IsOfStory opening (before ++ record { seat = seat; kind = Start dn } ∷ []) dn was }
{}

/// An entry of which no event tells gives what the story makes of the datanode too, where its replica is as closed then as the
/// story has it: one that sets a state, or drops a replica that holds nothing.
pub fn an_entry_without_an_event_changes_nothing()
    ensures state { (opening : AnyOpening) (story : List AnyEvent) (dn container : ℕ) (state : AnyState) (was : Node) →
        IsOfStory opening story dn was → is_closed opening story dn container ≡ not (is_open state) →
        IsOfStory opening story dn (after_entry (entries.SetState container state) was) }
    ensures dropped { (opening : AnyOpening) (story : List AnyEvent) (dn container : ℕ) (was : Node) →
        IsOfStory opening story dn was → HoldsNoneOf container was → is_closed opening story dn container ≡ true →
        IsOfStory opening story dn (after_entry (entries.Drop container) was) }
{}

/// An entry that was to come gives what the story and one event more make of the datanode, which the law allows there, or
/// what the story makes of it with another state of one replica.
pub fn an_entry_more_is_allowed()
    ensures { (opening : AnyOpening) (bytes : OpeningBytes) (script : AnyScript) (before : List AnyEvent) (dn : ℕ) (was : Node)
        (entry : AnyEntry) →
        LogIsNumbered opening → IsLegal opening before → IsOfStory opening before dn was →
        WasToMake opening bytes script before dn was entry →
        IsAllowed opening bytes script before dn was (after_entry entry was) }
{}

/// What an opening has of a datanode is what no event makes of it, and what is given of its blocks is their content. Both
/// stay so as another seat goes on.
pub fn what_is_loaded_stays()
    ensures loaded { (opening : AnyOpening) (bytes : OpeningBytes) (dn : ℕ) (was : Node) (given : GivenBytes) →
        IsOpenedOf opening bytes dn was given → IsOfStory opening [] dn was }
    ensures given { (opening : AnyOpening) (bytes : OpeningBytes) (script : AnyScript) (dn : ℕ) (was : Node) (given : GivenBytes) →
        IsCoherent opening bytes → IsOpenedOf opening bytes dn was given →
        GivesContents opening bytes script [] was given }
    ensures beside { (opening : AnyOpening) (before : List AnyEvent) (event : AnyEvent) (dn : ℕ) (was : Node) →
        LogIsNumbered opening → IsLegal opening before → IsEnabled opening before event → event.seat ≢ datanode_seat dn →
        IsOfStory opening before dn was → IsOfStory opening (before ++ event ∷ []) dn was }
    ensures contents { (opening : AnyOpening) (bytes : OpeningBytes) (script : AnyScript) (before : List AnyEvent)
        (event : AnyEvent) (was : Node) (given : GivenBytes) →
        IsLegal opening before → Fits opening bytes script before → IsEnabled opening before event →
        EventFits opening bytes script before event.kind →
        GivesContents opening bytes script before was given →
        GivesContents opening bytes script (before ++ event ∷ []) was given }
{}

/// What a datanode was to make it still was to make behind an event of another seat that logs nothing. A block is to be put
/// and a transaction to be applied behind any event of another seat.
pub fn what_was_to_come_still_is()
    ensures unlogged { (opening : AnyOpening) (bytes : OpeningBytes) (script : AnyScript) (before : List AnyEvent)
        (event : AnyEvent) (dn : ℕ) (was : Node) (entry : AnyEntry) →
        LogIsNumbered opening → IsLegal opening before → Fits opening bytes script before → IsEnabled opening before event →
        EventFits opening bytes script before event.kind → event.seat ≢ datanode_seat dn → logged event.kind ≡ None →
        WasToMake opening bytes script before dn was entry →
        WasToMake opening bytes script (before ++ event ∷ []) dn was entry }
    ensures put { (opening : AnyOpening) (bytes : OpeningBytes) (script : AnyScript) (before : List AnyEvent) (event : AnyEvent)
        (dn : ℕ) (block : AnyBlock) (row : AnyRow) →
        LogIsNumbered opening → IsLegal opening before → Fits opening bytes script before → IsEnabled opening before event →
        EventFits opening bytes script before event.kind → event.seat ≢ datanode_seat dn →
        WasToPut opening bytes script before dn block row →
        WasToPut opening bytes script (before ++ event ∷ []) dn block row }
    ensures applied { (opening : AnyOpening) (bytes : OpeningBytes) (script : AnyScript) (before : List AnyEvent)
        (event : AnyEvent) (dn : ℕ) (txn : AnyTxn) →
        LogIsNumbered opening → IsLegal opening before → Fits opening bytes script before → IsEnabled opening before event →
        EventFits opening bytes script before event.kind → event.seat ≢ datanode_seat dn →
        WasToApply opening before dn txn → WasToApply opening (before ++ event ∷ []) dn txn }
{}

/// What is left of a datanode at rest is what the story leaves: its journal stands for what the story makes of it, and its
/// slots give the content of each block.
pub fn what_rests_is_left()
    ensures { (opening : AnyOpening) (bytes : OpeningBytes) (script : AnyScript) (story : List AnyEvent) (dn : ℕ) (was : Node)
        (given : GivenBytes) (left : AnyOpening) (gives : OpeningBytes) →
        IsCoherent opening bytes → LinesAreApart script → LogIsNumbered opening → IsLegal opening story →
        Fits opening bytes script story → IsOfStory opening story dn was →
        GivesContents opening bytes script story was given → IsOpenedOf left gives dn was given →
        IsLeftByNode opening bytes script story dn left gives }
{}

/// What is left of a datanode that halted is what the law allows, where its journal stands for what the story before the Halt
/// made of it, or for that and an entry more that was to come, and its slots give the content of each block. The log is
/// numbered, and no two lines of the script have one client and one number.
pub fn a_halted_datanode_leaves_what_is_allowed()
    ensures { (opening : AnyOpening) (bytes : OpeningBytes) (script : AnyScript) (before behind : List AnyEvent) (dn count : ℕ)
        (was kept : Node) (entry : Option AnyEntry) (given : GivenBytes) (left : AnyOpening) (gives : OpeningBytes) →
        IsCoherent opening bytes → LinesAreApart script → LogIsNumbered opening →
        IsLegal opening (before ++ record { seat = datanode_seat dn; kind = Halt (Datanode dn) count } ∷ behind) →
        Fits opening bytes script (before ++ record { seat = datanode_seat dn; kind = Halt (Datanode dn) count } ∷ behind) →
        IsOfStory opening before dn was → IfSome entry (WasToMake opening bytes script before dn was) →
        MayHaveEntry entry was kept → GivesContents opening bytes script before kept given →
        IsOpenedOf left gives dn kept given →
        MayBeLeftByNode opening bytes script
        (before ++ record { seat = datanode_seat dn; kind = Halt (Datanode dn) count } ∷ behind) dn left gives }
{}

/// A block that such a datanode holds by the story is missing only where a transaction of the log names it.
pub fn only_what_is_logged_is_missing()
    ensures { (opening : AnyOpening) (bytes : OpeningBytes) (script : AnyScript) (before behind : List AnyEvent) (dn count : ℕ)
        (was kept : Node) (entry : Option AnyEntry) (block : AnyBlock) →
        LogIsNumbered opening →
        IsLegal opening (before ++ record { seat = datanode_seat dn; kind = Halt (Datanode dn) count } ∷ behind) →
        IsOfStory opening before dn was → IfSome entry (WasToMake opening bytes script before dn was) →
        MayHaveEntry entry was kept →
        holds opening (before ++ record { seat = datanode_seat dn; kind = Halt (Datanode dn) count } ∷ behind) dn block ≡ true →
        is_held kept block ≡ false →
        is_logged opening (before ++ record { seat = datanode_seat dn; kind = Halt (Datanode dn) count } ∷ behind) block
        ≡ true }
{}
