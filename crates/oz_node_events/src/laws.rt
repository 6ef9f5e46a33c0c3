//! What holds of the notes of an ask.

ghost use Rattle.std.specs.Prelude.{◌≡◌, ◌≤◌, ℕ, [], ◌∷◌, ◌++◌, Bool, true, false, not, List, Option, Some};
ghost use Rattle.oz_buffer.specs.Buffer.{AllFollow, Follows};
ghost use Rattle.oz_core.specs.declared.event.Event.{Event as AnyEvent};
ghost use Rattle.oz_core.specs.declared.event.EventKind.TheVariants.{Halt, Wipe};
ghost use Rattle.oz_core.specs.declared.event.PutRefusal.{PutRefusal as AnyRefusal};
ghost use Rattle.oz_core.specs.declared.event.Node.TheVariants.{Datanode};
ghost use Rattle.oz_core.specs.Asks.{is_script};
ghost use Rattle.oz_core.specs.Coherent.{IdsAreFresh, IsCoherent};
ghost use Rattle.oz_core.specs.Contents.{HasContent, WasGranted};
ghost use Rattle.oz_core.specs.Fits.{EventFits};
ghost use Rattle.oz_core.specs.Law.{WroteIsEnabled, puts_or_copies};
ghost use Rattle.oz_core.specs.Manager.{halt_of};
ghost use Rattle.oz_core.specs.Nodes.{is_closed, is_running, stopped_or_started};
ghost use Rattle.oz_core.specs.Stories.{has_event, last_told};
ghost use Rattle.oz_datanode.specs.Datanode.{Runs, State as AnyNode, count_of, is_halted};
ghost use Rattle.oz_fields.specs.declared.block.Block.{Block as AnyBlock};
ghost use Rattle.oz_node_events.specs.full.Full.{JournalStands};
ghost use Rattle.oz_script.specs.lines.Numbered.{IsNumbered};
ghost use Rattle.oz_node_events.specs.Answers.{AnswersStand, HadIt, HasQuorum};
ghost use Rattle.oz_node_events.specs.Commands.{HaltsSo, IsWipedSo, by_node, run_event};
ghost use Rattle.oz_node_events.specs.Led.{no_lines};
ghost use Rattle.oz_node_events.specs.NodeSeat.{IsAppended, IsAsOpened, IsKept, SeatView, StandsFor, events_of};
ghost use Rattle.oz_node_events.specs.Noting.{HasSeen, IsNotedBy, IsSameNoter, MayNote, NotingView};
ghost use Rattle.oz_replicas.specs.Notes.{Subject};
ghost use Rattle.oz_datanode.specs.Reading.{IsRead};
ghost use Rattle.oz_replicas.specs.Reading.{Gave, IsFirstGiven, ReadsShort};
ghost use Rattle.oz_replicas.specs.Stays.{Stays};
ghost use Rattle.oz_replicas.specs.Writing.{AllAnswered, StopsShort};
ghost use Rattle.oz_requests.specs.declared.request.AskId.{AskId as AnyId};
ghost use Rattle.oz_turn.specs.Told.{BeginsWith};

use oz_buffer::Opened;
use oz_world::Disk;

/// A datanode that was loaded, holds what the opening says, and has a journal that stands for it, has a seat that stands for it
/// before it gave an event, where its disks have failed no less often than it is said of their loading.
pub fn a_loaded_datanode_stands<D: Disk, O: Opened>()
    ensures { (node : AnyNode D) → Runs D.faults node → (O.coherent → IsAsOpened D.told D.clock D.image D.faults O.opening
        O.bytes node) →
        (O.coherent → JournalStands D.told node) → O.faults (Datanode node.id) ≤ count_of D.faults node →
        StandsFor D.told D.clock D.image D.faults O.coherent O.opening O.bytes O.script O.faults
        (record { dn = node.id; seen = []; mine = []; room = 0; last = no_lines }) node }
{}

/// The events of a datanode's seat alone tell whether it halted, whether a line stopped it and which replicas are closed. It
/// stands for its datanode in each story that goes on by events of others.
pub fn its_seat_alone_tells<D: Disk, O: Opened>()
    ensures halt { (story : List AnyEvent) (dn : ℕ) → AllFollow (Follows O.coherent O.opening O.bytes O.script) [] story →
        halt_of (Datanode dn) story ≡ halt_of (Datanode dn) (events_of dn story) }
    ensures line { O.coherent → (story : List AnyEvent) (dn : ℕ) →
        AllFollow (Follows O.coherent O.opening O.bytes O.script) [] story →
        last_told (stopped_or_started dn) true story ≡ last_told (stopped_or_started dn) true (events_of dn story) }
    ensures closed { O.coherent → (story : List AnyEvent) (dn container : ℕ) →
        AllFollow (Follows O.coherent O.opening O.bytes O.script) [] story →
        is_closed O.opening story dn container ≡ is_closed O.opening (events_of dn story) dn container }
    ensures stands { (view : SeatView) (node : AnyNode D) (story : List AnyEvent) →
        IsKept O.coherent O.opening O.bytes O.script view → StandsFor D.told D.clock D.image D.faults O.coherent O.opening
        O.bytes O.script O.faults view node →
        BeginsWith story view.seen → AllFollow (Follows O.coherent O.opening O.bytes O.script) [] story →
        events_of view.dn story ≡ view.mine →
        StandsFor D.told D.clock D.image D.faults O.coherent O.opening O.bytes O.script O.faults
        (record view { seen = story }) node }
{}

/// What a script's ask has to know so that something may be noted for it stays so, in each story that goes on.
pub fn what_may_be_noted_stays<O: Opened>()
    ensures { O.coherent → IsCoherent O.opening O.bytes → IsNumbered O.script → (seen story : List AnyEvent) (id : AnyId)
        (first : ℕ) (subject : Subject) →
        is_script id ≡ true → MayNote O.opening O.bytes O.script id first subject seen → BeginsWith story seen →
        AllFollow (Follows O.coherent O.opening O.bytes O.script) [] story →
        MayNote O.opening O.bytes O.script id first subject story }
{}

/// Once all members of a block have answered, each answer stands in the story that the noter's seat has seen by then.
pub fn each_answer_is_in_the_story<D: Disk, O: Opened>()
    ensures { (subject : Subject) (members : List ℕ) (answers : List (Option AnyRefusal)) (before after : NotingView) →
        AllAnswered D.told D.clock D.image D.faults (StandsFor D.told D.clock D.image D.faults O.coherent O.opening O.bytes
        O.script O.faults) IsNotedBy HasSeen subject
        members answers before after →
        AnswersStand O.coherent O.opening before.id subject.block after.seen members answers }
{}

/// A datanode that held a block which was granted has put it or copied it in the story: no disk had it at the opening.
pub fn what_was_granted_came_in_the_story<O: Opened>()
    ensures { O.coherent → IdsAreFresh O.opening → (story before : List AnyEvent) (id : AnyId) (block : AnyBlock) (dn : ℕ) →
        AllFollow (Follows O.coherent O.opening O.bytes O.script) [] story → WasGranted story id block before →
        HadIt O.coherent O.opening block story dn → has_event (puts_or_copies dn block) story ≡ true }
{}

/// Once all members of a block that was granted have answered, two of them that they have it, the block may be written by a line's
/// seat in each story that goes on from what the noter's seat has seen by then, as long as it isn't written there yet.
pub fn a_quorum_may_be_written<D: Disk, O: Opened>()
    ensures { O.coherent → IdsAreFresh O.opening → (subject : Subject) (dns : List ℕ) (answers : List (Option AnyRefusal))
        (before after : NotingView) (story : List AnyEvent) (seat : ℕ) →
        AllAnswered D.told D.clock D.image D.faults (StandsFor D.told D.clock D.image D.faults O.coherent O.opening O.bytes
        O.script O.faults) IsNotedBy HasSeen subject dns
        answers before after →
        AllFollow (Follows O.coherent O.opening O.bytes O.script) [] story →
        HasQuorum O.opening before.id subject.block dns answers after.seen story seat →
        WroteIsEnabled O.opening story seat subject.block before.id }
{}

/// Whatever comes of a block, the noter is the same afterwards, and its seat has seen what it had seen, and more.
pub fn a_noter_stays_the_same<D: Disk, O: Opened>()
    ensures written { (subject : Subject) (members : List ℕ) (answers : List (Option AnyRefusal)) (before after : NotingView) →
        AllAnswered D.told D.clock D.image D.faults (StandsFor D.told D.clock D.image D.faults O.coherent O.opening O.bytes
        O.script O.faults) IsNotedBy HasSeen subject
        members answers before after → IsSameNoter before after }
    ensures unwritten { (subject : Subject) (members : List ℕ) (before after : NotingView) →
        StopsShort D.told D.clock D.image D.faults (StandsFor D.told D.clock D.image D.faults O.coherent O.opening O.bytes
        O.script O.faults) IsNotedBy HasSeen subject members
        before after → IsSameNoter before after }
    ensures read { (subject : Subject) (size : ℕ) (members : List ℕ) (given : Option (List ℕ)) (before after : NotingView) →
        IsFirstGiven D.told D.clock D.image D.faults (StandsFor D.told D.clock D.image D.faults O.coherent O.opening O.bytes
        O.script O.faults) IsNotedBy HasSeen subject size members
        given before after → IsSameNoter before after }
    ensures unread { (subject : Subject) (size : ℕ) (members : List ℕ) (before after : NotingView) →
        ReadsShort D.told D.clock D.image D.faults (StandsFor D.told D.clock D.image D.faults O.coherent O.opening O.bytes
        O.script O.faults) IsNotedBy HasSeen subject size members
        before after → IsSameNoter before after }
{}

/// Where the opening is coherent the bytes that were read of a block, and those that a member gave of it, are the block's content in
/// each story that goes on from what the noter's seat has seen then.
pub fn what_is_given_is_the_content<D: Disk, O: Opened>()
    ensures read { O.coherent → (view after : SeatView) (old new : AnyNode D) (block : AnyBlock) (given : List ℕ) →
        StandsFor D.told D.clock D.image D.faults O.coherent O.opening O.bytes O.script O.faults view old →
        Stays D.told D.clock D.image D.faults old new → IsRead D.told D.faults block given old new →
        StandsFor D.told D.clock D.image D.faults O.coherent O.opening O.bytes O.script O.faults after new →
        HasContent O.opening O.bytes O.script after.seen block given }
    ensures gave { O.coherent → (subject : Subject) (size dn : ℕ) (given : List ℕ) (before after : NotingView)
        (story : List AnyEvent) →
        Gave D.told D.clock D.image D.faults (StandsFor D.told D.clock D.image D.faults O.coherent O.opening O.bytes
        O.script O.faults) IsNotedBy HasSeen subject size dn (Some given) before after →
        BeginsWith story after.seen → AllFollow (Follows O.coherent O.opening O.bytes O.script) [] story →
        HasContent O.opening O.bytes O.script story subject.block given }
    ensures first { O.coherent → (subject : Subject) (size : ℕ) (members given : List ℕ) (before after : NotingView)
        (story : List AnyEvent) →
        IsFirstGiven D.told D.clock D.image D.faults (StandsFor D.told D.clock D.image D.faults O.coherent O.opening O.bytes
        O.script O.faults) IsNotedBy HasSeen subject size members (Some given) before after →
        BeginsWith story after.seen → AllFollow (Follows O.coherent O.opening O.bytes O.script) [] story →
        HasContent O.opening O.bytes O.script story subject.block given }
{}

/// A datanode whose disks haven't failed runs unless a line stopped it. A Start of one that a line stopped, and a Stop of one
/// that runs, may follow where the script leads to it, and behind it the seat stands for the datanode that runs, or doesn't.
pub fn a_line_has_it_run_or_not<D: Disk, O: Opened>()
    ensures runs { (view : SeatView) (node : AnyNode D) → StandsFor D.told D.clock D.image D.faults O.coherent O.opening O.bytes
        O.script O.faults view node →
        is_halted node ≡ false → is_running view.dn view.mine ≡ not node.stopped }
    ensures follows { (view : SeatView) (node : AnyNode D) (runs : Bool) (story : List AnyEvent) →
        IsKept O.coherent O.opening O.bytes O.script view → StandsFor D.told D.clock D.image D.faults O.coherent O.opening
        O.bytes O.script O.faults view node →
        is_halted node ≡ false → node.stopped ≡ runs → AllFollow (Follows O.coherent O.opening O.bytes O.script) [] story →
        events_of view.dn story ≡ view.mine →
        (O.coherent → EventFits O.opening O.bytes O.script story (run_event view.dn runs)) →
        Follows O.coherent O.opening O.bytes O.script story (by_node view.dn (run_event view.dn runs)) }
    ensures stands { (view after : SeatView) (node : AnyNode D) (runs : Bool) (other : List AnyEvent) →
        IsKept O.coherent O.opening O.bytes O.script view → IsKept O.coherent O.opening O.bytes O.script after →
        StandsFor D.told D.clock D.image D.faults O.coherent O.opening O.bytes O.script O.faults view node → after.dn ≡ view.dn →
        after.mine ≡ view.mine ++ by_node view.dn (run_event view.dn runs) ∷ [] →
        IsAppended (by_node view.dn (run_event view.dn runs)) view.seen other after.seen →
        StandsFor D.told D.clock D.image D.faults O.coherent O.opening O.bytes O.script O.faults after
        (record node { stopped = not runs }) }
{}

/// A seat that has seen more, and gave no event since, stands for its datanode as before.
pub fn it_stands_where_it_saw_more<D: Disk, O: Opened>()
    ensures { (view after : SeatView) (node : AnyNode D) → IsKept O.coherent O.opening O.bytes O.script view →
        IsKept O.coherent O.opening O.bytes O.script after → StandsFor D.told D.clock D.image D.faults O.coherent O.opening
        O.bytes O.script O.faults view node →
        after.dn ≡ view.dn → after.mine ≡ view.mine → BeginsWith after.seen view.seen →
        StandsFor D.told D.clock D.image D.faults O.coherent O.opening O.bytes O.script O.faults after node }
{}

/// A Wipe of a datanode whose disks haven't failed may follow where the script leads to it, and behind it the seat stands for the
/// datanode that holds nothing.
pub fn a_line_wipes_it<D: Disk, O: Opened>()
    ensures follows { (view : SeatView) (node : AnyNode D) (story : List AnyEvent) →
        IsKept O.coherent O.opening O.bytes O.script view → StandsFor D.told D.clock D.image D.faults O.coherent O.opening
        O.bytes O.script O.faults view node →
        is_halted node ≡ false → AllFollow (Follows O.coherent O.opening O.bytes O.script) [] story →
        events_of view.dn story ≡ view.mine → (O.coherent → EventFits O.opening O.bytes O.script story (Wipe view.dn)) →
        Follows O.coherent O.opening O.bytes O.script story (by_node view.dn (Wipe view.dn)) }
    ensures stands { (view after : SeatView) (old new : AnyNode D) (other : List AnyEvent) →
        IsKept O.coherent O.opening O.bytes O.script view → IsKept O.coherent O.opening O.bytes O.script after →
        StandsFor D.told D.clock D.image D.faults O.coherent O.opening O.bytes O.script O.faults view old →
        IsWipedSo D.told D.clock D.image D.faults O.coherent old new → after.dn ≡ view.dn →
        after.mine ≡ view.mine ++ by_node view.dn (Wipe view.dn) ∷ [] →
        IsAppended (by_node view.dn (Wipe view.dn)) view.seen other after.seen →
        StandsFor D.told D.clock D.image D.faults O.coherent O.opening O.bytes O.script O.faults after new }
{}

/// A Halt of a datanode whose disks hadn't failed may follow, and behind it the seat stands for the datanode one of whose disks
/// failed, whatever it holds then.
pub fn a_failed_disk_halts_it<D: Disk, O: Opened>()
    ensures follows { (view : SeatView) (node : AnyNode D) (count : ℕ) (story : List AnyEvent) →
        IsKept O.coherent O.opening O.bytes O.script view → StandsFor D.told D.clock D.image D.faults O.coherent O.opening
        O.bytes O.script O.faults view node →
        is_halted node ≡ false → 1 ≤ count → AllFollow (Follows O.coherent O.opening O.bytes O.script) [] story →
        events_of view.dn story ≡ view.mine →
        Follows O.coherent O.opening O.bytes O.script story (by_node view.dn (Halt (Datanode view.dn) count)) }
    ensures stands { (view after : SeatView) (old new : AnyNode D) (count : ℕ) (other : List AnyEvent) →
        IsKept O.coherent O.opening O.bytes O.script view → IsKept O.coherent O.opening O.bytes O.script after →
        StandsFor D.told D.clock D.image D.faults O.coherent O.opening O.bytes O.script O.faults view old →
        HaltsSo D.told D.faults old new count → after.dn ≡ view.dn →
        after.mine ≡ view.mine ++ by_node view.dn (Halt (Datanode view.dn) count) ∷ [] →
        IsAppended (by_node view.dn (Halt (Datanode view.dn) count)) view.seen other after.seen →
        StandsFor D.told D.clock D.image D.faults O.coherent O.opening O.bytes O.script O.faults after new }
{}
