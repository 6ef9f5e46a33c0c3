//! What stays of a line that is under way.

ghost use Rattle.std.specs.Prelude.{◌≡◌, ◌≢◌, ◌+◌, ◌≤◌, ◌<◌, ◌==◌, ◌++◌, ◌∷◌, ℕ, [], Bool, List, Option, true, false};
ghost use Rattle.std.specs.Prelude.{None, Some, length, if◌then◌else◌, All, Contains, IsSome, count_by, is_none, nat_le};
ghost use Rattle.std.specs.FinMap.{get};
ghost use Rattle.std.specs.List.{list_all};
ghost use Rattle.oz_asker.specs.Decided.{IsDecideAt};
ghost use Rattle.oz_buffer.specs.Buffer.{AllFollow, Follows};
ghost use Rattle.oz_buffer.specs.Became.{times_said};
ghost use Rattle.oz_client.specs.declared.progress.Progress.{Progress as AnyProgress};
ghost use Rattle.oz_client.specs.declared.step.Got.TheVariants as gots;
ghost use Rattle.oz_client.specs.declared.step.Got.{Got as AnyGot};
ghost use Rattle.oz_client.specs.declared.step.Step.TheVariants as steps;
ghost use Rattle.oz_client.specs.declared.step.Written.{Written as AnyWritten};
ghost use Rattle.oz_client.specs.LineState.{nothing_yet, progress_after};
ghost use Rattle.oz_client.specs.Onward.{IsReading, IsWriting};
ghost use Rattle.oz_client.specs.Stories.{HasIt, IsLeftEverywhere, IsStepEverywhere};
ghost use Rattle.oz_command.specs.declared.command.Command.TheVariants as commands;
ghost use Rattle.oz_command.specs.declared.command.Command.{Command as AnyCommand};
ghost use Rattle.oz_command.specs.Payload.{piece};
ghost use Rattle.oz_core.specs.declared.event.Event.{Event as AnyEvent};
ghost use Rattle.oz_core.specs.declared.event.EventKind.TheVariants.{Ask, Told, Wrote};
ghost use Rattle.oz_core.specs.declared.limits.TheConstants.{SERVICE_CLIENT};
ghost use Rattle.oz_core.specs.declared.event.PutRefusal.{PutRefusal as AnyPutRefusal};
ghost use Rattle.oz_core.specs.Asks.{asks_of, is_of_line, is_own, is_told, last_ask, pending};
ghost use Rattle.oz_core.specs.Coherent.{IsCoherent};
ghost use Rattle.oz_core.specs.Contents.{HasContent, WasGranted, WasThere, written_for};
ghost use Rattle.oz_core.specs.Due.{IsDue};
ghost use Rattle.oz_core.specs.Fits.{EventFits, Fits};
ghost use Rattle.oz_core.specs.Law.{AskIsEnabled, IsNamed, puts, writes};
ghost use Rattle.oz_core.specs.Lines.{HasStarted};
ghost use Rattle.oz_core.specs.Manager.{namespace_of};
ghost use Rattle.oz_core.specs.Nodes.{holds, is_intact, length_of};
ghost use Rattle.oz_core.specs.Scm.{containers, members};
ghost use Rattle.oz_core.specs.Seats.{IsLineSeat};
ghost use Rattle.oz_core.specs.Steps.{GrantedBlock, commit_step, is_open_at, opening_line, refuses_so, was_told_ok};
ghost use Rattle.oz_core.specs.Stories.{has_event};
ghost use Rattle.oz_fields.specs.declared.block.Block.{Block as AnyBlock};
ghost use Rattle.oz_fields.specs.declared.block.Piece.{Piece as AnyPiece};
ghost use Rattle.oz_store.specs.granted.Granted.{AreNumbered};
ghost use Rattle.oz_script.specs.declared.lines.script.Line.{Line as AnyLine};
ghost use Rattle.oz_script.specs.lines.Numbered.{IsNumbered};
ghost use Rattle.oz_model.specs.Answers.{Answers};
ghost use Rattle.oz_model.specs.Reach.{IsReached};
ghost use Rattle.oz_namespace.specs.declared.namespace.Namespace.{Namespace as AnyNamespace};
ghost use Rattle.oz_nodes.specs.Pipelines.{AreApart, members_of, pipelines_of};
ghost use Rattle.oz_nodes.specs.declared.nodes.TheConstants.{FEWEST_NODES};
ghost use Rattle.oz_requests.specs.declared.answer.Answer.{Answer as AnyAnswer};
ghost use Rattle.oz_requests.specs.declared.answer.Answer.TheVariants as told;
ghost use Rattle.oz_requests.specs.declared.reply.Reply.TheVariants as replies;
ghost use Rattle.oz_requests.specs.declared.reply.Reply.{Reply as AnyReply};
ghost use Rattle.oz_requests.specs.declared.request.AskId.{AskId as AnyId};
ghost use Rattle.oz_requests.specs.declared.request.Family.TheVariants.{Allocation};
ghost use Rattle.oz_requests.specs.declared.request.Request.{Request as AnyRequest};
ghost use Rattle.oz_requests.specs.Families.{family_of};
ghost use Rattle.oz_rows.specs.Rows.{IsBlock};
ghost use Rattle.oz_steps.specs.declared.came.Granted.{Granted as AnyGranted};
ghost use Rattle.oz_steps.specs.declared.label.Label.{Label as AnyLabel};
ghost use Rattle.oz_steps.specs.Came.{granted_by};
ghost use Rattle.oz_steps.specs.Grants.{has_fate_written, written_blocks};
ghost use Rattle.oz_steps.specs.Lines.{IsLabel, commit_of_label};
ghost use Rattle.oz_steps.specs.Requests.{request_by};
ghost use Rattle.oz_turn.specs.Told.{BeginsWith};
ghost use Rattle.oz_underway.specs.GoingOn.{FromHereOn};
ghost use Rattle.oz_underway.specs.Lengths.{LengthsAreOfBytes};
ghost use Rattle.oz_underway.specs.UnderWay.{HaveAnswered, IsPieceFor, IsLast, IsSaid, IsUnderWay, LabelStays, WhileStill};
ghost use Rattle.oz_underway.specs.UnderWay.{ask_of, is_all_written, times_asked};

use oz_buffer::Opened;

/// A script's line that has started is under way, from its start on, with nothing that came back.
pub fn a_line_begins<O: Opened>()
    ensures started { O.coherent → IsNumbered O.script → (seen : List AnyEvent) (line : AnyLine)
        (command : AnyCommand) (said nodes : ℕ) (label : Option AnyLabel) →
        Contains O.script.lines line → line.command ≡ command →
        AllFollow (Follows O.coherent O.opening O.bytes O.script) [] seen → HasStarted seen line →
        IsLabel O.script seen line command label →
        IsUnderWay O.coherent O.opening O.bytes O.script seen line 0 said command (nothing_yet nodes label) }
    ensures unasked { O.coherent → (seen : List AnyEvent) (line : AnyLine) (command : AnyCommand)
        (said nodes : ℕ) (label : Option AnyLabel) →
        Contains O.script.lines line → line.client ≢ SERVICE_CLIENT → line.command ≡ command →
        HasStarted seen line → asks_of line.client line.number seen ≡ [] →
        LabelStays O.coherent O.opening O.bytes O.script seen line command label →
        IsUnderWay O.coherent O.opening O.bytes O.script seen line 0 said command (nothing_yet nodes label) }
{}

/// A line that is under way is so in what is seen later; and where all its blocks are written, whatever was said of them.
pub fn a_line_stays_under_way<O: Opened>()
    ensures later { (seen later : List AnyEvent) (line : AnyLine) (asked said : ℕ) (command : AnyCommand)
        (progress : AnyProgress) →
        IsUnderWay O.coherent O.opening O.bytes O.script seen line asked said command progress → BeginsWith later seen →
        IsUnderWay O.coherent O.opening O.bytes O.script later line asked said command progress }
    ensures written { (seen : List AnyEvent) (line : AnyLine) (asked said other : ℕ) (command : AnyCommand)
        (progress : AnyProgress) → is_all_written progress ≡ true →
        IsUnderWay O.coherent O.opening O.bytes O.script seen line asked said command progress →
        IsUnderWay O.coherent O.opening O.bytes O.script seen line asked other command progress }
{}

/// As long as no more is said of a line's blocks, the blocks that were written for it stay, and so does who refused a
/// block that it was granted, and who put it.
pub fn written_blocks_stay<O: Opened>()
    ensures written { (client line : ℕ) (seen story : List AnyEvent) → BeginsWith story seen →
        times_said client line story ≡ times_said client line seen →
        written_for client line story ≡ written_for client line seen }
    ensures refused { (client line dn : ℕ) (counts : AnyPutRefusal → Bool) (grant : GrantedBlock)
        (seen story : List AnyEvent) → is_of_line client line grant.id ≡ true → BeginsWith story seen →
        times_said client line story ≡ times_said client line seen →
        has_event (refuses_so counts grant dn) story ≡ has_event (refuses_so counts grant dn) seen }
    ensures put { O.coherent → (client line dn : ℕ) (seen before : List AnyEvent) (id : AnyId) (block : AnyBlock) →
        client ≢ SERVICE_CLIENT → is_of_line client line id ≡ true → WasGranted seen id block before →
        FromHereOn O.coherent O.opening O.bytes O.script seen (λ story.
        times_said client line story ≡ times_said client line seen →
        has_event (puts dn block) story ≡ has_event (puts dn block) seen) }
{}

/// What is asked next for a line is its next step, as long as no more is said of its blocks, where the law lets it ask; and
/// of that id nothing else is pending so long.
pub fn what_is_asked_fits<O: Opened>()
    ensures fits { O.coherent → (seen : List AnyEvent) (line : AnyLine) (asked said seat : ℕ) (command : AnyCommand)
        (progress : AnyProgress) (got : AnyGot) (request : AnyRequest) (id : AnyId) →
        IsUnderWay O.coherent O.opening O.bytes O.script seen line asked said command progress →
        IsStepEverywhere command progress got (steps.Ask request) →
        ((story : List AnyEvent) → HasIt O.opening O.bytes O.script story line command progress got) →
        id ≡ record { client = line.client; line = line.number; step = asked + 1 } →
        FromHereOn O.coherent O.opening O.bytes O.script seen (λ story. IsSaid story line said progress →
        AskIsEnabled O.opening story seat id request → EventFits O.opening O.bytes O.script story (Ask id request)) }
    ensures same { O.coherent → IsNumbered O.script → (seen : List AnyEvent) (line : AnyLine) (asked said : ℕ)
        (command : AnyCommand) (progress : AnyProgress) (got : AnyGot) (request : AnyRequest) (id : AnyId) →
        IsUnderWay O.coherent O.opening O.bytes O.script seen line asked said command progress →
        IsStepEverywhere command progress got (steps.Ask request) →
        ((story : List AnyEvent) → HasIt O.opening O.bytes O.script story line command progress got) →
        id ≡ record { client = line.client; line = line.number; step = asked + 1 } →
        FromHereOn O.coherent O.opening O.bytes O.script seen (λ story. IsSaid story line said progress →
        (other : AnyRequest) → pending id story ≡ Some other → other ≡ request) }
{}

/// What was decided of a line's next Ask has come back to it, where that grants no block and each block that the line
/// was granted before is written, whatever is said of them by `now`.
pub fn a_reply_comes<O: Opened>()
    ensures { O.coherent → (seen later : List AnyEvent) (line : AnyLine) (asked said now place : ℕ)
        (command : AnyCommand) (progress : AnyProgress) (reply : AnyReply) (id : AnyId) →
        IsUnderWay O.coherent O.opening O.bytes O.script seen line asked said command progress →
        progress.came.writing ≡ None → progress.read ≡ [] →
        list_all has_fate_written progress.came.attempts ≡ true → granted_by reply ≡ None →
        BeginsWith later seen → AllFollow (Follows O.coherent O.opening O.bytes O.script) [] later →
        id ≡ record { client = line.client; line = line.number; step = asked + 1 } → IsDecideAt later place id reply →
        IsUnderWay O.coherent O.opening O.bytes O.script later line (asked + 1) now command
        (progress_after progress (gots.Reply reply)) }
{}

/// A block that was granted lies on the pipeline that the reply names: its members are the three of that pipeline, known
/// datanodes that differ from one another, where there are enough. Its numbers are as blocks have them, where the opening's
/// containers are numbered, and the Ask that was decided is the last of its id.
pub fn what_a_grant_is<O: Opened>()
    ensures members { O.coherent → (story : List AnyEvent) (place pipeline : ℕ) (id : AnyId) (block : AnyBlock) →
        AllFollow (Follows O.coherent O.opening O.bytes O.script) [] story →
        IsDecideAt story place id (replies.Granted block pipeline) →
        (members O.opening story block.container ≡ members_of (length O.opening.nodes) pipeline)
        × (pipeline < pipelines_of (length O.opening.nodes)) }
    ensures apart { O.coherent → FEWEST_NODES ≤ length O.opening.nodes → (story : List AnyEvent) (place pipeline : ℕ)
        (id : AnyId) (block : AnyBlock) → AllFollow (Follows O.coherent O.opening O.bytes O.script) [] story →
        IsDecideAt story place id (replies.Granted block pipeline) →
        AreApart (members O.opening story block.container)
        × All (λ dn. dn < length O.opening.nodes) (members O.opening story block.container) }
    ensures numbers { O.coherent → 1 ≤ O.opening.next_id → AreNumbered O.opening.containers O.opening.next_id →
        (story : List AnyEvent) (place pipeline : ℕ) (id : AnyId) (block : AnyBlock) →
        AllFollow (Follows O.coherent O.opening O.bytes O.script) [] story →
        IsDecideAt story place id (replies.Granted block pipeline) → IsBlock block }
    ensures granted { O.coherent → (story : List AnyEvent) (place pipeline : ℕ) (id : AnyId) (block : AnyBlock) →
        AllFollow (Follows O.coherent O.opening O.bytes O.script) [] story →
        IsDecideAt story place id (replies.Granted block pipeline) →
        (before : List AnyEvent) × WasGranted story id block before }
{}

/// What was decided of a line's next Ask has come back to it, also where it grants a block, and whatever became of the blocks
/// before: no more was said of them than at a place before the Decide.
pub fn a_reply_comes_where_no_more_is_said<O: Opened>()
    ensures { O.coherent → (base seen later : List AnyEvent) (line : AnyLine) (asked said place : ℕ)
        (command : AnyCommand) (progress : AnyProgress) (reply : AnyReply) (id : AnyId) →
        IsUnderWay O.coherent O.opening O.bytes O.script seen line asked said command progress →
        progress.came.writing ≡ None → progress.read ≡ [] →
        BeginsWith seen base → times_said line.client line.number base ≡ said →
        BeginsWith later seen → AllFollow (Follows O.coherent O.opening O.bytes O.script) [] later →
        times_said line.client line.number later ≡ said →
        id ≡ ask_of line (asked + 1) → length seen ≤ place → IsDecideAt later place id reply →
        IsUnderWay O.coherent O.opening O.bytes O.script later line (asked + 1) said command
        (progress_after progress (gots.Reply reply)) }
{}

/// What a line writes next is the piece of its data that the block was granted for to its last Ask, at the members of the
/// block's container, whatever is said and asked since.
pub fn what_is_put_is_its_piece<O: Opened>()
    ensures piece { O.coherent → IsCoherent O.opening O.bytes → IsNumbered O.script → (seen : List AnyEvent)
        (line : AnyLine) (asked said first count : ℕ) (command : AnyCommand) (progress : AnyProgress) (block : AnyBlock)
        (dns : List ℕ) →
        IsUnderWay O.coherent O.opening O.bytes O.script seen line asked said command progress →
        IsWriting command progress block dns first count →
        FromHereOn O.coherent O.opening O.bytes O.script seen (λ story.
        IsPieceFor O.opening O.bytes O.script story (ask_of line asked) block first
        (piece (length (written_blocks progress.came.attempts)) command)) }
    ensures members { O.coherent → (seen : List AnyEvent) (line : AnyLine) (asked said first count : ℕ)
        (command : AnyCommand) (progress : AnyProgress) (block : AnyBlock) (dns : List ℕ) →
        IsUnderWay O.coherent O.opening O.bytes O.script seen line asked said command progress →
        IsWriting command progress block dns first count → progress.nodes ≡ length O.opening.nodes →
        FromHereOn O.coherent O.opening O.bytes O.script seen (λ story.
        members O.opening story block.container ≡ dns) }
{}

/// A line's block may be written by the script where its three members have answered, and no more was said of the line's
/// blocks since the block was granted than these three answers.
pub fn a_quorum_fits<O: Opened>()
    ensures { O.coherent → FEWEST_NODES ≤ length O.opening.nodes → (seen : List AnyEvent) (line : AnyLine)
        (asked said : ℕ) (command : AnyCommand) (progress : AnyProgress) (granted : AnyGranted)
        (answers : List (Option AnyPutRefusal)) →
        IsUnderWay O.coherent O.opening O.bytes O.script seen line asked said command progress →
        progress.came.writing ≡ Some granted → progress.nodes ≡ length O.opening.nodes →
        FromHereOn O.coherent O.opening O.bytes O.script seen (λ story.
        HaveAnswered story (ask_of line asked) granted.block (members_of progress.nodes granted.pipeline) answers →
        times_said line.client line.number story ≡ said + 3 →
        EventFits O.opening O.bytes O.script story (Wrote granted.block (ask_of line asked))) }
{}

/// So it may be written by a line's seat where two of them put it.
pub fn a_quorum_follows<O: Opened>()
    ensures { FEWEST_NODES ≤ length O.opening.nodes → (seen : List AnyEvent) (line : AnyLine)
        (asked said seat : ℕ) (command : AnyCommand) (progress : AnyProgress) (granted : AnyGranted)
        (answers : List (Option AnyPutRefusal)) →
        IsUnderWay O.coherent O.opening O.bytes O.script seen line asked said command progress →
        progress.came.writing ≡ Some granted → progress.nodes ≡ length O.opening.nodes → IsLineSeat seat →
        nat_le 2 (count_by is_none answers) ≡ true →
        FromHereOn O.coherent O.opening O.bytes O.script seen (λ story.
        HaveAnswered story (ask_of line asked) granted.block (members_of progress.nodes granted.pipeline) answers →
        times_said line.client line.number story ≡ said + 3 →
        Follows O.coherent O.opening O.bytes O.script story
        (record { seat = seat; kind = Wrote granted.block (ask_of line asked) })) }
{}

/// The answers of a block's three members have come back to a line that asked no more since, where no more was said of its
/// blocks than these three, and, where two members put the block, that it was written.
pub fn a_block_is_answered<O: Opened>()
    ensures given_up { O.coherent → IsNumbered O.script → FEWEST_NODES ≤ length O.opening.nodes →
        (seen later : List AnyEvent) (line : AnyLine) (asked said : ℕ) (command : AnyCommand) (progress : AnyProgress)
        (granted : AnyGranted) (written : AnyWritten) →
        IsUnderWay O.coherent O.opening O.bytes O.script seen line asked said command progress →
        progress.came.writing ≡ Some granted → progress.nodes ≡ length O.opening.nodes →
        BeginsWith later seen → AllFollow (Follows O.coherent O.opening O.bytes O.script) [] later →
        times_asked later line ≡ asked →
        HaveAnswered later (ask_of line asked) granted.block (members_of progress.nodes granted.pipeline)
        written.answers →
        nat_le 2 (count_by is_none written.answers) ≡ false → times_said line.client line.number later ≡ said + 3 →
        IsUnderWay O.coherent O.opening O.bytes O.script later line asked (said + 3) command
        (progress_after progress (gots.Written written)) }
    ensures written { O.coherent → IsNumbered O.script → FEWEST_NODES ≤ length O.opening.nodes →
        (seen later : List AnyEvent) (line : AnyLine) (asked said : ℕ) (command : AnyCommand) (progress : AnyProgress)
        (granted : AnyGranted) (written : AnyWritten) →
        IsUnderWay O.coherent O.opening O.bytes O.script seen line asked said command progress →
        progress.came.writing ≡ Some granted → progress.nodes ≡ length O.opening.nodes →
        BeginsWith later seen → AllFollow (Follows O.coherent O.opening O.bytes O.script) [] later →
        times_asked later line ≡ asked →
        HaveAnswered later (ask_of line asked) granted.block (members_of progress.nodes granted.pipeline)
        written.answers →
        nat_le 2 (count_by is_none written.answers) ≡ true → has_event (writes granted.block) later ≡ true →
        times_said line.client line.number later ≡ said + 4 →
        IsUnderWay O.coherent O.opening O.bytes O.script later line asked (said + 4) command
        (progress_after progress (gots.Written written)) }
{}

/// A piece of a key is read, while no more was said of the line's blocks: what its block has, it has from then on.
pub fn a_piece_is_read<O: Opened>()
    ensures { O.coherent → IsNumbered O.script → (seen later : List AnyEvent) (line : AnyLine) (asked said : ℕ)
        (command : AnyCommand) (progress : AnyProgress) (piece : AnyPiece) (content : List ℕ) →
        IsUnderWay O.coherent O.opening O.bytes O.script seen line asked said command progress →
        IsReading command progress piece → IsSaid later line said progress →
        BeginsWith later seen → AllFollow (Follows O.coherent O.opening O.bytes O.script) [] later →
        HasContent O.opening O.bytes O.script later piece.block content →
        IsUnderWay O.coherent O.opening O.bytes O.script later line asked said command
        (record progress { read = progress.read ++ content ∷ [] }) }
{}

/// The members of a container stay once it is made. It has three, and each block that a Decide named, or that a key, a
/// session or a snapshot has, lies in a container that is made.
pub fn members_stay<O: Opened>()
    ensures stay { (number : ℕ) (seen : List AnyEvent) → IsSome (get (containers O.opening seen) number) →
        FromHereOn O.coherent O.opening O.bytes O.script seen (λ story.
        members O.opening story number ≡ members O.opening seen number) }
    ensures three { (number : ℕ) (story : List AnyEvent) → IsSome (get (containers O.opening story) number) →
        length (members O.opening story number) ≡ 3 }
    ensures named { O.coherent → IsCoherent O.opening O.bytes → (story : List AnyEvent) (id : AnyId) (block : AnyBlock) →
        AllFollow (Follows O.coherent O.opening O.bytes O.script) [] story → IsNamed story id block →
        IsSome (get (containers O.opening story) block.container) }
    ensures reached { O.coherent → IsCoherent O.opening O.bytes → (story : List AnyEvent) (block : AnyBlock) →
        AllFollow (Follows O.coherent O.opening O.bytes O.script) [] story →
        IsReached (namespace_of O.opening story) block →
        IsSome (get (containers O.opening story) block.container) }
{}

/// Who holds a block is a member of its container.
pub fn holders_are_members<O: Opened>()
    ensures { O.coherent → IsCoherent O.opening O.bytes → (story : List AnyEvent) (dn : ℕ) (block : AnyBlock) →
        AllFollow (Follows O.coherent O.opening O.bytes O.script) [] story → holds O.opening story dn block ≡ true →
        Contains (members O.opening story block.container) dn }
{}

/// What a line reads next was replied to its last Ask, which isn't the line's own id: a Decide of it named the block.
pub fn what_is_read_is_named<O: Opened>()
    ensures { O.coherent → (seen : List AnyEvent) (line : AnyLine) (asked said : ℕ) (command : AnyCommand)
        (progress : AnyProgress) (piece : AnyPiece) →
        IsUnderWay O.coherent O.opening O.bytes O.script seen line asked said command progress →
        IsReading command progress piece →
        FromHereOn O.coherent O.opening O.bytes O.script seen (λ story.
        IsNamed story (ask_of line asked) piece.block × (is_own (ask_of line asked) ≡ false)) }
{}

/// The content of the block that a line reads next is as long as the piece says. So is the block itself, where no disk had
/// it, or where each block of the opening is as long as the bytes that disks had of it.
pub fn a_piece_has_the_length_of_its_block<O: Opened>()
    ensures content { O.coherent → IsCoherent O.opening O.bytes → IsNumbered O.script → (seen : List AnyEvent)
        (line : AnyLine) (asked said : ℕ) (command : AnyCommand) (progress : AnyProgress) (piece : AnyPiece) →
        IsUnderWay O.coherent O.opening O.bytes O.script seen line asked said command progress →
        IsReading command progress piece →
        FromHereOn O.coherent O.opening O.bytes O.script seen (λ story. (content : List ℕ) →
        HasContent O.opening O.bytes O.script story piece.block content → length content ≡ piece.length) }
    ensures new { O.coherent → IsCoherent O.opening O.bytes → IsNumbered O.script → (seen : List AnyEvent)
        (line : AnyLine) (asked said : ℕ) (command : AnyCommand) (progress : AnyProgress) (piece : AnyPiece) →
        IsUnderWay O.coherent O.opening O.bytes O.script seen line asked said command progress →
        IsReading command progress piece → (WasThere O.opening piece.block → ⊥) →
        FromHereOn O.coherent O.opening O.bytes O.script seen (λ story. (count : ℕ) →
        length_of O.opening story piece.block ≡ Some count → count ≡ piece.length) }
    ensures length { O.coherent → IsCoherent O.opening O.bytes → IsNumbered O.script →
        LengthsAreOfBytes O.opening O.bytes → (seen : List AnyEvent) (line : AnyLine) (asked said : ℕ)
        (command : AnyCommand) (progress : AnyProgress) (piece : AnyPiece) →
        IsUnderWay O.coherent O.opening O.bytes O.script seen line asked said command progress →
        IsReading command progress piece →
        FromHereOn O.coherent O.opening O.bytes O.script seen (λ story. (count : ℕ) →
        length_of O.opening story piece.block ≡ Some count → count ≡ piece.length) }
{}

/// A line is told that no replica gives a piece where no member of its block's container is intact for the line's last Ask,
/// as long as no more is said of the line's blocks.
pub fn nobody_has_a_piece<O: Opened>()
    ensures { O.coherent → IsCoherent O.opening O.bytes → (seen : List AnyEvent) (line : AnyLine) (asked said : ℕ)
        (command : AnyCommand) (progress : AnyProgress) (piece : AnyPiece) →
        IsUnderWay O.coherent O.opening O.bytes O.script seen line asked said command progress →
        IsReading command progress piece →
        FromHereOn O.coherent O.opening O.bytes O.script seen (λ story.
        last_ask line.client line.number story ≡ Some (ask_of line asked) → IsSaid story line said progress →
        All (λ dn. is_intact O.opening story (ask_of line asked) piece.block dn ≡ false)
        (members O.opening story piece.block.container) →
        IsDue O.opening O.bytes O.script story line (told.NoReplica (length progress.read) piece.block)) }
{}

/// Only who asked for a block is granted one.
pub fn a_reply_grants_nothing()
    ensures { (namespace : AnyNamespace) (request : AnyRequest) (reply : AnyReply) →
        Answers namespace request reply → family_of request ≢ Allocation → granted_by reply ≡ None }
{}

/// What a line is to be told is due, as long as it asked no more and no more was said of its blocks: it is what the script
/// leads to.
pub fn what_is_told_is_due<O: Opened>()
    ensures due { (seen : List AnyEvent) (line : AnyLine) (asked said : ℕ) (command : AnyCommand)
        (progress : AnyProgress) (got : AnyGot) (answer : AnyAnswer) →
        IsUnderWay O.coherent O.opening O.bytes O.script seen line asked said command progress →
        IsStepEverywhere command progress got (steps.Tell answer) →
        WhileStill O.coherent O.opening O.bytes O.script seen line asked said progress (λ story.
        HasIt O.opening O.bytes O.script story line command progress got →
        IsDue O.opening O.bytes O.script story line answer) }
    ensures fits { O.coherent → (seen : List AnyEvent) (line : AnyLine) (asked said : ℕ) (command : AnyCommand)
        (progress : AnyProgress) (got : AnyGot) (answer : AnyAnswer) (last : Option AnyId) →
        IsUnderWay O.coherent O.opening O.bytes O.script seen line asked said command progress →
        IsStepEverywhere command progress got (steps.Tell answer) → IsLast last asked →
        FromHereOn O.coherent O.opening O.bytes O.script seen (λ story.
        last_ask line.client line.number story ≡ last → IsSaid story line said progress →
        HasIt O.opening O.bytes O.script story line command progress got →
        EventFits O.opening O.bytes O.script story (Told line.client line.number answer)) }
    ensures given { (seen : List AnyEvent) (line : AnyLine) (asked said : ℕ) (command : AnyCommand)
        (progress : AnyProgress) (answer : AnyAnswer) →
        IsUnderWay O.coherent O.opening O.bytes O.script seen line asked said command progress →
        FromHereOn O.coherent O.opening O.bytes O.script seen (λ story.
        IsDue O.opening O.bytes O.script story line answer →
        EventFits O.opening O.bytes O.script story (Told line.client line.number answer)) }
{}

/// A script's line asks with the steps 1, 2 and so on: its last Ask says how often it asked. As long as that stays, all
/// its Asks do; and they stay once the line is told, or, as long as no more is said of its blocks, has no next step.
pub fn asks_stay<O: Opened>()
    ensures counted { O.coherent → (client line : ℕ) (story : List AnyEvent) (id : AnyId) →
        client ≢ SERVICE_CLIENT → AllFollow (Follows O.coherent O.opening O.bytes O.script) [] story →
        last_ask client line story ≡ Some id →
        id ≡ record { client = client; line = line; step = length (asks_of client line story) } }
    ensures times { O.coherent → (client line asked : ℕ) (story : List AnyEvent) (last : Option AnyId) →
        client ≢ SERVICE_CLIENT → AllFollow (Follows O.coherent O.opening O.bytes O.script) [] story →
        IsLast last asked → last_ask client line story ≡ last → length (asks_of client line story) ≡ asked }
    ensures last { (client line asked : ℕ) →
        IsLast (if asked == 0 then None else Some (record { client = client; line = line; step = asked })) asked }
    ensures none { (client line : ℕ) (story : List AnyEvent) → last_ask client line story ≡ None →
        asks_of client line story ≡ [] }
    ensures same { O.coherent → (client line : ℕ) (seen : List AnyEvent) → client ≢ SERVICE_CLIENT →
        FromHereOn O.coherent O.opening O.bytes O.script seen (λ story.
        last_ask client line story ≡ last_ask client line seen →
        asks_of client line story ≡ asks_of client line seen) }
    ensures told { O.coherent → (client line : ℕ) (seen : List AnyEvent) → client ≢ SERVICE_CLIENT →
        is_told client line seen ≡ true → FromHereOn O.coherent O.opening O.bytes O.script seen (λ story.
        asks_of client line story ≡ asks_of client line seen) }
    ensures idle { O.coherent → IsNumbered O.script → (seen : List AnyEvent) (line : AnyLine) (asked said : ℕ)
        (command : AnyCommand) (progress : AnyProgress) →
        IsUnderWay O.coherent O.opening O.bytes O.script seen line asked said command progress →
        request_by command progress.label progress.came ≡ None →
        FromHereOn O.coherent O.opening O.bytes O.script seen (λ story. IsSaid story line said progress →
        times_asked story line ≡ asked) }
{}

/// Where each event follows, the whole story is that of the script: each client's lines were told in their order.
pub fn lines_are_told_in_order<O: Opened>()
    ensures { O.coherent → IsNumbered O.script → (story : List AnyEvent) →
        AllFollow (Follows O.coherent O.opening O.bytes O.script) [] story →
        Fits O.opening O.bytes O.script story }
{}

/// Behind what tells it, a line was told: it is open if it was told `OK`. It asked nothing by that.
pub fn a_line_was_told()
    ensures told { (story : List AnyEvent) (seat client number : ℕ) (answer : AnyAnswer) →
        is_told client number (story ++ record { seat = seat; kind = Told client number answer } ∷ []) ≡ true }
    ensures open { (story : List AnyEvent) (seat : ℕ) (line : AnyLine) (answer : AnyAnswer) →
        is_open_at (story ++ record { seat = seat; kind = Told line.client line.number answer } ∷ []) line
        ≡ was_told_ok (Some answer) }
    ensures asks { (story : List AnyEvent) (seat client number other line : ℕ) (answer : AnyAnswer) →
        asks_of client number (story ++ record { seat = seat; kind = Told other line answer } ∷ [])
        ≡ asks_of client number story }
{}

/// What a label stands for stays once the line that opened it was told, which it is once, as long as no more is said of its
/// blocks; where they are all written that needn't be. For a later line that commits
/// the label it is what that line left, if it was told `OK`, and else nothing; so it stays from the later line's start
/// on. A label that no line opened stands for nothing, not even for that it isn't open.
pub fn a_label_stays<O: Opened>()
    ensures commit { O.coherent → (seen : List AnyEvent) (opened : AnyLine) (asked said : ℕ) (command : AnyCommand)
        (progress : AnyProgress) (label : AnyLabel) →
        IsUnderWay O.coherent O.opening O.bytes O.script seen opened asked said command progress →
        IsLeftEverywhere command progress label → times_asked seen opened ≡ asked → is_open_at seen opened ≡ true →
        FromHereOn O.coherent O.opening O.bytes O.script seen (λ story. IsSaid story opened said progress →
        commit_step story (Some opened) ≡ Some (commit_of_label label)) }
    ensures ok { O.coherent → (seen : List AnyEvent) (opened line : AnyLine) (asked said : ℕ) (command : AnyCommand)
        (progress : AnyProgress) (label : AnyLabel) (name : List ℕ) →
        IsUnderWay O.coherent O.opening O.bytes O.script seen opened asked said command progress →
        IsLeftEverywhere command progress label → times_asked seen opened ≡ asked → is_open_at seen opened ≡ true →
        is_all_written progress ≡ true → opening_line O.script line name ≡ Some opened →
        LabelStays O.coherent O.opening O.bytes O.script seen line (commands.KeyCommit name) (Some label) }
    ensures open { O.coherent → (seen : List AnyEvent) (opened : AnyLine) →
        is_told opened.client opened.number seen ≡ true →
        FromHereOn O.coherent O.opening O.bytes O.script seen (λ story.
        is_open_at story opened ≡ is_open_at seen opened) }
    ensures not_open { O.coherent → (seen : List AnyEvent) (opened line : AnyLine) (name : List ℕ) →
        is_told opened.client opened.number seen ≡ true → is_open_at seen opened ≡ false →
        opening_line O.script line name ≡ Some opened →
        LabelStays O.coherent O.opening O.bytes O.script seen line (commands.KeyCommit name) None }
    ensures started { O.coherent → IsNumbered O.script → (since seen : List AnyEvent) (line : AnyLine)
        (command : AnyCommand) (label : Option AnyLabel) →
        line.client ≢ SERVICE_CLIENT → HasStarted since line → BeginsWith seen since →
        AllFollow (Follows O.coherent O.opening O.bytes O.script) [] seen → IsLabel O.script seen line command label →
        LabelStays O.coherent O.opening O.bytes O.script since line command label }
    ensures none { (story : List AnyEvent) (line : AnyLine) (command : AnyCommand) (label : Option AnyLabel) →
        ((name : List ℕ) → command ≢ commands.KeyCommit name) → IsLabel O.script story line command label }
    ensures unopened { (story : List AnyEvent) (line : AnyLine) (name : List ℕ) (label : Option AnyLabel) →
        opening_line O.script line name ≡ None →
        IsLabel O.script story line (commands.KeyCommit name) label → ⊥ }
{}
