//! What the flusher's seat has seen, and the whole story.

ghost use Rattle.std.specs.Prelude.{◌≡◌, ℕ, List, [], Bool};
ghost use Rattle.oz_buffer.specs.Buffer.{AllFollow, Follows, buffer_of};
ghost use Rattle.oz_core.specs.declared.event.Event.{Event as AnyEvent};
ghost use Rattle.oz_core.specs.declared.event.Node.TheVariants.{Manager};
ghost use Rattle.oz_core.specs.Manager.{last_index, swapped_index, durable_index, flushed_moment, halt_of};
ghost use Rattle.oz_core.specs.Seats.{flusher_seat};
ghost use Rattle.oz_flusher.specs.Stops.{StopsHold};
ghost use Rattle.oz_flusher.specs.flushing.Kept.{IsKept};
ghost use Rattle.oz_journal.specs.Grammar.{IsJournal};
ghost use Rattle.oz_turn.specs.Told.{own_entries, BeginsWith};
ghost use Rattle.oz_world.specs.Disk.{seen as seen_disk, IsStable};

use crate::flushing::mounted::Mounted;
use oz_buffer::Opened;
use oz_world::Disk;

/// Before a story has anything, a stop of a journal at rest leaves what was loaded.
pub fn a_journal_at_rest_stands<D: Disk>()
    ensures { (disk : D) (bytes : List ℕ) (bodies : List (List ℕ)) → IsJournal bytes bodies →
        IsStable (D.image disk) (D.clock disk) bytes →
        StopsHold bodies [] (D.clock disk) (D.clock disk) (D.image disk) }
{}

/// What is kept of the story that the flusher's seat has seen holds of each story that goes on from it by events of
/// other seats: of the whole story, once nobody flushes any more.
pub fn the_whole_story_is_kept<D: Disk, O: Opened, M: Mounted>()
    ensures { (disk : D) (stopped : Bool) (seen mine story : List AnyEvent) →
        IsKept O.coherent O.opening O.bodies M.disk stopped seen mine
        (seen_disk (D.told disk) (D.clock disk) (D.image disk) (D.faults disk)) →
        BeginsWith story seen → own_entries (λ event. event.seat) flusher_seat story ≡ mine →
        AllFollow (Follows O.coherent O.opening O.bytes O.script) [] story →
        IsKept O.coherent O.opening O.bodies M.disk stopped story mine
        (seen_disk (D.told disk) (D.clock disk) (D.image disk) (D.faults disk)) }
{}

/// Where the disks agree and nothing is left to be taken, all that was decided was taken to be flushed.
pub fn what_is_taken_was_decided<O: Opened>()
    ensures { (story : List AnyEvent) → O.coherent → AllFollow (Follows O.coherent O.opening O.bytes O.script) [] story →
        buffer_of story ≡ [] → swapped_index O.opening story ≡ last_index O.opening story }
{}

/// Where the disks agree, the events of the flusher's seat alone tell what a story took and flushed, and whether the
/// manager halted.
pub fn the_flusher_alone_tells<O: Opened>()
    ensures halt { (story : List AnyEvent) → O.coherent →
        AllFollow (Follows O.coherent O.opening O.bytes O.script) [] story →
        halt_of Manager story ≡ halt_of Manager (own_entries (λ event. event.seat) flusher_seat story) }
    ensures swapped { (story : List AnyEvent) → O.coherent →
        AllFollow (Follows O.coherent O.opening O.bytes O.script) [] story →
        swapped_index O.opening story ≡ swapped_index O.opening (own_entries (λ event. event.seat) flusher_seat story) }
    ensures durable { (story : List AnyEvent) → O.coherent →
        AllFollow (Follows O.coherent O.opening O.bytes O.script) [] story →
        durable_index O.opening story ≡ durable_index O.opening (own_entries (λ event. event.seat) flusher_seat story) }
    ensures moment { (story : List AnyEvent) → O.coherent →
        AllFollow (Follows O.coherent O.opening O.bytes O.script) [] story →
        flushed_moment story ≡ flushed_moment (own_entries (λ event. event.seat) flusher_seat story) }
{}
