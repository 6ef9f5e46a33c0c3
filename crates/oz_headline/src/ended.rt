//! What the turn and the flusher leave once a run's work is done.

ghost use Rattle.std.specs.Prelude.{◌≡◌, Bool, [], ◌∷◌, List};
ghost use Rattle.oz_buffer.specs.Buffer.{AllFollow, Follows};
ghost use Rattle.oz_core.specs.declared.event.Event.{Event as AnyEvent};
ghost use Rattle.oz_core.specs.Coherent.{LogIsCoherent};
ghost use Rattle.oz_flusher.specs.flushing.Kept.{IsKept};
ghost use Rattle.oz_headline.specs.Disks.{manager_disk};
ghost use Rattle.oz_headline.specs.Headline.{Headline};
ghost use Rattle.oz_headline.specs.Reads.{NoneIsBad};
ghost use Rattle.oz_script.specs.lines.Numbered.{IsNumbered};
ghost use Rattle.oz_world.specs.Disk.{seen as seen_disk};

use oz_buffer::Opened;
use oz_flusher::{Mounted, the_flusher_alone_tells};
use oz_underway::lines_are_told_in_order;
use oz_world::Disk;

/// Where the disks agree, in what is still being deleted too, and no datanode finds bytes bad, the story that the turn told of a script keeps the headline:
/// by what the flusher keeps of it and of the manager's disk, of which alone it says something here. `begun` is that
/// disk as the run began.
pub fn the_story_keeps_the_headline<D: Disk, O: Opened, M: Mounted>()
    ensures { O.coherent → LogIsCoherent O.opening → IsNumbered O.script →
        (begun disk : D) (stopped : Bool) (mine story : List AnyEvent) →
        AllFollow (Follows O.coherent O.opening O.bytes O.script) [] story →
        (let see = (λ (d : D). seen_disk (D.told d) (D.clock d) (D.image d) (D.faults d)) in
        IsKept O.coherent O.opening O.bodies M.disk stopped story mine (see disk) → NoneIsBad story →
        Headline O.opening O.bytes O.script
        (manager_disk M.disk.faults M.disk.clock stopped (see begun) (see disk) ∷ []) story) }
{
    lines_are_told_in_order::<O>();
    the_flusher_alone_tells::<O>();
}
