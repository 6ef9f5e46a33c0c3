//! What a run says of all nodes: that its story keeps the headline, and that each Halt is named.

ghost use Rattle.std.specs.Prelude.{◌≢◌, Bool, ℕ, List, [], None, if◌then◌else◌};
ghost use Rattle.oz_buffer.specs.Buffer.{AllFollow, Follows};
ghost use Rattle.oz_core.specs.declared.event.Event.{Event as AnyEvent};
ghost use Rattle.oz_core.specs.declared.event.Node.{Node as AnyNode};
ghost use Rattle.oz_core.specs.Coherent.{LogIsCoherent};
ghost use Rattle.oz_core.specs.Manager.{halt_of};
ghost use Rattle.oz_flusher.specs.flushing.Kept.{IsKept};
ghost use Rattle.oz_headline.specs.halts.Disks.{AreAsMany, OtherDisks, OtherNodes, all_disks, some_halted};
ghost use Rattle.oz_headline.specs.halts.Nodes.{AreAsTold, AreCounted, ScmIsAsTold};
ghost use Rattle.oz_headline.specs.halts.Rising.{ItsCountRose};
ghost use Rattle.oz_headline.specs.Disks.{manager_disk};
ghost use Rattle.oz_headline.specs.NamedHalts.{HaltsAreNamed, StatusNamesHalts};
ghost use Rattle.oz_headline.specs.Headline.{Headline};
ghost use Rattle.oz_script.specs.lines.Numbered.{IsNumbered};
ghost use Rattle.oz_world.specs.Disk.{seen as seen_disk};

use crate::{Status, the_story_keeps_the_headline};
use oz_buffer::Opened;
use oz_flusher::Mounted;
use oz_world::Disk;

/// Where the disks agree, in what is still being deleted too, the story that the turn told of a script keeps the headline over the disks of all nodes: by
/// what the flusher keeps of it and of the manager's disk, and by what the datanodes are. `begun` is the manager's disk
/// as the run began.
pub fn the_story_keeps_the_headline_of_all_disks<D: Disk, O: Opened, M: Mounted>()
    ensures { O.coherent → LogIsCoherent O.opening → IsNumbered O.script →
        (begun disk : D) (stopped : Bool) (before : OtherDisks D) (loaded after : OtherNodes D)
        (mine story : List AnyEvent) → AllFollow (Follows O.coherent O.opening O.bytes O.script) [] story →
        (let see = (λ (d : D). seen_disk (D.told d) (D.clock d) (D.image d) (D.faults d)) in
        let manager = manager_disk M.disk.faults M.disk.clock stopped (see begun) (see disk) in
        IsKept O.coherent O.opening O.bodies M.disk stopped story mine (see disk) →
        AreAsTold D.told D.clock D.image D.faults O.coherent O.opening O.bytes O.script O.faults story
        after.datanodes →
        Headline O.opening O.bytes O.script (all_disks see manager before loaded after) story) }
{
    the_story_keeps_the_headline::<D, O, M>();
}

/// Whatever the disks had, each Halt is named: where the flusher kept what it did, and the storage container manager
/// and the datanodes are what the story makes of them. The status then says whether any node halted. `begun` is the manager's
/// disk as the run began.
pub fn halts_of_all_nodes_are_named<D: Disk, O: Opened, M: Mounted>()
    ensures named { (begun disk : D) (stopped : Bool) (before : OtherDisks D) (loaded after : OtherNodes D)
        (mine story : List AnyEvent) → AllFollow (Follows O.coherent O.opening O.bytes O.script) [] story →
        (let see = (λ (d : D). seen_disk (D.told d) (D.clock d) (D.image d) (D.faults d)) in
        let manager = manager_disk M.disk.faults M.disk.clock stopped (see begun) (see disk) in
        IsKept O.coherent O.opening O.bodies M.disk stopped story mine (see disk) →
        ScmIsAsTold D.faults O.opening O.faults story after.scm →
        AreAsTold D.told D.clock D.image D.faults O.coherent O.opening O.bytes O.script O.faults story after.datanodes →
        AreCounted D.faults O.faults loaded → AreAsMany before loaded after →
        HaltsAreNamed (all_disks see manager before loaded after) story) }
    ensures status { (begun disk : D) (stopped : Bool) (before : OtherDisks D) (loaded after : OtherNodes D)
        (story : List AnyEvent) → AreAsMany before loaded after →
        (let see = (λ (d : D). seen_disk (D.told d) (D.clock d) (D.image d) (D.faults d)) in
        let manager = manager_disk M.disk.faults M.disk.clock stopped (see begun) (see disk) in
        HaltsAreNamed (all_disks see manager before loaded after) story →
        StatusNamesHalts (if some_halted stopped after then Status.Disk else Status.Done) story) }
{}

/// Where each Halt is named, the count of a node that halted rose since its disks were loaded. `begun` is the manager's
/// disk as the run began, which had failed `faults` times once it was loaded.
pub fn a_halted_node_counted<D: Disk>()
    ensures { (begun disk : D) (faults first : ℕ) (stopped : Bool) (before : OtherDisks D) (loaded after : OtherNodes D)
        (story : List AnyEvent) (node : AnyNode) → AreAsMany before loaded after →
        (let see = (λ (d : D). seen_disk (D.told d) (D.clock d) (D.image d) (D.faults d)) in
        let manager = manager_disk faults first stopped (see begun) (see disk) in
        HaltsAreNamed (all_disks see manager before loaded after) story → halt_of node story ≢ None →
        ItsCountRose D.faults faults (D.faults disk) loaded after node) }
{}
