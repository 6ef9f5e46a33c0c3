//! What a run comes to that nothing disturbs, and what empty disks open as.

ghost use Rattle.std.specs.Prelude.{◌≡◌, ◌⊎◌, ◌≤◌, ℕ, Bool, List, Some, length};
ghost use Rattle.oz_cluster.specs.Disks.{ADiskRose};
ghost use Rattle.oz_cluster.specs.StatusCauses.{StatusCauses, StoreLoads};
ghost use Rattle.oz_cluster.specs.Stopped.{IsScript};
ghost use Rattle.oz_cluster.specs.Unwritten.{AreUnwritten};
ghost use Rattle.oz_core.specs.declared.event.Event.{Event as AnyEvent};
ghost use Rattle.oz_running.specs.disk_run.Coherent.{IsCoherentStore};
ghost use Rattle.oz_running.specs.disk_run.StoreRun.{IsStoreRun};
ghost use Rattle.oz_running.specs.declared.disk_run.disks.Disks.{Disks};
ghost use Rattle.oz_journal.specs.Grammar.{IsJournal};
ghost use Rattle.oz_script.specs.declared.lines.script.Script.{Script as AnyScript};
ghost use Rattle.oz_loaded.specs.Loads.{IsLoaded};
ghost use Rattle.oz_loaded.specs.Unseated.{UnseatedView};
ghost use Rattle.oz_namespace.specs.Namespace.{nothing};
ghost use Rattle.oz_rows.specs.RowMaps.{row_of};
ghost use Rattle.oz_sound.specs.Sound.{IsSound};
ghost use Rattle.oz_sound.specs.StandsFor.{StandsFor};
ghost use Rattle.oz_running.specs.store_opening.Openings.{opening_bytes, opening_of};
ghost use Rattle.oz_command.specs.command_line.Words.{IsRun};
ghost use Rattle.oz_world.specs.Disk.{seen};
ghost use Rattle.oz_world.specs.Faults.{Rose};

use oz_command::words_of_a_run_have_no_fault;
use oz_loaded::a_disk_loads_as_one_thing;
use oz_running::{all_disks_are_a_store, unwritten_disks_are_a_store, what_loads_is_not_refused};
use oz_store::an_empty_store_is_one;
use oz_tables::bodies_make_one_thing;
use oz_world::Disk;

/// Words and a script in their grammars, disks that load and whose ids aren't granted again, and no count of faults that
/// rises or, of a datanode, is at its last value: so a run is done, or there was no memory. The source has to tell its
/// text, and the disks their bytes.
pub fn a_run_that_nothing_disturbs_is_done<D: Disk>()
    ensures { (words : List (List ℕ)) (text : List ℕ) (before after : Disks D) (source source_after sink sink_after : ℕ)
        (status : ℕ) → (let see = (λ (d : D). seen (D.told d) (D.clock d) (D.image d) (D.faults d)) in
        StatusCauses see words (Some text) before after (Rose source source_after) (Rose sink sink_after) status →
        IsRun words → IsScript (Some text) → StoreLoads see before → (Rose source source_after → ⊥) →
        (Rose sink sink_after → ⊥) → (ADiskRose see before after → ⊥) → (status ≡ 0) ⊎ (status ≡ 7)) }
{
    a_disk_loads_as_one_thing();
    what_loads_is_not_refused::<D>();
    words_of_a_run_have_no_fault();
}

/// Of a disk of at most one byte rows are loaded that stand for the namespace of nothing and are sound, with index 0.
pub fn an_empty_disk_opens_as_nothing()
    ensures { (bytes : List ℕ) (bodies : List (List ℕ)) (unseated : UnseatedView) → length bytes ≤ 1 →
        IsJournal bytes bodies → (this : IsLoaded bodies unseated) → StandsFor (row_of this.all) nothing
        × IsSound (row_of this.all) × (unseated.last_index ≡ 0) }
{
    an_empty_store_is_one();
    bodies_make_one_thing();
}

/// Disks to which nothing was written are a coherent store over the namespace of nothing, whatever was loaded of them:
/// so what is taken for granted of the disks of a run can be met, and the story of a run over such disks is one history.
pub fn unwritten_disks_are_coherent<D: Disk>()
    ensures { (script : AnyScript) (before after : Disks D) (any_halted : Bool) (story : List AnyEvent)
        (is_done : Bool) → let see = (λ (d : D). seen (D.told d) (D.clock d) (D.image d) (D.faults d)) in
        AreUnwritten see before → (store : IsStoreRun see script before after any_halted story is_done) →
        IsCoherentStore see before.nodes.items (row_of store.over.loaded.all)
        (opening_of store.over.unseated nothing store.nodes.scm.made store.nodes.datanodes)
        (opening_bytes see store.nodes.datanodes) }
{
    unwritten_disks_are_a_store::<D>();
    all_disks_are_a_store::<D>();
}
