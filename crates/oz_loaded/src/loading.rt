//! Loading the manager's disk.

ghost use Rattle.std.specs.Prelude.{◌≡◌, ◌≤◌, ◌<◌, ◌^◌, [], ◌∷◌, ℕ, List, length, false, Some, IfOk, IfErr, IfSome};
ghost use Rattle.std.specs.Prelude.{OnOk, IsSomeAnd};
ghost use Rattle.oz_effects.specs.Build.{Builds};
ghost use Rattle.oz_journal.specs.Body.{bodies_in, places_in};
ghost use Rattle.oz_journal.specs.Grammar.{places, records};
ghost use Rattle.oz_journal.specs.Load.{IsLeftAlone, IsLoadable, loaded_at};
ghost use Rattle.oz_loaded.specs.Loads.{IsDamagedDisk, IsFaultIn, IsLoaded, Loads, disk_after};
ghost use Rattle.oz_rows.specs.RowMaps.{KeysRise};
ghost use Rattle.oz_rows.specs.declared.operation.TheConstants.{END_OF_INDEXES};
ghost use Rattle.oz_world.specs.Disk.{IsStable, TellsAsBefore};
ghost use Rattle.oz_world.specs.Faults.{Rose};
ghost use Rattle.oz_world.specs.Moments.{Elapses, Spans};

use crate::unseated::Unseated;
use oz_flusher::Flusher;
use oz_journal::{Batches, Body, Journal, LoadFault};
use oz_tables::{BuildFault, Tables, bodies_make_one_thing, build};
use oz_world::Disk;
use std::alloc::Global;

/// Loads what the manager's disk has, or begins where it has at most one byte. It writes to no other disk, and makes what
/// it reads stable before it reads it. The disk comes back where it can't.
pub fn load<D: Disk>(alloc: Global, disk: D) -> Result<(Unseated, Flusher<D>), (D, LoadFault)>
    ensures loads { IfOk result (λ loaded. Loads (D.told disk) (D.told loaded.1.disk) loaded.0) }
    ensures index { IfOk result (λ loaded. loaded.0.last_index < END_OF_INDEXES) }
    ensures running { IfOk result (λ loaded. loaded.1.stopped ≡ false) }

    // When each fault comes.
    ensures damaged { IfErr result (λ refused. (offset : ℕ) → refused.1 ≡ LoadFault.Damaged offset →
        IfSome (D.told disk) (λ bytes. IsDamagedDisk bytes offset)) }
    ensures disk { IfErr result (λ refused.
        refused.1 ≡ LoadFault.Disk → Rose (D.faults disk) (D.faults refused.0)) }
    ensures never_falls { D.faults disk ≤ D.faults (disk_after result) }

    // What the disk tells afterwards.
    ensures telling { TellsAsBefore (D.told disk) (D.told (disk_after result)) }
    ensures contents { IfSome (D.told disk) (λ bytes.
        2 ≤ length bytes → D.told (disk_after result) ≡ Some bytes) }
    ensures closed { IfSome (D.told disk) (λ bytes.
        length bytes ≤ 1 → OnOk result (D.told (disk_after result) ≡ Some (0 ∷ []))) }

    // What a stop may leave.
    ensures ended { IfOk result (λ loaded. IfSome (D.told disk) (λ bytes.
        D.clock loaded.1.disk ≡ loaded_at (D.clock disk) bytes)) }
    ensures stable { IfOk result (λ loaded. (bytes : List ℕ) → D.told loaded.1.disk ≡ Some bytes →
        IsStable (D.image loaded.1.disk) (D.clock loaded.1.disk) bytes) }
    ensures time { Elapses (D.clock disk) (D.clock (disk_after result)) (D.image disk)
        (D.image (disk_after result)) }
    ensures moments { IfSome (D.told disk) (λ bytes.
        IsLoadable bytes (D.image disk (D.clock disk)) →
        Spans IsLeftAlone (D.clock disk) (D.clock (disk_after result)) (D.image disk)
        (D.image (disk_after result))) }
    ensures loadable { IfSome (D.told disk) (λ bytes.
        IsLoadable bytes (D.image disk (D.clock disk)) →
        IsSomeAnd (D.told (disk_after result)) (λ after.
        IsLoadable after (D.image (disk_after result) (D.clock (disk_after result))))) }
{
    let (journal, bodies) = match Journal::load(alloc, disk) {
        Ok(loaded) => loaded,
        Err((disk, fault)) => return Err((disk, fault)),
    };
    match unseated_of(alloc, &bodies) {
        Ok(unseated) => Ok((unseated, Flusher::new(journal, Batches::new(alloc)))),
        Err(fault) => Err((journal.into_disk(), fault)),
    }
}

/// What the bodies of a disk make, in parts. A fault's place is that on the disk.
fn unseated_of(alloc: Global, bodies: &[Body]) -> Result<Unseated, LoadFault>
    requires places { places_in bodies.now ≡ places 0 (bodies_in bodies.now) }
    requires ends { length (records (bodies_in bodies.now)) < 2 ^ 64 }
    ensures loaded { IfOk result (IsLoaded (bodies_in bodies.now)) }
    ensures index { IfOk result (λ unseated. unseated.last_index < END_OF_INDEXES) }
    ensures damaged { IfErr result (λ fault. (offset : ℕ) → fault ≡ LoadFault.Damaged offset →
        IsFaultIn (bodies_in bodies.now) offset) }
    ensures disk { IfErr result (λ fault. fault ≡ LoadFault.Disk → ⊥) }
{
    let tables = match tables_of(alloc, bodies) {
        Ok(tables) => tables,
        Err(fault) => return Err(fault),
    };
    match Unseated::over(alloc, &tables) {
        Ok(unseated) => Ok(unseated),
        Err(_) => Err(LoadFault::OutOfMemory),
    }
}

/// The tables of a journal's bodies.
fn tables_of(alloc: Global, bodies: &[Body]) -> Result<Tables, LoadFault>
    requires places { places_in bodies.now ≡ places 0 (bodies_in bodies.now) }
    requires ends { length (records (bodies_in bodies.now)) < 2 ^ 64 }
    ensures built { IfOk result (λ tables. Builds (bodies_in bodies.now) tables.rows tables.last_index) }
    ensures in_order { IfOk result (λ tables. KeysRise tables.rows) }
    ensures index { IfOk result (λ tables. tables.last_index < END_OF_INDEXES) }
    ensures damaged { IfErr result (λ fault. (offset : ℕ) → fault ≡ LoadFault.Damaged offset →
        IsFaultIn (bodies_in bodies.now) offset) }
    ensures disk { IfErr result (λ fault. fault ≡ LoadFault.Disk → ⊥) }
{
    bodies_make_one_thing();
    match build(alloc, bodies) {
        Ok(tables) => {
            tables.rows_are_in_order();
            Ok(tables)
        }
        Err(BuildFault::Damaged { body, at }) => {
            let Some(damaged) = bodies.get(body) else {
                unreachable!()
            };
            Err(LoadFault::Damaged {
                offset: damaged.at + at as u64,
            })
        }
        Err(BuildFault::OutOfMemory) => Err(LoadFault::OutOfMemory),
    }
}
