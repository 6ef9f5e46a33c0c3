//! A journal: bodies one after another on a disk, each of them whole or not there.

ghost use Rattle.std.specs.Prelude.{◌≡◌, ◌^◌, ◌≤◌, ◌<◌, ◌+◌, ◌++◌, ◌∷◌, [], ℕ, List, length, false, Some, IfSome};
ghost use Rattle.std.specs.Prelude.{IsSomeAnd, is_err, OnOk, IfOk, IfErr};
ghost use Rattle.oz_world.specs.Disk.{seen, TellsAsBefore, IsStable};
ghost use Rattle.oz_world.specs.Faults.{Rose};
ghost use Rattle.oz_journal.specs.Appends.{Appends, Clears};
ghost use Rattle.oz_journal.specs.Body.{bodies_in, places_in};
ghost use Rattle.oz_journal.specs.declared.frame.TheConstants.{LONGEST_FRAME};
ghost use Rattle.oz_journal.specs.Grammar.{sized, IsJournal, IsDamagedAt, TellsBodies, records, places, with_body};
ghost use Rattle.oz_journal.specs.Journal.{body_of};
ghost use Rattle.oz_world.specs.Moments.{Elapses, Spans};

use crate::frame::frame;
use crate::open::open;
use crate::store::{empty, put};
use crate::{Body, LoadFault};
use oz_world::{Disk, Failed};
use std::alloc::Global;
use std::marker::Model;

/// Bodies on a disk, and a closed gate behind them.
#[derive(Drop)]
pub struct Journal<D: Disk> {
    disk: D,
    gate: u64,
    stopped: bool,
}

impl<D: Disk> Model for Journal<D> {
    ghost use Rattle.std.specs.Prelude.{◌≡◌, ◌<◌, ◌^◌, ◌+◌, List, ℕ, Some, false};
    ghost use Rattle.oz_journal.specs.Journal.{State};
    ghost use Rattle.oz_journal.specs.inner.Rest.{IsAtRest};

    ghost Value = { State D };

    ghost view = { λ journal. record { disk = journal.disk; stopped = journal.stopped } };

    ghost invariant = { λ journal. (journal.gate + 1 < 2 ^ 64)
        × (journal.stopped ≡ false → (bytes : List ℕ) → D.told journal.disk ≡ Some bytes
        → IsAtRest bytes journal.gate (D.image journal.disk) (D.clock journal.disk)) };
}

impl<D: Disk> Journal<D> {
    ghost use Rattle.oz_journal.specs.Load.{IsLoadable, IsLeftAlone, disk_after, loaded_at};

    /// Loads what a disk has, or begins where it has at most one byte. It writes to no other disk, and
    /// makes what it reads stable before it reads it. The disk comes back where it can't.
    pub fn load(alloc: Global, disk: D) -> Result<(Journal<D>, Vec<Body>), (D, LoadFault)>
        ensures bodies { IfOk result (λ loaded. IfSome (D.told disk) (λ bytes.
            IsJournal bytes (bodies_in loaded.1.items))) }
        ensures places { IfOk result (λ loaded.
            places_in loaded.1.items ≡ places 0 (bodies_in loaded.1.items)) }
        ensures ends { IfOk result (λ loaded.
            length (records (bodies_in loaded.1.items)) < 2 ^ 64) }
        ensures stands { IfOk result (λ loaded. IfSome (D.told disk) (λ _.
            TellsBodies (D.told loaded.0.disk) (bodies_in loaded.1.items))) }
        ensures running { IfOk result (λ loaded. loaded.0.stopped ≡ false) }

        // When each fault comes.
        ensures damaged { IfErr result (λ refused. (offset : ℕ) →
            refused.1 ≡ LoadFault.Damaged offset →
            IfSome (D.told disk) (λ bytes. IsDamagedAt bytes offset)) }
        ensures disk { IfErr result (λ refused.
            refused.1 ≡ LoadFault.Disk → Rose (D.faults disk) (D.faults refused.0)) }
        ensures never_falls { D.faults disk ≤ D.faults (disk_after result) }

        // What the disk tells afterwards.
        ensures telling { TellsAsBefore (D.told disk) (D.told (disk_after result)) }
        ensures contents { IfSome (D.told disk) (λ bytes.
            2 ≤ length bytes → D.told (disk_after result) ≡ Some bytes) }
        ensures closed { IfSome (D.told disk) (λ bytes.
            length bytes ≤ 1 → OnOk result (D.told (disk_after result) ≡ Some (0 ∷ []))) }

        // What a stop may leave.
        ensures ended { IfOk result (λ loaded. IfSome (D.told disk) (λ bytes.
            D.clock loaded.0.disk ≡ loaded_at (D.clock disk) bytes)) }
        ensures stable { IfOk result (λ loaded. (bytes : List ℕ) → D.told loaded.0.disk ≡ Some bytes →
            IsStable (D.image loaded.0.disk) (D.clock loaded.0.disk) bytes) }
        ensures time { Elapses (D.clock disk) (D.clock (disk_after result)) (D.image disk)
            (D.image (disk_after result)) }
        ensures moments { IfSome (D.told disk) (λ bytes.
            IsLoadable bytes (D.image disk (D.clock disk)) →
            Spans IsLeftAlone (D.clock disk) (D.clock (disk_after result)) (D.image disk)
            (D.image (disk_after result))) }
        ensures loadable { IfSome (D.told disk) (λ bytes.
            IsLoadable bytes (D.image disk (D.clock disk)) →
            IsSomeAnd (D.told (disk_after result)) (λ after.
            IsLoadable after (D.image (disk_after result) (D.clock (disk_after result))))) }
    {
        let mut disk = disk;
        match open(alloc, &mut disk) {
            Ok((bodies, gate)) => {
                let journal = Journal {
                    disk,
                    gate,
                    stopped: false,
                };
                Ok((journal, bodies))
            }
            Err(fault) => Err((disk, fault)),
        }
    }

    /// Adds a body, without taking memory. The body is `framed` without its first four bytes, where
    /// its length comes to stand, and its last one, which becomes the closed gate behind it. It answers
    /// the moment from which on the body is stable. After `Failed` the journal is stopped, and the body
    /// is there or not when the disk is loaded again.
    pub fn append(&mut self, framed: &mut [u8]) -> Result<u64, Failed>
        requires running { self.old.stopped ≡ false }
        requires least { 5 ≤ length framed.old }
        requires most { length framed.old ≤ LONGEST_FRAME }

        ensures appended { Appends (body_of framed.old)
            (seen (D.told self.old.disk) (D.clock self.old.disk) (D.image self.old.disk)
            (D.faults self.old.disk))
            (seen (D.told self.new.disk) (D.clock self.new.disk) (D.image self.new.disk)
            (D.faults self.new.disk))
            result }
        ensures contents { (bytes : List ℕ) (bodies : List (List ℕ)) →
            D.told self.old.disk ≡ Some bytes → IsJournal bytes bodies →
            OnOk result (D.told self.new.disk ≡ Some (with_body bodies (body_of framed.old) bytes)) }
        ensures framed { framed.new ≡ sized (body_of framed.old) ++ 0 ∷ [] }
        ensures moment { IfOk result (λ moment. moment ≡ D.clock self.new.disk) }
        ensures stopped { self.new.stopped ≡ is_err result }
    {
        frame(framed);
        let Ok(()) = put(&mut self.disk, self.gate, framed) else {
            self.stopped = true;
            return Err(Failed);
        };
        self.gate += framed.len() as u64;
        Ok(self.disk.clock())
    }

    /// Whether a call on it has failed. While none has, what its disk tells stands for some bodies and
    /// is stable.
    pub fn stopped(&self) -> bool
        ensures stopped { result ≡ self.now.stopped }
        ensures at_rest { self.now.stopped ≡ false → (bytes : List ℕ) →
            D.told self.now.disk ≡ Some bytes → ((bodies : List (List ℕ)) × IsJournal bytes bodies)
            × IsStable (D.image self.now.disk) (D.clock self.now.disk) bytes }
    {
        self.stopped
    }

    /// How often its disk has failed, at most `u64::MAX`.
    pub fn faults(&self) -> u64
        ensures { result ≡ D.faults self.now.disk }
    {
        self.disk.faults()
    }

    /// Takes all bodies away. Nothing is promised of what a stop in the middle of it leaves. After
    /// `Failed` the journal is stopped.
    pub fn clear(&mut self) -> Result<(), Failed>
        requires { self.old.stopped ≡ false }
        ensures cleared { Clears
            (seen (D.told self.old.disk) (D.clock self.old.disk) (D.image self.old.disk)
            (D.faults self.old.disk))
            (seen (D.told self.new.disk) (D.clock self.new.disk) (D.image self.new.disk)
            (D.faults self.new.disk))
            result }
        ensures contents { (bytes : List ℕ) → D.told self.old.disk ≡ Some bytes →
            OnOk result (D.told self.new.disk ≡ Some (0 ∷ [])) }
        ensures stopped { self.new.stopped ≡ is_err result }
    {
        let Ok(()) = empty(&mut self.disk) else {
            self.stopped = true;
            return Err(Failed);
        };
        self.gate = 0;
        Ok(())
    }

    pub fn into_disk(self) -> D
        ensures { result ≡ self.disk }
    {
        self.disk
    }
}
