//! The storage container manager.

ghost use Rattle.std.specs.Prelude.{IsTrue, ◌↔◌, ◌≡◌, ◌≢◌, ◌≤◌, ◌<◌, ◌+◌, ℕ, [], List, length, false, true, replicate, slice_set, map, Some};
ghost use Rattle.std.specs.Prelude.{IfOk, IfErr, IfSome, OnErr, OnOk, IsSomeAnd, Err, IsSome};
ghost use Rattle.std.specs.List.{range_with_len};
ghost use Rattle.std.specs.Option.{option_map};
ghost use Rattle.oz_scm.specs.declared.grants.container.Container.{Container as AnyContainer};
ghost use Rattle.oz_scm.specs.Applying.{Applies};
ghost use Rattle.oz_scm.specs.grants.Counts.{AreCounts};
ghost use Rattle.oz_dellog.specs.Log.{IsLogged, is_done, pending};
ghost use Rattle.oz_dellog.specs.declared.logged.Logged.{Logged as AnyLogged};
ghost use Rattle.oz_scm.specs.declared.grants.entry.Entry.TheVariants.{Acked as Acks, Retired as Retires};
ghost use Rattle.oz_scm.specs.Logging.{Logs};
ghost use Rattle.oz_scm.specs.Noting.{Notes};
ghost use Rattle.std.specs.FinMap.{entries};
ghost use Rattle.std.specs.Map.Iter.{ShowsInOrder, deref_pair};
ghost use Rattle.oz_scm.specs.grants.Log.{AreCounted, IsOrdered};
ghost use Rattle.oz_scm.specs.grants.Made.{container_at, state_at, MayLog, MayAck, MayRetire, may_ack, may_log, log_of};
ghost use Rattle.oz_journal.specs.Grammar.{IsJournal, TellsBodies};
ghost use Rattle.oz_journal.specs.Load.{IsLoadable};
ghost use Rattle.oz_names.specs.declared.limits.TheConstants.{STRIPES};
ghost use Rattle.oz_nodes.specs.declared.nodes.TheConstants.{FEWEST_NODES, MOST_NODES};
ghost use Rattle.oz_nodes.specs.Pipelines.{members_of, is_node_up};
ghost use Rattle.oz_scm.specs.Granting.{Grants};
ghost use Rattle.oz_scm.specs.Scm.{IsOfNodes, IsDamagedDisk, or_first};
ghost use Rattle.oz_world.specs.Disk.{seen, TellsAsBefore, IsStable};
ghost use Rattle.oz_world.specs.Faults.{Rose};
ghost use Rattle.oz_world.specs.Moments.{Elapses, Spans};

use crate::adding::{add, check};
use crate::beginning::found_or_first;
use crate::choosing::due;
use crate::fault::{ApplyFault, GrantFault, ScmFault, ScmStop};
use crate::grants::{Container, Containers, Grant, encode_acked, encode_retired, encode_stepped};
use crate::loading::containers_of;
use crate::planning::{has_numbers, plan_grant, plan_log};
use crate::stepping::led_to;
use oz_container::{Event, State};
use oz_dellog::{Logged, Txn};
use oz_fields::{Block, OutOfMemory};
use oz_journal::{
    Journal, LoadFault, bytes_left_alone_stand_for_the_same, bytes_stand_for_one_thing,
};
use oz_nodes::Nodes;
use oz_requests::Exclude;
use oz_world::Disk;
use std::alloc::Global;
use std::collections::btree_map::Iter;
use std::marker::Model;

/// The storage container manager. Each grant, and each step of a container, is one body of its journal, and is made here once
/// that body is stable.
/// Which datanodes are up isn't on its disk: all are as it is loaded.
#[derive(Drop)]
pub struct Scm<D: Disk> {
    journal: Journal<D>,
    containers: Containers,
    nodes: Nodes,
}

impl<D: Disk> Model for Scm<D> {
    ghost use Rattle.std.specs.Prelude.{◌≡◌, false, length};
    ghost use Rattle.oz_scm.specs.Codes.{coded_scm};
    ghost use Rattle.oz_scm.specs.Scm.{State, Keeps};

    ghost Value = { State D };

    ghost coded = { coded_scm D.code };

    ghost view = { λ scm. record {
      disk = scm.journal.disk;
      stopped = scm.journal.stopped;
      made = scm.containers.made;
      up = scm.nodes;
    } };

    ghost invariant = { λ scm. (length scm.nodes ≡ scm.containers.made.nodes)
        × (scm.journal.stopped ≡ false → Keeps (D.told scm.journal.disk) scm.containers.made) };
}

impl<D: Disk> Scm<D> {
    ghost use Rattle.oz_scm.specs.Scm.{StandsFor, StandsStill, disk_after};

    /// Loads what a disk has, and names the number of datanodes on one that has no body. It makes what it reads stable
    /// before it reads it. The disk comes back where it can't be loaded.
    pub fn load(alloc: Global, disk: D, nodes: u8) -> Result<Scm<D>, (D, ScmFault)>
        requires least { FEWEST_NODES ≤ nodes }
        requires most { nodes ≤ MOST_NODES }
        ensures stands { IfOk result (λ scm. IfSome (D.told disk) (λ bytes. StandsFor nodes bytes scm.made)) }
        ensures nodes { IfOk result (λ scm. scm.made.nodes ≡ nodes) }
        ensures ordered { IfOk result (λ scm. IsOrdered scm.made) }
        ensures up { IfOk result (λ scm. scm.up ≡ replicate nodes true) }
        ensures running { IfOk result (λ scm. scm.stopped ≡ false) }

        // When each fault comes.
        ensures damaged { IfErr result (λ refused. (offset : ℕ) → refused.1 ≡ ScmFault.Damaged offset →
            IfSome (D.told disk) (λ bytes. IsDamagedDisk bytes offset)) }
        ensures other { IfErr result (λ refused. (recorded given : ℕ) → refused.1 ≡ ScmFault.Nodes recorded given →
            (given ≡ nodes) × (recorded ≢ nodes) × IfSome (D.told disk) (IsOfNodes recorded)) }
        ensures disk { IfErr result (λ refused.
            refused.1 ≡ ScmFault.Disk → Rose (D.faults disk) (D.faults refused.0)) }
        ensures never_falls { D.faults disk ≤ D.faults (disk_after result) }

        // What the disk tells afterwards.
        ensures telling { TellsAsBefore (D.told disk) (D.told (disk_after result)) }
        ensures bodies { IfOk result (λ scm. IfSome (D.told disk) (λ bytes. (bodies : List (List ℕ)) →
            IsJournal bytes bodies → TellsBodies (D.told scm.disk) (or_first nodes bodies))) }
        ensures contents { IfErr result (λ refused. refused.1 ≢ ScmFault.Disk → IfSome (D.told disk) (λ bytes.
            2 ≤ length bytes → D.told refused.0 ≡ Some bytes)) }

        // What a stop may leave: whatever was loaded from what one would have left before.
        ensures stable { IfOk result (λ scm. (bytes : List ℕ) → D.told scm.disk ≡ Some bytes →
            IsStable (D.image scm.disk) (D.clock scm.disk) bytes) }
        ensures time { Elapses (D.clock disk) (D.clock (disk_after result)) (D.image disk)
            (D.image (disk_after result)) }
        ensures moments { IfSome (D.told disk) (λ bytes.
            IsLoadable bytes (D.image disk (D.clock disk)) →
            Spans (StandsStill nodes) (D.clock disk) (D.clock (disk_after result)) (D.image disk)
            (D.image (disk_after result))) }
    {
        bytes_left_alone_stand_for_the_same();
        bytes_stand_for_one_thing();
        let (journal, bodies) = match Journal::load(alloc, disk) {
            Ok(loaded) => loaded,
            Err((disk, fault)) => return Err((disk, fault_of(fault))),
        };
        let mut journal = journal;
        let found = match containers_of(alloc, &bodies, nodes) {
            Ok(found) => found,
            Err(fault) => return Err((journal.into_disk(), fault)),
        };
        let containers = match found_or_first(alloc, &mut journal, found, nodes) {
            Ok(containers) => containers,
            Err(fault) => return Err((journal.into_disk(), fault)),
        };
        Ok(Scm {
            journal,
            containers,
            nodes: Nodes::new(nodes),
        })
    }

    /// Grants the ids that are due to a stripe, which is one of the sixteen. The grant is stable when it is answered.
    pub fn grant(
        &mut self,
        alloc: Global,
        stripe: u8,
        exclude: &Exclude,
    ) -> Result<Grant, GrantFault>
        requires { stripe < STRIPES }
        ensures { Grants stripe exclude.now self.old self.new
            (seen (D.told self.old.disk) (D.clock self.old.disk) (D.image self.old.disk) (D.faults self.old.disk))
            (seen (D.told self.new.disk) (D.clock self.new.disk) (D.image self.new.disk) (D.faults self.new.disk))
            result }
    {
        check(&self.journal)?;
        let grant = due(&self.containers, &self.nodes, stripe, exclude)?;
        let mut frame = plan_grant(alloc, &mut self.containers, stripe, &grant)?;
        add(&mut self.journal, &mut frame)?;
        self.containers.grant(&grant);
        Ok(grant)
    }

    /// Leads a container that was made on by an event, without taking memory. The step is stable when it is answered.
    pub fn apply(&mut self, container: u64, event: Event) -> Result<State, ApplyFault>
        requires { IsSome (state_at self.old.made.containers container) }
        ensures { Applies container event self.old self.new
            (seen (D.told self.old.disk) (D.clock self.old.disk) (D.image self.old.disk) (D.faults self.old.disk))
            (seen (D.told self.new.disk) (D.clock self.new.disk) (D.image self.new.disk) (D.faults self.new.disk))
            result }
    {
        let Ok(()) = check(&self.journal) else {
            let count = self.journal.faults();
            return Err(ApplyFault::Stopped { count });
        };
        let state = match led_to(&self.containers, container, event) {
            Ok(state) => state,
            Err(fault) => return Err(fault),
        };
        let mut frame = encode_stepped(container, event);
        let Ok(()) = add(&mut self.journal, &mut frame) else {
            let count = self.journal.faults();
            return Err(ApplyFault::Stopped { count });
        };
        self.containers.step(container, event);
        Ok(state)
    }

    /// Notes that a datanode acknowledged a transaction, which it owes (`may_ack`). It takes no memory, and is stable when
    /// it is answered. The error is how often the disk has failed.
    pub fn ack(&mut self, number: u64, dn: u8) -> Result<(), u64>
        requires { MayAck self.old.made number dn }
        ensures { Notes (Acks number dn) self.old self.new
            (seen (D.told self.old.disk) (D.clock self.old.disk) (D.image self.old.disk) (D.faults self.old.disk))
            (seen (D.told self.new.disk) (D.clock self.new.disk) (D.image self.new.disk) (D.faults self.new.disk))
            result }
    {
        let Ok(()) = check(&self.journal) else {
            let count = self.journal.faults();
            return Err(count);
        };
        let mut frame = encode_acked(number, dn);
        let Ok(()) = add(&mut self.journal, &mut frame) else {
            let count = self.journal.faults();
            return Err(count);
        };
        self.containers.ack(number, dn);
        Ok(())
    }

    /// Retires a transaction that three datanodes acknowledged (`may_retire`). It takes no memory, and is stable when it is
    /// answered. The error is how often the disk has failed.
    pub fn retire(&mut self, number: u64) -> Result<(), u64>
        requires { MayRetire self.old.made number }
        ensures { Notes (Retires number) self.old self.new
            (seen (D.told self.old.disk) (D.clock self.old.disk) (D.image self.old.disk) (D.faults self.old.disk))
            (seen (D.told self.new.disk) (D.clock self.new.disk) (D.image self.new.disk) (D.faults self.new.disk))
            result }
    {
        let Ok(()) = check(&self.journal) else {
            let count = self.journal.faults();
            return Err(count);
        };
        let mut frame = encode_retired(number);
        let Ok(()) = add(&mut self.journal, &mut frame) else {
            let count = self.journal.faults();
            return Err(count);
        };
        self.containers.retire(number);
        Ok(())
    }

    /// Logs the deletion of blocks: a transaction of one container that was made, with the next number (`last_txn`) and at most
    /// 1,024 ids. It takes memory before it writes, and is stable when it is answered.
    pub fn log_txn(&mut self, alloc: Global, txn: &Txn) -> Result<(), ScmStop>
        requires { MayLog self.old.made txn.now }
        ensures { Logs txn.now self.old self.new
            (seen (D.told self.old.disk) (D.clock self.old.disk) (D.image self.old.disk) (D.faults self.old.disk))
            (seen (D.told self.new.disk) (D.clock self.new.disk) (D.image self.new.disk) (D.faults self.new.disk))
            result }
    {
        let Ok(()) = check(&self.journal) else {
            let count = self.journal.faults();
            return Err(ScmStop::Stopped { count });
        };
        has_numbers(txn);
        let mut frame = plan_log(alloc, &mut self.containers, txn)?;
        let Ok(()) = add(&mut self.journal, &mut frame) else {
            self.containers.unlog();
            let count = self.journal.faults();
            return Err(ScmStop::Stopped { count });
        };
        Ok(())
    }

    /// Whether a transaction may be logged next (`log_txn`).
    pub fn may_log(&self, txn: &Txn) -> bool
        ensures { result ≡ may_log self.now.made txn.now }
    {
        self.containers.may_log(txn)
    }

    /// Whether a datanode owes a transaction's acknowledgement.
    pub fn may_ack(&self, number: u64, dn: u8) -> bool
        ensures { result ≡ may_ack self.now.made number dn }
    {
        self.containers.may_ack(number, dn)
    }

    /// Whether a transaction is there that three datanodes acknowledged.
    pub fn may_retire(&self, number: u64) -> bool
        ensures { result ≡ is_done (log_of self.now.made) number }
    {
        self.containers.may_retire(number)
    }

    /// The number of the last transaction that was logged, retired or not, 0 for none.
    pub fn last_txn(&self) -> u64
        ensures { result ≡ self.now.made.last_txn }
    {
        self.containers.last_txn()
    }

    /// Whether a transaction that isn't retired names the block.
    pub fn logged(&self, block: Block) -> bool
        ensures { IsTrue result ↔ IsLogged (log_of self.now.made) block }
    {
        self.containers.logged(block)
    }

    /// The transactions of a container that a datanode hasn't acknowledged, in the order of their numbers.
    pub fn pending_in(&self, alloc: Global, container: u64, dn: u8) -> Result<Vec<Txn>, OutOfMemory>
        ensures { IfOk result (λ txns. txns.items ≡ pending (log_of self.now.made) container dn) }
    {
        self.containers.pending(alloc, container, dn)
    }

    /// Each transaction has from one id to 1,024. It does nothing when it runs.
    pub fn are_counted(&self)
        ensures { AreCounted self.now.made }
    {
        self.containers.are_counted();
    }

    /// What was logged and isn't retired, in the order of the numbers.
    pub fn unretired(&self) -> Iter<'_, u64, Logged>
        ensures rest { result ≡ entries self.now.made.unretired }
        ensures runs { ShowsInOrder (deref_pair {K = ℕ} {X = AnyLogged}) }
    {
        self.containers.unretired()
    }

    /// How many datanodes there are.
    pub fn nodes(&self) -> u8
        ensures made { result ≡ self.now.made.nodes }
        ensures known { result ≡ length self.now.up }
    {
        self.containers.nodes()
    }

    /// Notes that a datanode is up, or that it is down.
    pub fn set_up(&mut self, dn: u8, up: bool)
        requires { dn < length self.old.up }
        ensures { self.new ≡ record self.old { up = slice_set self.old.up dn up } }
    {
        if up {
            self.nodes.up(dn);
        } else {
            self.nodes.down(dn);
        }
    }

    pub fn is_up(&self, dn: u8) -> bool
        requires { dn < length self.now.up }
        ensures { result ≡ is_node_up self.now.up dn }
    {
        self.nodes.is_up(dn)
    }

    /// The datanodes that have a container's replicas, None where it wasn't made.
    pub fn members(&self, container: u64) -> Option<[u8; 3]>
        ensures { result ≡ option_map (λ (one : AnyContainer). members_of self.now.made.nodes one.pipeline)
            (container_at self.now.made.containers container) }
    {
        match self.containers.get(container) {
            Some(container) => Some(self.nodes.members(container.pipeline)),
            None => None,
        }
    }

    /// The state that a container is in, None where it wasn't made.
    pub fn state(&self, container: u64) -> Option<State>
        ensures { result ≡ state_at self.now.made.containers container }
    {
        match self.containers.get(container) {
            Some(container) => Some(container.state),
            None => None,
        }
    }

    /// The id of the next block that is granted.
    pub fn next_id(&self) -> u64
        ensures { result ≡ self.now.made.next_id }
    {
        self.containers.next_id()
    }

    /// The containers that were made with their numbers, in their order.
    pub fn containers(&self, alloc: Global) -> Result<Vec<(u64, Container)>, OutOfMemory>
        ensures numbers { IfOk result (λ all. map (λ (one : ℕ × AnyContainer). one.0) all.items
            ≡ range_with_len 1 (length self.now.made.containers)) }
        ensures containers { IfOk result (λ all. map (λ (one : ℕ × AnyContainer). one.1) all.items
            ≡ self.now.made.containers) }
    {
        self.containers.all(alloc)
    }

    /// How many containers there are in each state, in the order of the states; None where one of the counts passes a
    /// `u32`.
    pub fn counts(&self) -> Option<[u32; 6]>
        ensures { AreCounts self.now.made.containers result }
    {
        self.containers.counts()
    }

    /// Whether a call on the disk has failed. While none has, what the disk tells stands for this, and is stable.
    pub fn stopped(&self) -> bool
        ensures stopped { result ≡ self.now.stopped }
        ensures at_rest { self.now.stopped ≡ false → (bytes : List ℕ) → D.told self.now.disk ≡ Some bytes →
            StandsFor self.now.made.nodes bytes self.now.made
            × IsStable (D.image self.now.disk) (D.clock self.now.disk) bytes }
    {
        self.journal.stopped()
    }

    /// How often the disk has failed, at most `u64::MAX`.
    pub fn faults(&self) -> u64
        ensures { result ≡ D.faults self.now.disk }
    {
        self.journal.faults()
    }

    pub fn into_disk(self) -> D
        ensures { result ≡ self.disk }
    {
        self.journal.into_disk()
    }
}

/// A fault of the journal.
fn fault_of(fault: LoadFault) -> ScmFault
    ensures disk { result ≡ ScmFault.Disk → fault ≡ LoadFault.Disk }
    ensures damaged { (offset : ℕ) → result ≡ ScmFault.Damaged offset → fault ≡ LoadFault.Damaged offset }
    ensures other { (recorded given : ℕ) → result ≡ ScmFault.Nodes recorded given → ⊥ }
{
    match fault {
        LoadFault::Disk => ScmFault::Disk,
        LoadFault::Damaged { offset } => ScmFault::Damaged { offset },
        LoadFault::OutOfMemory => ScmFault::OutOfMemory,
    }
}
