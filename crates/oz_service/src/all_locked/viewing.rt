//! A container as the storage container manager and its members have it, under all locks.

ghost use Rattle.std.specs.Prelude.{◌≡◌, ◌⊎◌, ◌↔◌, ◌<◌, ℕ, List as Items, None, Some, All, Contains, IfOk, IfSome, IsTrue, OnOk, length, not};
ghost use Rattle.std.specs.Bool.{OnTrue};
ghost use Rattle.std.specs.FinMap.{get};
ghost use Rattle.std.specs.List.Sorted.{IsStrictlyIncreasing};
ghost use Rattle.oz_container.specs.declared.state.Event.{Event as AnyStep};
ghost use Rattle.oz_core.specs.declared.event.Event.{Event as AnyEvent};
ghost use Rattle.oz_core.specs.declared.event.Node.TheVariants.{Scm as ScmNode};
ghost use Rattle.oz_core.specs.declared.opening.Opening.{Opening as AnyOpening};
ghost use Rattle.oz_core.specs.Scm.{containers, members};
ghost use Rattle.oz_datanode.specs.Writing.{is_open};
ghost use Rattle.oz_repl.specs.declared.repl.view.View.{View as AnyView};
ghost use Rattle.oz_repl.specs.repl.View.{AreRising, IsNext};
ghost use Rattle.oz_scm.specs.grants.Made.{log_of};
ghost use Rattle.oz_scm_events.specs.Kept.{IsKept};
ghost use Rattle.oz_scm_events.specs.Stepped.{state_told};
ghost use Rattle.oz_service.specs.Emptied.{IsDone};
ghost use Rattle.oz_service.specs.Viewed.{AreOldDeletions, AreShown, IsMember, IsSeenAs, IsToGo};

use crate::all_locked::AllLocked;
use oz_buffer::{Ledger, Opened};
use oz_container::State;
use oz_fields::{Block, List, OutOfMemory};
use oz_repl::View;
use oz_scm_events::the_scm_alone_tells;
use oz_turn::Ring;
use oz_world::Disk;
use std::alloc::{AllocError, Global};

/// Which event of a container comes next is told by what is seen of it as by its view; and where none does, nothing is left to do.
pub fn what_is_seen_tells_what_comes_next()
    ensures next { (opening : AnyOpening) (story : Items AnyEvent) (number : ℕ) (view : AnyView) (event : AnyStep)
        (seen : IsSeenAs opening story number view) → IsNext view event ↔ IsNext (record view { closed = seen.closed }) event }
    ensures done { (opening : AnyOpening) (story : Items AnyEvent) (number : ℕ) (view : AnyView) →
        IsSeenAs opening story number view → ((event : AnyStep) → IsNext view event → ⊥) → IsDone opening story number }
{}

/// What a member has of a container.
#[derive(Drop)]
struct Member {
    up: bool,
    closed: bool,
    held: List<u64>,
}

impl<'a, D: Disk, O: Opened, R: Ring> AllLocked<'a, D, O, R> {
    /// A container and what its members have of it, in the story that all seats were shown; None where it wasn't made. `old` are
    /// the local ids of those of its blocks that were to be deleted as the run began. Of a member that is down what is
    /// shown of its replica and its blocks is what it has in memory, and decides nothing.
    ///
    /// Errors: where there is no memory for the lists. The same is answered where a member isn't there, which no grant makes.
    pub fn view(
        &self,
        alloc: Global,
        container: u64,
        old: &[u64],
    ) -> Result<Option<View>, OutOfMemory>
        requires { AreOldDeletions O.opening container old.now }
        ensures made { IfOk result (λ view. (view ≡ None) ↔ (get (containers O.opening self.now.scm.mine) container ≡ None)) }
        ensures rising { IfOk result (λ view. IfSome view AreRising) }
        ensures view { (story : Items AnyEvent) → AreShown D.Disk O.Opened story self.now →
            IfOk result (λ view. IfSome view (IsSeenAs O.opening story container)) }
    {
        let Some(state) = self.scm.state(container) else {
            return Ok(None);
        };
        let Some(dns) = self.scm.members_told(container) else {
            return Ok(None);
        };
        if !self.are_there(dns) {
            return Err(AllocError);
        }
        let view = self.view_of(alloc, container, state, dns, old)?;
        Ok(Some(view))
    }

    /// Whether there are datanodes with these numbers.
    fn are_there(&self, dns: [u8; 3]) -> bool
        ensures { OnTrue result (All (λ dn. dn < length O.opening.nodes) dns) }
    {
        let count = self.nodes.len();
        let [one, two, three] = dns;
        usize::from(one) < count && usize::from(two) < count && usize::from(three) < count
    }

    /// The view of a container in this state that has these members.
    fn view_of(
        &self,
        alloc: Global,
        container: u64,
        state: State,
        dns: [u8; 3],
        old: &[u64],
    ) -> Result<View, OutOfMemory>
        requires old { AreOldDeletions O.opening container old.now }
        requires state { state_told O.opening self.now.scm.mine container ≡ Some state }
        requires members { members O.opening self.now.scm.mine container ≡ dns }
        requires known { All (λ dn. dn < length O.opening.nodes) dns }
        ensures rising { IfOk result AreRising }
        ensures view { (story : Items AnyEvent) → AreShown D.Disk O.Opened story self.now →
            IfOk result (IsSeenAs O.opening story container) }
    {
        the_scm_alone_tells::<O>();
        self.has_its_log();
        self.is_kept();
        let [one, two, three] = dns;
        let first = self.member(alloc, container, one)?;
        let second = self.member(alloc, container, two)?;
        let third = self.member(alloc, container, three)?;
        let mut logged = Vec::new(alloc);
        self.push_logged(container, old, first.held.items(), &mut logged)?;
        self.push_logged(container, old, second.held.items(), &mut logged)?;
        self.push_logged(container, old, third.held.items(), &mut logged)?;
        let logged = risen(logged)?;
        Ok(View {
            state,
            members: dns,
            up: [first.up, second.up, third.up],
            closed: [first.closed, second.closed, third.closed],
            held: [first.held, second.held, third.held],
            logged,
        })
    }

    /// What holds of the storage container manager. It does nothing when it runs.
    fn has_its_log(&self)
        ensures { IsKept O.opening (O.faults ScmNode) self.now.scm.scm (D.faults self.now.scm.scm.disk) self.now.scm.seen self.now.scm.mine }
    {
        self.scm.is_kept();
    }

    /// What the datanode with this number has of the container.
    fn member(&self, alloc: Global, container: u64, dn: u8) -> Result<Member, OutOfMemory>
        requires { dn < length O.opening.nodes }
        ensures { IfOk result (λ it. IsMember self.now container dn it.up it.closed it.held) }
    {
        let node = &self.nodes[usize::from(dn)].node;
        let held = node.blocks(alloc, container)?;
        Ok(Member {
            up: self.scm.is_up(dn),
            closed: is_closed(node.state(container)),
            held: List::of(held),
        })
    }

    /// Adds those of the blocks that a member holds which are to be deleted.
    fn push_logged(
        &self,
        container: u64,
        old: &[u64],
        held: &[u64],
        logged: &mut Vec<u64>,
    ) -> Result<(), OutOfMemory>
        ensures { OnOk result ((local : ℕ) → Contains logged.new.items local ↔ (Contains logged.old.items local
            ⊎ (Contains held.now local × IsToGo (log_of self.now.scm.scm.made) old.now container local))) }
    {
        for local in held {
            self.push_if_to_go(container, old, *local, logged)?;
        }
        Ok(())
    }

    fn push_if_to_go(
        &self,
        container: u64,
        old: &[u64],
        local: u64,
        logged: &mut Vec<u64>,
    ) -> Result<(), OutOfMemory>
        ensures { OnOk result ((other : ℕ) → Contains logged.new.items other ↔ (Contains logged.old.items other
            ⊎ ((other ≡ local) × IsToGo (log_of self.now.scm.scm.made) old.now container local))) }
    {
        if self.is_to_go(container, old, local) {
            logged.push(local)?;
        }
        Ok(())
    }

    fn is_to_go(&self, container: u64, old: &[u64], local: u64) -> bool
        ensures { IsTrue result ↔ IsToGo (log_of self.now.scm.scm.made) old.now container local }
    {
        self.scm.names(Block { container, local }) || old.contains(&local)
    }
}

fn is_closed(replica: State) -> bool
    ensures { result ≡ not (is_open replica) }
{
    !matches!(replica, State::Open)
}

/// The local ids in order, each once.
fn risen(locals: Vec<u64>) -> Result<List<u64>, OutOfMemory>
    ensures same { IfOk result (λ risen. (local : ℕ) → Contains risen local ↔ Contains locals.items local) }
    ensures rising { IfOk result IsStrictlyIncreasing }
{
    let mut risen = locals;
    risen.sort()?;
    risen.dedup();
    Ok(List::of(risen))
}
