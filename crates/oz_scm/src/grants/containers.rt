//! The containers that were made, in memory, and the next ids.

ghost use Rattle.std.specs.Prelude.{◌≡◌, ◌⊎◌, ◌↔◌, ◌<◌, ◌≤◌, ◌+◌, ◌^◌, ℕ, [], length, IsTrue, OnOk, OnErr, IfOk, IfSome, IfNone};
ghost use Rattle.std.specs.Prelude.{filter, nat_eq, nat_lt, not, map, suc, ◌==◌, if◌then◌else◌};
ghost use Rattle.std.specs.List.{range_with_len};
ghost use Rattle.oz_container.specs.declared.state.State.TheVariants.{Open};
ghost use Rattle.oz_nodes.specs.Pipelines.{pipelines_of};
ghost use Rattle.oz_scm.specs.declared.grants.limits.TheConstants.{GRANTED_IDS as ids, MOST_GRANTED as most};
ghost use Rattle.oz_fields.specs.declared.block.TheConstants.{GREATEST_BLOCK_NUMBER as greatest};
ghost use Rattle.oz_scm.specs.grants.Counts.{AreCounts, count_in, place_of as place_in_order};
ghost use Rattle.oz_scm.specs.grants.Due.{MayTake, IsChosen, HasRoom};
ghost use Rattle.oz_scm.specs.grants.Made.{Made, begun, container_at, next_number, after_grant, with_container, granted_in};
ghost use Rattle.oz_scm.specs.grants.Made.{MayGrant, MayStep, is_old_or_next, after_step, may_log};
ghost use Rattle.oz_scm.specs.grants.Made.{is_next_txn, is_made, is_local_count};
ghost use Rattle.oz_scm.specs.grants.Made.{stepped as after_event, is_unretired, may_ack, is_member, log_of};
ghost use Rattle.oz_scm.specs.grants.Made.{MayLog, MayAck, MayRetire, after_log, after_ack, after_retirement};
ghost use Rattle.oz_dellog.specs.Log.{IsLogged, is_done, pending};
ghost use Rattle.oz_dellog.specs.declared.logged.Logged.{Logged as AnyLogged};
ghost use Rattle.std.specs.FinMap.{entries};
ghost use Rattle.std.specs.Map.Iter.{ShowsInOrder, deref_pair};
ghost use Rattle.oz_dellog.specs.Logged.{acknowledgement_count};
ghost use Rattle.oz_scm.specs.grants.Log.{AreCounted};
ghost use Rattle.oz_scm.specs.grants.Steps.{IsLowestOf, IsLowered, IsSound, WasLogged};
ghost use Rattle.oz_nodes.specs.declared.nodes.TheConstants.{FEWEST_NODES as fewest, MOST_NODES as most_nodes};

use crate::grants::container::Container;
use crate::grants::entry::Grant;
use crate::grants::limits::{FIRST_ID, GRANTED_IDS, MOST_GRANTED};
use oz_container::{Event, State};
use oz_dellog::{DelLog, Logged, MOST_LOCALS, Txn};
use oz_fields::{Block, GREATEST_BLOCK_NUMBER, OutOfMemory};
use oz_nodes::{FEWEST_NODES, Nodes};
use std::alloc::Global;
use std::collections::btree_map::Iter;
use std::marker::Model;

/// What grants and steps made. Beside the containers it lists those that are open with room for a grant, so that choosing one
/// looks at no others.
#[derive(Drop)]
pub struct Containers {
    node_count: u8,
    list: Vec<Container>,
    next: u64,
    roomy: Vec<u64>,
    log: DelLog,
}

impl Model for Containers {
    ghost use Rattle.std.specs.Prelude.{◌-◌, min, vec_len, vec_capacity};
    ghost use Rattle.oz_scm.specs.grants.Codes.{coded_view};
    ghost use Rattle.oz_scm.specs.grants.Steps.{View, IsSound, IsListed, made_of};

    ghost Value = { View };

    ghost coded = { coded_view };

    ghost view = { λ c. record {
      made = made_of c.log c.node_count c.next c.list.items;
      spare = min (vec_capacity c.list - vec_len c.list) (vec_capacity c.roomy - vec_len c.roomy);
    } };

    ghost invariant = { λ c. IsSound
        (made_of c.log c.node_count c.next c.list.items)
        × IsListed c.list.items c.roomy.items };
}

impl Containers {
    /// No container yet, which takes no memory.
    pub fn new(alloc: Global, nodes: u8) -> Containers
        requires least { fewest ≤ nodes }
        requires most { nodes ≤ most_nodes }
        ensures { result.made ≡ begun nodes }
    {
        Containers {
            node_count: nodes,
            list: Vec::new(alloc),
            next: FIRST_ID,
            roomy: Vec::new(alloc),
            log: DelLog::new(alloc),
        }
    }

    /// How many datanodes there are.
    pub fn nodes(&self) -> u8
        ensures count { result ≡ self.now.made.nodes }
        ensures least { fewest ≤ result }
        ensures most { result ≤ most_nodes }
    {
        self.node_count
    }

    /// How many pipelines the datanodes make.
    pub fn pipelines(&self) -> u8
        ensures { result ≡ pipelines_of self.now.made.nodes }
    {
        if self.node_count == FEWEST_NODES {
            1
        } else {
            self.node_count
        }
    }

    /// The id of the next block that is granted.
    pub fn next_id(&self) -> u64
        ensures { result ≡ self.now.made.next_id }
    {
        self.next
    }

    /// The number of the next container that is made.
    pub fn next_number(&self) -> u64
        ensures { result ≡ next_number self.now.made.containers }
    {
        self.list.len() as u64 + 1
    }

    /// The container of a number, None where it wasn't made.
    pub fn get(&self, number: u64) -> Option<Container>
        ensures found { result ≡ container_at self.now.made.containers number }
        ensures pipeline { IfSome result (λ container. container.pipeline < pipelines_of self.now.made.nodes) }
    {
        if number == 0 {
            return None;
        }
        self.list.get(number as usize - 1).copied()
    }

    /// The containers with their numbers, in their order.
    pub fn all(&self, alloc: Global) -> Result<Vec<(u64, Container)>, OutOfMemory>
        ensures numbers { IfOk result (λ all.
            map (λ (one : ℕ × Container). one.0) all.items ≡ range_with_len 1 (length self.now.made.containers)) }
        ensures containers { IfOk result (λ all.
            map (λ (one : ℕ × Container). one.1) all.items ≡ self.now.made.containers) }
    {
        let mut all = Vec::with_capacity(alloc, self.list.len())?;
        for (place, container) in self.list.iter().enumerate() {
            all.push((place as u64 + 1, *container))?;
        }
        Ok(all)
    }

    /// How many there are in each state, in the order of the states; None where one of the counts passes a `u32`.
    pub fn counts(&self) -> Option<[u32; 6]>
        ensures { AreCounts self.now.made.containers result }
    {
        Some([
            self.count(State::Open)?,
            self.count(State::Closing)?,
            self.count(State::QuasiClosed)?,
            self.count(State::Closed)?,
            self.count(State::Deleting)?,
            self.count(State::Deleted)?,
        ])
    }

    /// How many there are in a state, None where that passes a `u32`.
    fn count(&self, state: State) -> Option<u32>
        ensures count { IfSome result (λ count. count ≡ count_in state self.now.made.containers) }
        ensures passes { IfNone result (2 ^ 32 ≤ count_in state self.now.made.containers) }
    {
        let mut count: u64 = 0;
        for (at, container) in self.list.iter().enumerate() {
            count = and_one_in(count, container.state, state);
        }
        u32::try_from(count).ok()
    }

    /// The container in which ids are granted on a pipeline.
    pub fn choose(&self, pipeline: u8, excluded: &[u64]) -> u64
        ensures { IsChosen self.now.made.containers pipeline excluded.now result }
    {
        match self.lowest(pipeline, excluded) {
            Some(number) => number,
            None => self.next_number(),
        }
    }

    /// The lowest container that may take a grant.
    fn lowest(&self, pipeline: u8, excluded: &[u64]) -> Option<u64>
        ensures found { IfSome result (λ number. MayTake self.now.made.containers pipeline excluded.now number
            × ((lower : ℕ) → lower < number → ¬ MayTake self.now.made.containers pipeline excluded.now lower)) }
        ensures none { IfNone result ((any : ℕ) → ¬ MayTake self.now.made.containers pipeline excluded.now any) }
    {
        self.lowest_of(&self.roomy, pipeline, excluded)
    }

    fn lowest_of(&self, numbers: &[u64], pipeline: u8, excluded: &[u64]) -> Option<u64>
        ensures { IsLowestOf (MayTake self.now.made.containers pipeline excluded.now) numbers.now result }
    {
        let mut lowest = None;
        for (place, number) in numbers.iter().enumerate() {
            lowest = self.lower(lowest, *number, pipeline, excluded);
        }
        lowest
    }

    /// The lowest so far and one more.
    fn lower(&self, lowest: Option<u64>, number: u64, pipeline: u8, excluded: &[u64]) -> Option<u64>
        ensures { IsLowered (MayTake self.now.made.containers pipeline excluded.now) lowest number result }
    {
        if !self.may_take(number, pipeline, excluded) {
            return lowest;
        }
        match lowest {
            Some(lowest) if lowest < number => Some(lowest),
            _ => Some(number),
        }
    }

    fn may_take(&self, number: u64, pipeline: u8, excluded: &[u64]) -> bool
        ensures { IsTrue result ↔ MayTake self.now.made.containers pipeline excluded.now number }
    {
        let Some(container) = self.get(number) else {
            return false;
        };
        if container.pipeline != pipeline {
            return false;
        }
        if !has_room(container) {
            return false;
        }
        !excluded.contains(&number)
    }

    /// Makes room for one container more. It stands for the same.
    pub fn reserve(&mut self, _alloc: Global) -> Result<(), OutOfMemory>
        ensures room { OnOk result (1 ≤ self.new.spare) }
        ensures same { self.new.made ≡ self.old.made }
    {
        self.list.reserve(1)?;
        self.roomy.reserve(1)
    }

    /// Grants ids, without taking memory.
    pub fn grant(&mut self, grant: &Grant)
        requires room { 1 ≤ self.old.spare }
        requires next { MayGrant self.old.made grant.now }
        ensures { self.new.made ≡ after_grant grant.now self.old.made }
    {
        let old = self.get(grant.container);
        let container = granted(old, grant);
        self.next = grant.first + grant.count as u64;
        match old {
            Some(_) => {
                self.list[grant.container as usize - 1] = container;
                if !has_room(container) {
                    forget(&mut self.roomy, grant.container);
                }
            }
            None => {
                self.list.push(container).unwrap();
                self.roomy.push(grant.container).unwrap();
            }
        }
    }

    /// Leads a container on to another state, without taking memory. It is listed no more, since no event leads to an
    /// open one.
    pub fn step(&mut self, number: u64, event: Event)
        requires { MayStep self.old.made number event }
        ensures { self.new.made ≡ after_step number event self.old.made }
    {
        let Some(container) = stepped(self.get(number), event) else {
            unreachable!()
        };
        self.list[number as usize - 1] = container;
        forget(&mut self.roomy, number);
    }

    /// The number of the last transaction that was logged, 0 for none.
    pub fn last_txn(&self) -> u64
        ensures { result ≡ self.now.made.last_txn }
    {
        self.log.last()
    }

    /// What was logged and isn't retired, in the order of the numbers.
    pub fn unretired(&self) -> Iter<'_, u64, Logged>
        ensures rest { result ≡ entries self.now.made.unretired }
        ensures runs { ShowsInOrder (deref_pair {K = ℕ} {X = AnyLogged}) }
    {
        self.log.unretired()
    }

    /// The transactions of a container that a datanode hasn't acknowledged, in the order of their numbers.
    pub fn pending(&self, alloc: Global, container: u64, dn: u8) -> Result<Vec<Txn>, OutOfMemory>
        ensures { IfOk result (λ txns. txns.items ≡ pending (log_of self.now.made) container dn) }
    {
        self.log.pending(alloc, container, dn)
    }

    /// Whether a transaction that isn't retired names the block.
    pub fn logged(&self, block: Block) -> bool
        ensures { IsTrue result ↔ IsLogged (log_of self.now.made) block }
    {
        self.log.logged(block)
    }

    /// Each transaction has as many ids as it may have. It does nothing when it runs.
    pub fn are_counted(&self)
        ensures { AreCounted self.now.made }
    {
        let _last = self.log.last();
    }

    /// Whether a transaction is there.
    pub fn is_unretired(&self, number: u64) -> bool
        ensures { result ≡ is_unretired self.now.made number }
    {
        self.log.get(number).is_some()
    }

    /// Whether a transaction may be logged next: it has the next number, its container was made, and it has as many ids as it
    /// may have.
    pub fn may_log(&self, txn: &Txn) -> bool
        ensures { result ≡ may_log self.now.made txn.now }
    {
        self.is_next_txn(txn.number)
            && self.is_made(txn.container)
            && is_local_count(txn.locals.items())
    }

    fn is_next_txn(&self, number: u64) -> bool
        ensures { result ≡ is_next_txn self.now.made.last_txn number }
    {
        number >= 1 && number - 1 == self.log.last()
    }

    fn is_made(&self, number: u64) -> bool
        ensures { result ≡ is_made self.now.made.containers number }
    {
        number >= 1 && number < self.next_number()
    }

    /// Whether a datanode owes a transaction's acknowledgement: it has the container's replicas, and hasn't given one.
    pub fn may_ack(&self, number: u64, dn: u8) -> bool
        ensures { result ≡ may_ack self.now.made number dn }
    {
        match self.log.get(number) {
            Some(logged) => {
                self.is_member(logged.container, dn) && !logged.acknowledged[dn as usize]
            }
            None => false,
        }
    }

    /// Whether a datanode has a container's replicas.
    fn is_member(&self, number: u64, dn: u8) -> bool
        ensures { result ≡ is_member self.now.made.nodes (container_at self.now.made.containers number) dn }
    {
        match self.get(number) {
            Some(container) => {
                let [one, two, three] = Nodes::new(self.nodes()).members(container.pipeline);
                one == dn || two == dn || three == dn
            }
            None => false,
        }
    }

    /// Whether a transaction is there that three datanodes acknowledged.
    pub fn may_retire(&self, number: u64) -> bool
        ensures { result ≡ is_done (log_of self.now.made) number }
    {
        match self.log.get(number) {
            Some(logged) => acknowledgements(logged) >= 3,
            None => false,
        }
    }

    /// Logs a transaction. Want of memory leaves what there was.
    pub fn log_txn(&mut self, alloc: Global, txn: Txn) -> Result<(), OutOfMemory>
        requires { MayLog self.old.made txn }
        ensures logged { OnOk result (self.new.made ≡ after_log txn self.old.made) }
        ensures was { OnOk result (WasLogged self.old.made self.new.made) }
        ensures same { OnErr result (self.new.made ≡ self.old.made) }
    {
        match self.log.add(alloc, txn.container, txn.locals) {
            Ok(_number) => Ok(()),
            Err((_, fault)) => Err(fault),
        }
    }

    /// Takes back what was logged last, without taking memory.
    pub fn unlog(&mut self)
        requires { (before : Made) × WasLogged before self.old.made }
        ensures { (before : Made) → WasLogged before self.old.made → self.new.made ≡ before }
    {
        self.log.take_back();
    }

    /// Notes an acknowledgement, without taking memory.
    pub fn ack(&mut self, number: u64, dn: u8)
        requires { MayAck self.old.made number dn }
        ensures { self.new.made ≡ after_ack number dn self.old.made }
    {
        self.log.ack(number, dn);
    }

    /// Forgets a transaction that was acknowledged, without taking memory.
    pub fn retire(&mut self, number: u64)
        requires { MayRetire self.old.made number }
        ensures { self.new.made ≡ after_retirement number self.old.made }
    {
        self.log.retire(number);
    }
}

fn is_local_count(locals: &[u64]) -> bool
    ensures { result ≡ is_local_count (length locals.now) }
{
    let count = locals.len();
    count >= 1 && count <= MOST_LOCALS
}

/// How many datanodes acknowledged a transaction.
fn acknowledgements(logged: &Logged) -> usize
    ensures { result ≡ acknowledgement_count logged.now }
{
    logged.acknowledged.iter().filter(|flag| **flag).count()
}

/// A container after an event, None where it isn't there, and where its state doesn't allow the event.
pub(crate) fn stepped(container: Option<Container>, event: Event) -> Option<Container>
    ensures { result ≡ after_event container event }
{
    let Some(container) = container else {
        return None;
    };
    match oz_container::event(container.state, event) {
        Ok(state) => Some(Container { state, ..container }),
        Err(_) => None,
    }
}

/// A container after a grant, which makes it where it isn't there.
fn granted(container: Option<Container>, grant: &Grant) -> Container
    requires { IfSome container (λ container. container.granted < greatest) }
    ensures { result ≡ granted_in container grant.now.pipeline grant.now.count }
{
    match container {
        Some(container) => Container {
            granted: container.granted + grant.count as u64,
            ..container
        },
        None => Container {
            pipeline: grant.pipeline,
            state: State::Open,
            granted: grant.count as u64,
        },
    }
}

/// One more, where a container is in the state that is counted.
fn and_one_in(count: u64, is: State, counted: State) -> u64
    requires { count + 1 < 2 ^ 64 }
    ensures { result ≡ (if place_in_order is == place_in_order counted then suc count else count) }
{
    if place_of(is) == place_of(counted) {
        count + 1
    } else {
        count
    }
}

fn place_of(state: State) -> u8
    ensures { result ≡ place_in_order state }
{
    match state {
        State::Open => 0,
        State::Closing => 1,
        State::QuasiClosed => 2,
        State::Closed => 3,
        State::Deleting => 4,
        State::Deleted => 5,
    }
}

fn has_room(container: Container) -> bool
    ensures { IsTrue result ↔ ((container.state ≡ Open) × (container.granted ≤ most)) }
{
    match container.state {
        State::Open => container.granted <= MOST_GRANTED,
        State::Closing | State::QuasiClosed | State::Closed | State::Deleting | State::Deleted =>
            false,
    }
}

fn forget(numbers: &mut Vec<u64>, number: u64)
    ensures { numbers.new.items ≡ filter (λ other. not (nat_eq other number)) numbers.old.items }
{
    numbers.retain(|other| *other != number);
}

/// Whether no more ids can be granted from this one on.
pub fn are_ids_spent(next: u64) -> bool
    ensures { result ≡ nat_lt greatest (next + ids) }
{
    next > GREATEST_BLOCK_NUMBER - GRANTED_IDS as u64
}
