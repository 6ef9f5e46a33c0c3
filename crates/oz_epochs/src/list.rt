//! The list of epochs: entries in the order of their epochs, each at a place of its own.

ghost use Rattle.std.specs.Prelude.{◌≡◌, ◌+◌, ◌<◌, ◌≤◌, [], ◌∷◌, ◌++◌, if◌then◌else◌};
ghost use Rattle.std.specs.Prelude.{is_some, IsSome, MatchOption, OnOk, OnErr, IsOk, None, Some};
ghost use Rattle.oz_epochs.specs.Epochs.{entry, found, without, first, first_by, behind, IsAway, EndsBy, AreInOrder};

use crate::OutOfMemory;
use crate::block::Block;
use crate::node::{Linked, Node, fill_spare, link_next, link_prev};
use crate::steps::Steps;
use std::alloc::Global;
use std::marker::Model;
use std::sync::ledger::Ledger;

/// Where an entry stands. It stays there until it is taken out, also when the list grows.
#[derive(Clone, Copy, Debug, PartialEq, Eq)]
pub struct Place {
    pub slot: usize,
}

/// Epochs with a key each, in the order in which they were put in.
#[derive(Drop)]
pub struct EpochList<K> {
    nodes: Block<Node<K>>,
    front: Option<usize>,
    back: Option<usize>,
    spare_front: Option<usize>,
    spare: usize,
}

impl<K> Model for EpochList<K> {
    ghost use Rattle.oz_epochs.specs.Epochs.{Epochs};
    ghost use Rattle.oz_epochs.specs.Nodes.{IsLinked, entries_of};

    ghost Value = { Epochs K };

    ghost view = { λ l. record { entries = entries_of l.nodes.items l.front l.spare; spare = l.spare } };

    ghost invariant = { λ l. IsLinked l.nodes.items l.front l.back l.spare_front l.spare
        (entries_of l.nodes.items l.front l.spare) };
}

impl<K> EpochList<K> {
    /// A list without entries, which takes no memory.
    pub fn new(alloc: Global) -> EpochList<K>
        ensures entries { result.entries ≡ [] }
        ensures spare { result.spare ≡ 0 }
    {
        EpochList {
            nodes: Block::new(alloc),
            front: None,
            back: None,
            spare_front: None,
            spare: 0,
        }
    }

    /// Makes room for so many more entries, and takes memory only where there is less. It is the one
    /// call that takes any. The entries keep their places. After an error the list is as before.
    pub fn reserve(&mut self, alloc: Global, more: usize) -> Result<(), OutOfMemory>
        ensures room { OnOk result (more ≤ self.new.spare) }
        ensures there { more ≤ self.old.spare → IsOk result }
        ensures entries { self.new.entries ≡ self.old.entries }
        ensures spare { self.old.spare ≤ self.new.spare }
        ensures refused { OnErr result (self.new ≡ self.old) }
    {
        if more <= self.spare {
            return Ok(());
        }
        self.nodes.grow(alloc, more - self.spare)?;
        self.spare += self.nodes.capacity() - self.nodes.len();
        self.spare_front = fill_spare(&mut self.nodes, self.spare_front);
        Ok(())
    }

    /// Puts an entry at the end, and says where it stands.
    pub fn push_back(&mut self, epoch: u64, key: K) -> Place
        requires room { 1 ≤ self.old.spare }
        requires order { EndsBy epoch self.old.entries }
        ensures entries { self.new.entries ≡ self.old.entries ++ entry result.slot epoch key ∷ [] }
        ensures spare { self.new.spare + 1 ≡ self.old.spare }
        ensures own_slot { IsAway result.slot self.old.entries }
        ensures order { AreInOrder self.new.entries }
    {
        let Some(slot) = self.spare_front else {
            unreachable!()
        };
        let prev = self.back;
        let place = Place { slot };
        let node = Node::Used(Linked {
            prev,
            next: None,
            epoch,
            key,
        });
        match self.nodes.replace(slot, node) {
            Node::Spare(next) => self.spare_front = next,
            Node::Used(_) => unreachable!(),
        }
        self.spare -= 1;
        link_next(&mut self.nodes, &mut self.front, prev, Some(slot));
        self.back = Some(slot);
        place
    }

    /// Takes out the entry at a place.
    pub fn remove(&mut self, place: Place) -> (u64, K)
        requires { IsSome (found place.slot self.old.entries) }
        ensures entry { found place.slot self.old.entries ≡ Some result }
        ensures rest { self.new.entries ≡ without place.slot self.old.entries }
        ensures spare { self.new.spare ≡ self.old.spare + 1 }
        ensures order { AreInOrder self.new.entries }
    {
        let spare = Node::Spare(self.spare_front);
        let Node::Used(node) = self.nodes.replace(place.slot, spare) else {
            unreachable!()
        };
        self.spare_front = Some(place.slot);
        self.spare += 1;
        link_next(&mut self.nodes, &mut self.front, node.prev, node.next);
        link_prev(&mut self.nodes, &mut self.back, node.prev, node.next);
        (node.epoch, node.key)
    }

    /// Takes out the front, unless its epoch is above the one given. It is one step.
    pub fn pop_to<L: Ledger>(&mut self, epoch: u64, steps: &mut Steps<L>) -> Option<(u64, K)>
        ensures front { result ≡ first_by epoch self.old.entries }
        ensures rest { self.new.entries ≡ (if is_some result then behind self.old.entries else self.old.entries) }
        ensures spare { self.new.spare ≡ (if is_some result then self.old.spare + 1 else self.old.spare) }
        ensures order { AreInOrder self.new.entries }
        ensures step { steps.new ≡ steps.old + 1 }
    {
        steps.count();
        let (slot, node) = self.front_node()?;
        if node.epoch > epoch {
            return None;
        }
        Some(self.remove(Place { slot }))
    }

    /// The epoch and the key at the front.
    pub fn front(&self) -> Option<(u64, &K)>
        ensures front { MatchOption result (self.now.entries ≡ []) (λ r. first self.now.entries ≡ Some (r.0, r.1.now)) }
        ensures order { AreInOrder self.now.entries }
    {
        let (_, node) = self.front_node()?;
        Some((node.epoch, &node.key))
    }

    fn front_node(&self) -> Option<(usize, &Linked<K>)>
        ensures front { MatchOption result (self.now.entries ≡ [])
            (λ r. self.now.entries ≡ entry r.0 r.1.now.epoch r.1.now.key ∷ behind self.now.entries) }
        ensures order { AreInOrder self.now.entries }
    {
        let slot = self.front?;
        match self.nodes.get(slot) {
            Node::Used(node) => Some((slot, node)),
            Node::Spare(_) => unreachable!(),
        }
    }
}
