//! The nodes of a list, and how their links change.

ghost use Rattle.std.specs.Prelude.{◌≡◌, ◌+◌, ◌-◌, ◌≤◌, ℕ, length, is_some, if◌then◌else◌, IfSome};
ghost use Rattle.oz_epochs.specs.Links.{IsUsed, with_next, with_prev};
ghost use Rattle.oz_epochs.specs.Nodes.{HasSpare, Keeps};

use crate::block::Block;

/// An item of the block: a node of the list, or a spare one with the next that is spare.
#[derive(Drop)]
pub enum Node<K> {
    Used(Linked<K>),
    Spare(Option<usize>),
}

/// An epoch and a key, with the slots of the neighbours.
#[derive(Drop)]
pub struct Linked<K> {
    pub(crate) prev: Option<usize>,
    pub(crate) next: Option<usize>,
    pub(crate) epoch: u64,
    pub(crate) key: K,
}

/// Links the node at `prev`, or the front where there is none, to `next`.
pub(crate) fn link_next<K>(
    nodes: &mut Block<Node<K>>,
    front: &mut Option<usize>,
    prev: Option<usize>,
    next: Option<usize>,
)
    requires { IfSome prev (IsUsed nodes.old.items) }
    ensures nodes { nodes.new.items ≡ with_next nodes.old.items prev next }
    ensures front { front.new ≡ (if is_some prev then front.old else next) }
{
    match prev {
        Some(slot) => match nodes.get_mut(slot) {
            Node::Used(node) => node.next = next,
            Node::Spare(_) => unreachable!(),
        },
        None => *front = next,
    }
}

/// Links the node at `next`, or the back where there is none, to `prev`.
pub(crate) fn link_prev<K>(
    nodes: &mut Block<Node<K>>,
    back: &mut Option<usize>,
    prev: Option<usize>,
    next: Option<usize>,
)
    requires { IfSome next (IsUsed nodes.old.items) }
    ensures nodes { nodes.new.items ≡ with_prev nodes.old.items next prev }
    ensures back { back.new ≡ (if is_some next then back.old else prev) }
{
    match next {
        Some(slot) => match nodes.get_mut(slot) {
            Node::Used(node) => node.prev = prev,
            Node::Spare(_) => unreachable!(),
        },
        None => *back = prev,
    }
}

/// Fills all room that is left with spare nodes, and gives the first of them.
pub(crate) fn fill_spare<K>(nodes: &mut Block<Node<K>>, spare_front: Option<usize>) -> Option<usize>
    ensures full { length nodes.new.items ≡ nodes.old.capacity }
    ensures kept { Keeps nodes.old.items nodes.new.items }
    ensures spare { (spare : ℕ) → HasSpare nodes.old.items spare_front spare →
        HasSpare nodes.new.items result (spare + (nodes.old.capacity - length nodes.old.items)) }
{
    let mut spare_front = spare_front;
    for slot in nodes.len()..nodes.capacity() {
        nodes.push(Node::Spare(spare_front));
        spare_front = Some(slot);
    }
    spare_front
}
