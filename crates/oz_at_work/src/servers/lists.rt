//! The lists that datanodes and their seats came in.

ghost use Rattle.std.specs.Prelude.{◌≡◌, ◌≤◌, [], length, vec_capacity};

use oz_buffer::Opened;
use oz_core::Event;
use oz_datanode::Datanode;
use oz_turn::{Seat, Told};
use oz_world::Disk;
use std::marker::PhantomData;

/// The lists that the datanodes and their seats came in, empty, for when they leave. They are locked, since two threads may
/// not look at a datanode at once, nor at a list of them.
#[derive(Drop)]
pub(crate) struct EmptyLists<D: Disk, T: Told<Entry = Event>, O: Opened> {
    pub(crate) nodes: Vec<Datanode<D>>,
    pub(crate) seats: Vec<Seat<T>>,
    pub(crate) of: PhantomData<O>,
    pub(crate) ghost no_nodes: { nodes.items ≡ [] },
    pub(crate) ghost no_seats: { seats.items ≡ [] },
    pub(crate) ghost node_room: { length O.opening.nodes ≤ vec_capacity nodes },
    pub(crate) ghost seat_room: { length O.opening.nodes ≤ vec_capacity seats },
}
