//! One stripe: its rows, and the seat whose Decides they are.

ghost use Rattle.std.specs.Prelude.{
  ◌≡◌,
  ℕ,
  ◌+◌,
  ◌<◌,
  ◌≤◌,
  List as AnyList,
  [],
  ◌∷◌,
  ◌++◌,
  length,
  map,
  take,
  drop,
  true,
  All,
  Any,
  None,
  Some,
  IsSome,
  IfOk,
  IfSome,
  OnOk,
  OnErr,
  MatchOption,
};
ghost use Rattle.std.specs.List.{AllByRecursion};
ghost use Rattle.oz_cache.specs.Cache.{batch_of, batched_changes, last_epoch, later, newest, up_to};
ghost use Rattle.oz_core.specs.Grants.{IsExcluded};
ghost use Rattle.oz_core.specs.Seats.{stripe_seat};
ghost use Rattle.oz_core.specs.declared.event.Event.{Event as AnyEvent};
ghost use Rattle.oz_effects.specs.Batches.{IsBatchOf};
ghost use Rattle.oz_locks.specs.Decides.{AddsDecide, AddsPurgeAsk};
ghost use Rattle.oz_locks.specs.Flushes.{flushed_in};
ghost use Rattle.oz_locks.specs.Pins.{pinned_blocks as all_pinned, untold};
ghost use Rattle.oz_locks.specs.Pool.{AreFresh, GrantFits, IsFirstAllowed, pool_of, without};
ghost use Rattle.oz_locks.specs.Purges.{AreAskedWhole, HaveWholeRows};
ghost use Rattle.oz_locks.specs.Reclaims.{AreFound, AreReady};
ghost use Rattle.oz_locks.specs.declared.pool.FreeBlock.{FreeBlock as AnyBlock};
ghost use Rattle.oz_locks.specs.Stripe.{IsKept, IsAtRest};
ghost use Rattle.oz_locks.specs.Rows.{AreReplayed};
ghost use Rattle.oz_locks.specs.Writes.{writes_of};
ghost use Rattle.oz_reclaim.specs.Origins.{SnapshotKeysStay};
ghost use Rattle.oz_reclaim.specs.Work.{IsChainWork};
ghost use Rattle.oz_reclaim.specs.sweep.Found.{keyed};
ghost use Rattle.oz_reclaim.specs.sweep.Swept.{IsSwept};
ghost use Rattle.oz_reclaim.specs.sweep.View.{date_of};
ghost use Rattle.oz_names.specs.declared.limits.TheConstants.{STRIPES};
ghost use Rattle.oz_rows.specs.Counts.{AllRise};
ghost use Rattle.oz_rows.specs.RowMaps.{Rows, after_changes, row_of, row_after};
ghost use Rattle.oz_rows.specs.declared.key.RowKey.{RowKey as AnyKey};
ghost use Rattle.oz_rows.specs.declared.operation.TheConstants.{END_OF_INDEXES};
ghost use Rattle.oz_sound.specs.stripes.Stripes.{only};
ghost use Rattle.oz_turn.specs.Seat.{IsReady, IsNewSeat, IsSameSeat};
ghost use Rattle.oz_turn.specs.Seat.{turn_of, number_of, mine_of, seen_of, room_of, taken_of};
ghost use Rattle.oz_turn.specs.Told.{own_entries, BeginsWith, KeepsOtherRooms};
ghost use Rattle.oz_turn.specs.Turn.{turn_id};

use crate::loaded::Loaded;
use crate::pins::{Pin, ToldLines, keep_untold, pin_all, pinned_blocks};
use crate::pool::{FreeBlock, add_granted, count_granted, first_allowed, withdraw};
use crate::reclaim::Reclaim;
use oz_cache::{Cached, Prepared};
use oz_core::Event;
use oz_epochs::Steps;
use oz_fields::{Block, OutOfMemory};
use oz_reclaim::{Found, MOST_PURGED, what_is_noted_may_change};
use oz_requests::{Exclude, Request};
use oz_rows::Change;
use oz_turn::{Held, Ring, Seat, Told, Turn};
use std::alloc::Global;
use std::marker::{Model, PhantomData};
use std::sync::Wait;
use std::sync::ledger::Ledger;

/// The rows of one stripe's volumes and its stripe row, the blocks that it may grant, those that lines work with, what is kept of
/// rows that may go, and the seat whose Decides the rows are.
#[derive(Drop)]
pub struct Stripe<T: Told<Entry = Event>, L: Loaded, R: Ring> {
    number: u8,
    cached: Cached,
    flushed: u64,
    pool: Vec<FreeBlock>,
    known: usize,
    pins: Vec<Pin>,
    reclaim: Reclaim,
    seat: Seat<T>,
    of: PhantomData<(L, R)>,
}

impl<T: Told<Entry = Event>, L: Loaded, R: Ring> Model for Stripe<T, L, R> {
    ghost use Rattle.std.specs.Prelude.{◌-◌, length, vec_capacity};
    ghost use Rattle.oz_locks.specs.Stripe.{StripeView, IsKept};
    ghost use Rattle.oz_locks.specs.Seats.{IsSeated, seen_as};

    ghost Value = { StripeView T };

    ghost view = { λ s. seen_as s.number s.cached s.flushed s.pool.items s.known s.pins.items
        (vec_capacity s.pins - length s.pins.items) s.reclaim s.seat };

    ghost invariant = { λ s. IsSeated R.turn s.number s.seat × IsKept L.rows L.last_index L.coherent
        (seen_as s.number s.cached s.flushed s.pool.items s.known s.pins.items
        (vec_capacity s.pins - length s.pins.items) s.reclaim s.seat) };
}

impl<T: Told<Entry = Event>, L: Loaded, R: Ring> Stripe<T, L, R> {
    /// A stripe that has decided nothing yet. It takes no memory.
    pub fn make(alloc: Global, number: u8, cached: Cached, seat: Seat<T>) -> Stripe<T, L, R>
        requires number { number < STRIPES }
        requires seat { IsNewSeat R.turn (stripe_seat number) seat }
        requires rows { (key : AnyKey) → row_of cached.durable.rows key ≡ only number L.rows key }
        requires last_index { cached.durable.last_index ≡ L.last_index }
        requires entered { cached.entered ≡ [] }
        requires keeps { L.keeps number [] [] (newest cached) }
        ensures number { result.number ≡ number }
        ensures cache { result.cache ≡ cached }
        ensures empty { (result.pool ≡ []) × (result.known ≡ 0) × (result.pins ≡ []) }
        ensures events { (result.mine ≡ []) × (result.seen ≡ []) }
        ensures rests { IsAtRest L.last_index L.coherent L.keeps result }
    {
        let flushed = cached.last_epoch();
        Stripe {
            number,
            cached,
            flushed,
            pool: Vec::new(alloc),
            known: 0,
            pins: Vec::new(alloc),
            reclaim: Reclaim::new(alloc),
            seat,
            of: PhantomData,
        }
    }

    /// The rows and the seat. It takes no memory.
    pub fn into_parts(self) -> (Cached, Seat<T>)
        requires { self.taken ≡ None }
        ensures cached { result.0 ≡ self.cache }
        ensures ready { IsReady R.turn (stripe_seat self.number) result.1 }
        ensures events { (mine_of result.1 ≡ self.mine) × (seen_of result.1 ≡ self.seen) }
    {
        let Stripe {
            number: _,
            cached,
            flushed: _,
            pool: _,
            known: _,
            pins: _,
            reclaim: _,
            seat,
            of: _,
        } = self;
        (cached, seat)
    }

    /// What holds of every stripe; so its newest rows are its Decides replayed. It does nothing when it runs.
    pub fn is_kept(&self)
        ensures kept { IsKept L.rows L.last_index L.coherent self.now }
        ensures rows { AreReplayed (only self.now.number L.rows) (writes_of self.now.mine) (newest self.now.cache) }
    {
        let _number = &self.number;
    }

    pub fn number(&self) -> u8
        ensures { result ≡ self.now.number }
    {
        self.number
    }

    /// The rows, for who decides over them.
    pub fn cached(&self) -> &Cached
        ensures { result.now ≡ self.now.cache }
    {
        &self.cached
    }

    /// The index up to which rows were brought down into the tables.
    pub fn brought_down(&self) -> u64
        ensures { result ≡ self.now.flushed }
    {
        self.flushed
    }

    /// The blocks that lines work with.
    pub fn pins(&self) -> &[Pin]
        ensures { result.now ≡ self.now.pins }
    {
        self.pins.as_slice()
    }

    /// Takes all memory that these changes need. Where it runs out, the changes are gone.
    pub fn prepare(&mut self, alloc: Global, changes: Vec<Change>) -> Result<Prepared, OutOfMemory>
        ensures changes { IfOk result (λ prepared. prepared ≡ changes.items) }
        ensures room { OnOk result (length changes.items ≤ self.new.cache.spare) }
        ensures kept { self.old.cache.spare ≤ self.new.cache.spare }
        ensures rows { self.new.cache.durable.rows ≡ self.old.cache.durable.rows }
        ensures last_index { self.new.cache.durable.last_index ≡ self.old.cache.durable.last_index }
        ensures entered { self.new.cache.entered ≡ self.old.cache.entered }
        ensures ready { OnOk result (AreReady changes.items self.new.reclaim) }
        ensures same { self.new ≡ record self.old { cache = self.new.cache; reclaim = self.new.reclaim } }
    {
        self.reclaim.room(alloc, &changes)?;
        self.cached.prepare(alloc, changes)
    }

    /// Makes room for so many more pins.
    pub fn reserve_pins(&mut self, pins: usize) -> Result<(), OutOfMemory>
        ensures room { OnOk result (pins ≤ self.new.pin_room) }
        ensures kept { self.old.pin_room ≤ self.new.pin_room }
        ensures same { self.new ≡ record self.old { pin_room = self.new.pin_room } }
    {
        self.pins.reserve(pins)
    }

    /// Waits for the seat's turn.
    pub fn take<W: Wait>(&mut self, rt: &W, turn: &Turn<T>) -> (T, Held)
        requires turn { turn_id turn.now ≡ R.turn }
        requires free { self.old.taken ≡ None }
        ensures same { self.new ≡ record self.old { seen = T.entries result.0; taken = Some result.0 } }

        // The story goes on from what the seat had seen, and its own Decides in it are those that it gave.
        ensures begins { BeginsWith (T.entries result.0) self.old.seen }
        ensures own { own_entries T.seat_of (stripe_seat self.old.number) (T.entries result.0) ≡ self.old.mine }
        ensures room { T.room result.0 (stripe_seat self.old.number) ≡ self.old.room }
    {
        turn.take(rt, &mut self.seat)
    }

    /// While the stripe's seat has the value, another seat sees the story that it tells. The stripe stays as it was. It waits
    /// for nothing, and takes no memory.
    pub fn show(&mut self, turn: &Turn<T>, other: &mut Seat<T>)
        requires turn { turn_id turn.now ≡ R.turn }
        requires other_turn { turn_of other.old ≡ R.turn }
        requires held { IsSome self.old.taken }
        requires free { taken_of other.old ≡ None }
        ensures stripe { self.new ≡ self.old }

        // The other seat has seen what the stripe's has, and its entries in it are those that it gave.
        ensures other { IsSameSeat other.old other.new }
        ensures other_free { taken_of other.new ≡ None }
        ensures begins { BeginsWith (seen_of other.new) (seen_of other.old) }
        ensures seen { seen_of other.new ≡ self.new.seen }
        ensures mine { mine_of other.new ≡ mine_of other.old }
        ensures own { own_entries T.seat_of (number_of other.new) (seen_of other.new) ≡ mine_of other.new }
        ensures room { room_of other.new ≡ room_of other.old }
    {
        turn.show(&mut self.seat, other);
    }

    /// Gives the value back with the story that it had.
    pub fn give_back(&mut self, turn: &Turn<T>, value: T, held: Held)
        requires turn { turn_id turn.now ≡ R.turn }
        requires story { T.entries value ≡ self.old.seen }
        requires rooms { KeepsOtherRooms T.room (stripe_seat self.old.number) self.old.taken value }
        ensures { self.new ≡ record self.old { room = T.room value (stripe_seat self.old.number); taken = None } }
    {
        turn.give_back(&mut self.seat, value, held);
    }

    /// Gives the value back with a Decide of the stripe that changes no rows, and pins what it named.
    pub fn note(&mut self, turn: &Turn<T>, value: T, held: Held, pins: &[Pin]) -> u64
        requires turn { turn_id turn.now ≡ R.turn }
        requires tells_seats { (event : AnyEvent) → T.seat_of event ≡ event.seat }
        requires decides { (index : ℕ) × AddsDecide self.old (T.entries value) index [] None pins.now }
        requires rooms { KeepsOtherRooms T.room (stripe_seat self.old.number) self.old.taken value }
        requires pins { length pins.now ≤ self.old.pin_room }
        ensures length { result ≡ length (T.entries value) }
        ensures mine { (event : AnyEvent) → T.entries value ≡ self.old.seen ++ event ∷ []
            → self.new.mine ≡ self.old.mine ++ event ∷ [] }
        ensures flushed { flushed_in L.last_index self.new.seen ≡ flushed_in L.last_index self.old.seen }
        ensures pinned { self.old.pin_room ≤ self.new.pin_room + length pins.now }
        ensures same { self.new ≡ record self.old {
          pins = self.old.pins ++ pins.now;
          pin_room = self.new.pin_room;
          mine = self.new.mine;
          seen = T.entries value;
          room = T.room value (stripe_seat self.old.number);
          taken = None;
        } }
    {
        pin_all(&mut self.pins, pins);
        turn.give(&mut self.seat, value, held)
    }

    /// Gives the value back with a Decide of the stripe, and enters the changes of its batch, which were prepared last. The block
    /// that it granted leaves the pool, and what it named is pinned. It takes no memory.
    pub fn enter(
        &mut self,
        turn: &Turn<T>,
        value: T,
        held: Held,
        index: u64,
        changes: Prepared,
        granted: Option<Block>,
        pins: &[Pin],
    ) -> u64
        requires turn { turn_id turn.now ≡ R.turn }
        requires tells_seats { (event : AnyEvent) → T.seat_of event ≡ event.seat }
        requires decides { (batch : AnyList ℕ) × AddsDecide self.old (T.entries value) index batch granted pins.now
            × (1 ≤ length batch) × IsBatchOf (newest self.old.cache) batch changes }
        requires rooms { KeepsOtherRooms T.room (stripe_seat self.old.number) self.old.taken value }
        requires above { last_epoch self.old.cache < index }
        requires unflushed { self.old.flushed < index }
        requires limit { index < END_OF_INDEXES }
        requires room { length changes ≤ self.old.cache.spare }
        requires pins { length pins.now ≤ self.old.pin_room }
        requires pooled { IfSome granted (λ block. Any (λ (free : AnyBlock). free.block ≡ block) self.old.pool) }
        requires asked { L.coherent → AreAskedWhole (after_changes changes (newest self.old.cache)) self.old.mine }
        requires ready { AreReady changes self.old.reclaim }
        requires tidy { L.coherent → SnapshotKeysStay changes }
        ensures length { result ≡ length (T.entries value) }
        ensures mine { (event : AnyEvent) → T.entries value ≡ self.old.seen ++ event ∷ []
            → self.new.mine ≡ self.old.mine ++ event ∷ [] }
        ensures flushed { flushed_in L.last_index self.new.seen ≡ flushed_in L.last_index self.old.seen }
        ensures entered { self.new.cache.entered ≡ self.old.cache.entered ++ batch_of index changes ∷ [] }
        ensures durable { self.new.cache.durable ≡ self.old.cache.durable }
        ensures newest { (key : AnyKey) → newest self.new.cache key ≡ row_after changes key (newest self.old.cache key) }
        ensures spare { self.old.cache.spare ≤ self.new.cache.spare + length changes }
        ensures pinned { self.old.pin_room ≤ self.new.pin_room + length pins.now }
        ensures same { self.new ≡ record self.old {
          cache = self.new.cache;
          pool = without granted self.old.pool;
          pins = self.old.pins ++ pins.now;
          pin_room = self.new.pin_room;
          reclaim = self.new.reclaim;
          mine = self.new.mine;
          seen = T.entries value;
          room = T.room value (stripe_seat self.old.number);
          taken = None;
        } }
    {
        self.cached.enter(index, changes);
        self.reclaim.sweep.enter(index);
        withdraw(&mut self.pool, granted);
        pin_all(&mut self.pins, pins);
        turn.give(&mut self.seat, value, held)
    }

    /// Gives the value back with a PurgeAsk of the stripe. Its blocks are those of whole rows.
    pub fn ask_purge(&mut self, turn: &Turn<T>, value: T, held: Held) -> u64
        requires turn { turn_id turn.now ≡ R.turn }
        requires tells_seats { (event : AnyEvent) → T.seat_of event ≡ event.seat }
        requires asks { (blocks : AnyList Block) × AddsPurgeAsk self.old (T.entries value) blocks
            × (L.coherent → HaveWholeRows (newest self.old.cache) blocks) }
        requires rooms { KeepsOtherRooms T.room (stripe_seat self.old.number) self.old.taken value }
        ensures length { result ≡ length (T.entries value) }
        ensures mine { (event : AnyEvent) → T.entries value ≡ self.old.seen ++ event ∷ []
            → self.new.mine ≡ self.old.mine ++ event ∷ [] }
        ensures flushed { flushed_in L.last_index self.new.seen ≡ flushed_in L.last_index self.old.seen }
        ensures same { self.new ≡ record self.old {
          mine = self.new.mine;
          seen = T.entries value;
          room = T.room value (stripe_seat self.old.number);
          taken = None;
        } }
    {
        turn.give(&mut self.seat, value, held)
    }

    /// Brings what is flushed down into the tables. It takes no memory.
    pub fn flushed<S: Ledger>(&mut self, index: u64, steps: &mut Steps<S>)
        requires index { index ≡ flushed_in L.last_index self.old.seen }
        requires rises { self.old.flushed ≤ index }
        ensures rows { (key : AnyKey) → row_of self.new.cache.durable.rows key
            ≡ row_after (batched_changes (up_to index self.old.cache.entered)) key (row_of self.old.cache.durable.rows key) }
        ensures entered { self.new.cache.entered ≡ later index self.old.cache.entered }
        ensures newest { (key : AnyKey) → newest self.new.cache key ≡ newest self.old.cache key }
        ensures spare { self.old.cache.spare ≤ self.new.cache.spare }
        ensures steps { steps.new + length self.new.cache.epochs ≤ steps.old + length self.old.cache.epochs + 1 }
        ensures same { self.new ≡ record self.old { cache = self.new.cache; flushed = index } }
    {
        what_is_noted_may_change();
        self.cached.flushed(index, steps);
        self.flushed = index;
    }

    /// The blocks of those Grants to the stripe that it didn't look at yet come into the pool, behind the others. The
    /// story is the one that its seat has seen. Where the disks agree, the pool then has all that is left of the Grants
    /// in it.
    pub fn grant(&mut self, story: &[Event]) -> Result<(), OutOfMemory>
        requires story { story.now ≡ self.old.seen }
        requires fit { L.coherent → All (λ (event : AnyEvent). GrantFits event.kind) self.old.seen }
        requires fresh { L.coherent
            → AreFresh self.old.number (take self.old.known self.old.seen) (drop self.old.known self.old.seen) }
        ensures ok { OnOk result (self.new ≡ record self.old { pool = self.new.pool; known = length self.old.seen }) }
        ensures pool { OnOk result (L.coherent
            → self.new.pool ≡ pool_of self.old.number self.old.seen self.old.mine) }
        ensures err { OnErr result (self.new ≡ self.old) }
    {
        let more = &story[self.known..];
        let Some(blocks) = count_granted(more, self.number) else {
            return Err(OutOfMemory);
        };
        self.pool.reserve(blocks)?;
        add_granted(&mut self.pool, more, self.number);
        self.known = story.len();
        Ok(())
    }

    /// The first block of the pool that an ask doesn't exclude. It stays in the pool until a Decide grants it.
    pub fn pick(&self, exclude: &Exclude) -> Option<FreeBlock>
        ensures { MatchOption result
            (All (λ free. IsExcluded exclude.now free.block free.pipeline) self.now.pool)
            (λ free. IsFirstAllowed exclude.now self.now.pool free) }
    {
        first_allowed(self.pool.as_slice(), exclude)
    }

    /// The pins of the lines go that are told in the story that the seat has seen. It takes no memory.
    pub fn unpin_told<S: ToldLines>(&mut self, lines: &S)
        requires { S.story lines.now ≡ self.old.seen }
        ensures room { self.old.pin_room ≤ self.new.pin_room }
        ensures same { self.new ≡ record self.old { pins = untold self.old.seen self.old.pins; pin_room = self.new.pin_room } }
    {
        keep_untold(&mut self.pins, lines);
    }

    /// Brings the sweep on to the tables. Where memory runs out, the next call goes on.
    pub fn sweep(&mut self, alloc: Global) -> Result<(), OutOfMemory>
        ensures swept { OnOk result (L.coherent → IsSwept self.new.reclaim.sweep (row_of self.old.cache.durable.rows)) }
        ensures same { self.new ≡ record self.old { reclaim = self.new.reclaim } }
    {
        let durable = self.cached.durable();
        self.reclaim.sweep.bring(alloc, durable, self.flushed)?;
        Ok(())
    }

    /// Deleted rows of the tables, as the sweep has them, of which no block is in reach or pinned. Where there are more than
    /// `most`, these are the first by the order of row keys.
    pub fn found(&self, alloc: Global, most: u16) -> Result<Found, OutOfMemory>
        requires some { 1 ≤ most }
        requires few { most ≤ MOST_PURGED }
        ensures found { IfOk result (λ found. (all : Rows) → IsSwept self.now.reclaim.sweep all
            → AreFound all (all_pinned self.now.pins) most found) }
        ensures few { IfOk result (λ found. length found.rows.items ≤ most) }
        // Each stands there once, with the index since which its blocks are out of reach.
        ensures in_order { IfOk result (λ found. AllRise (map keyed found.rows.items)) }
        ensures dated { IfOk result (λ found. AllByRecursion (λ row. date_of self.now.reclaim.sweep row.0 ≡ Some row.1) found.rows.items) }
    {
        let pinned = pinned_blocks(alloc, self.pins.as_slice())?;
        let found = self.reclaim.sweep.find(alloc, &pinned, most)?;
        Ok(found)
    }

    /// The request by which the first of the stripe's deleted snapshots is worked off, by the order of row keys. Where no snapshot
    /// may be deleted, it looks at no row.
    pub fn next_work(&mut self, alloc: Global) -> Result<Option<Request>, OutOfMemory>
        ensures work { IfOk result (IsChainWork (newest self.old.cache)) }
        ensures same { self.new ≡ record self.old { reclaim = self.new.reclaim } }
        ensures sweep { self.new.reclaim.sweep ≡ self.old.reclaim.sweep }
    {
        self.reclaim.next_work(alloc, &self.cached)
    }
}
