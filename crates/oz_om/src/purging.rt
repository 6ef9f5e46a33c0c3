//! Deleted rows that may go are found among what is flushed, and their stripe's seat asks for their blocks to be deleted.

ghost use Rattle.std.specs.Prelude.{◌≡◌, ◌≢◌, ◌≤◌, ◌<◌, ◌∷◌, ◌++◌, ℕ, [], false, map, None, IfOk, IfErr, OnOk, OnErr, Contains, slice_index};
ghost use Rattle.oz_buffer.specs.Books.{Book};
ghost use Rattle.oz_buffer.specs.Buffer.{AllFollow, Follows};
ghost use Rattle.oz_cache.specs.Cache.{newest};
ghost use Rattle.oz_core.specs.declared.event.EventKind.TheVariants.{PurgeAsk};
ghost use Rattle.oz_core.specs.declared.event.Node.TheVariants.{Manager as AnyManager};
ghost use Rattle.oz_core.specs.Asks.{is_told};
ghost use Rattle.oz_core.specs.Manager.{durable_index, halt_of};
ghost use Rattle.oz_core.specs.Seats.{stripe_seat};
ghost use Rattle.oz_locks.specs.declared.pins.Pin.{Pin as AnyPin};
ghost use Rattle.oz_locks.specs.Flushes.{flushed_in};
ghost use Rattle.oz_locks.specs.Stripe.{IsAtRest};
ghost use Rattle.oz_names.specs.declared.limits.TheConstants.{STRIPES};
ghost use Rattle.oz_om.specs.Held.{IsHeld, IsTold};
ghost use Rattle.oz_om.specs.Keeps.{KeepsRows};
ghost use Rattle.oz_om.specs.Opens.{Opens};
ghost use Rattle.oz_om.specs.Purging.{AreFirstPurged, HasPurged, IsCounted, MayBeAsked, OneWasRefused, PurgeRefusalHolds, WasRefused, WereFound};
ghost use Rattle.oz_om.specs.Purging.{blocks_of_all, dated, deleted_blocks, with_blocks};
ghost use Rattle.oz_om.specs.Shown.{HasSeen};
ghost use Rattle.oz_rows.specs.RowMaps.{row_of};
ghost use Rattle.oz_turn.specs.Seat.{IsReady, mine_of, room_of, seen_of};
ghost use Rattle.oz_turn.specs.Told.{BeginsWith, KeepsOtherRooms};
ghost use Rattle.oz_turn.specs.Turn.{turn_id};

use crate::drafting::FIRST_STRIPE_SEAT;
use crate::looking::look;
use crate::manager::Manager;
use crate::refusal::Refusal;
use crate::telling::bring_down;
use oz_buffer::{Ledger, Opened};
use oz_core::{Event, EventKind, Node};
use oz_fields::{Block, List, OutOfMemory, TryClone};
use oz_locks::{Loaded, Stripe, Stripes};
use oz_names::STRIPES;
use oz_reclaim::MOST_PURGED;
use oz_rows::{Row, RowKey};
use oz_tables::Tables;
use oz_turn::{Held, Ring, Seat, Told, Turn};
use std::alloc::Global;
use std::sync::Wait;

/// Deleted rows of a stripe that may go: no block of one is in reach, and no line works on one.
#[derive(Debug, Drop)]
pub struct Purged {
    /// The rows by their keys, in the order of these, each with all its blocks.
    pub rows: Vec<(RowKey, List<Block>)>,
    /// For each row the transaction index since which its blocks are out of reach, as the stripe's sweep dates it.
    pub since: Vec<u64>,
    /// Whether they are fewer than 1,024, so that no others may go.
    pub is_all: bool,
    /// Whether lines work on some blocks of a row that is out of reach, and on others not.
    pub is_partly_pinned: bool,
    /// The transaction index up to which rows were looked at: what was flushed.
    pub durable: u64,
}

impl<O: Opened, L: Loaded, R: Ring> Manager<Ledger<O>, O, L, R> {
    /// Finds deleted rows of a stripe that may go, up to 1,024 of them, and has the stripe's seat ask for all their blocks to be
    /// deleted. They are found by what was flushed, and by the lines that weren't told, as a story ended that begins with all that
    /// `seat` had seen; where there are none, nothing is asked for. `by` is the number of `seat`, which sees what was asked for. It
    /// is refused where the manager has halted, and where memory runs out; nothing is asked for then, and a later call goes on.
    pub fn purge_stripe<W: Wait>(
        &self,
        rt: &W,
        alloc: Global,
        turn: &Turn<Ledger<O>>,
        seat: &mut Seat<Ledger<O>>,
        by: u16,
        stripe: u8,
    ) -> Result<Purged, Refusal>
        requires turn { turn_id turn.now ≡ R.turn }
        requires ready { IsReady R.turn by seat.old }
        requires stripe { stripe < STRIPES }
        ensures ready { IsReady R.turn by seat.new }
        ensures room { room_of seat.new ≡ room_of seat.old }
        ensures mine { mine_of seat.new ≡ mine_of seat.old }
        ensures goes_on { BeginsWith (seen_of seat.new) (seen_of seat.old) }
        ensures follow { AllFollow (Follows O.coherent O.opening O.bytes O.script) [] (seen_of seat.new) }
        ensures purged { IfOk result (HasPurged O.coherent O.opening L.rows stripe (seen_of seat.old) (seen_of seat.new)) }
        ensures refused { IfErr result (WasRefused stripe (seen_of seat.old) (seen_of seat.new)) }
    {
        self.opens();
        purge_in(rt, alloc, turn, &self.stripes, stripe, seat, by)
    }

    /// The deleted rows of the first stripe that has some that may go, up to 1,024 of them, each with all its blocks; the stripe's seat
    /// has asked for these to be deleted. None exactly where each stripe has none, as a story ended that begins with all that `seat`
    /// had seen; then nothing is asked for. `by` is the number of `seat`. It is refused as `purge_stripe` is.
    pub fn purge_blocks<W: Wait>(
        &self,
        rt: &W,
        alloc: Global,
        turn: &Turn<Ledger<O>>,
        seat: &mut Seat<Ledger<O>>,
        by: u16,
    ) -> Result<Vec<(RowKey, List<Block>)>, Refusal>
        requires turn { turn_id turn.now ≡ R.turn }
        requires ready { IsReady R.turn by seat.old }
        ensures ready { IsReady R.turn by seat.new }
        ensures room { room_of seat.new ≡ room_of seat.old }
        ensures mine { mine_of seat.new ≡ mine_of seat.old }
        ensures goes_on { BeginsWith (seen_of seat.new) (seen_of seat.old) }
        ensures purged { IfOk result (λ rows. AreFirstPurged O.coherent O.opening L.rows (seen_of seat.old) (seen_of seat.new) rows.items) }
        ensures refused { IfErr result (OneWasRefused O.coherent O.opening L.rows (seen_of seat.old) (seen_of seat.new)) }
    {
        self.opens();
        for stripe in 0..STRIPES {
            let purged = purge_in(rt, alloc, turn, &self.stripes, stripe, seat, by)?;
            if !purged.rows.is_empty() {
                return Ok(purged.rows);
            }
        }
        Ok(Vec::new(alloc))
    }
}

/// The same under the stripe's lock.
fn purge_in<O: Opened, L: Loaded, R: Ring, W: Wait>(
    rt: &W,
    alloc: Global,
    turn: &Turn<Ledger<O>>,
    stripes: &Stripes<Ledger<O>, L, R>,
    stripe: u8,
    seat: &mut Seat<Ledger<O>>,
    by: u16,
) -> Result<Purged, Refusal>
    requires turn { turn_id turn.now ≡ R.turn }
    requires opens { Opens O.coherent O.opening O.bytes L.rows L.last_index L.coherent L.keeps }
    requires stripe { stripe < STRIPES }
    requires ready { IsReady R.turn by seat.old }
    ensures shown { HasSeen R.turn O.coherent O.opening O.bytes O.script by seat.old seat.new }
    ensures purged { IfOk result (HasPurged O.coherent O.opening L.rows stripe (seen_of seat.old) (seen_of seat.new)) }
    ensures refused { IfErr result (WasRefused stripe (seen_of seat.old) (seen_of seat.new)) }
{
    let mut guard = stripes.lock(rt, stripe);
    let resting = &mut *guard;
    let Some(mut inside) = resting.take_out() else {
        unreachable!()
    };
    let purged = purge_of(rt, alloc, turn, &mut inside, seat, by);
    resting.put_back(inside);
    purged
}

fn purge_of<O: Opened, L: Loaded, R: Ring, W: Wait>(
    rt: &W,
    alloc: Global,
    turn: &Turn<Ledger<O>>,
    stripe: &mut Stripe<Ledger<O>, L, R>,
    seat: &mut Seat<Ledger<O>>,
    by: u16,
) -> Result<Purged, Refusal>
    requires turn { turn_id turn.now ≡ R.turn }
    requires opens { Opens O.coherent O.opening O.bytes L.rows L.last_index L.coherent L.keeps }
    requires rests { IsAtRest L.last_index L.coherent L.keeps stripe.old }
    requires ready { IsReady R.turn by seat.old }
    ensures rests { IsAtRest L.last_index L.coherent L.keeps stripe.new }
    ensures shown { HasSeen R.turn O.coherent O.opening O.bytes O.script by seat.old seat.new }
    ensures purged { IfOk result (HasPurged O.coherent O.opening L.rows stripe.old.number (seen_of seat.old) (seen_of seat.new)) }
    ensures refused { IfErr result (WasRefused stripe.old.number (seen_of seat.old) (seen_of seat.new)) }
{
    let durable = look(rt, turn, stripe, seat, by);
    let purged = find(alloc, stripe, durable)?;
    if purged.rows.is_empty() {
        return Ok(purged);
    }
    let blocks = all_blocks(alloc, purged.rows.as_slice())?;
    ask_for(rt, alloc, turn, stripe, seat, by, blocks)?;
    look(rt, turn, stripe, seat, by);
    Ok(purged)
}

/// Finds rows in the tables, which have what was flushed up to an index.
fn find<O: Opened, L: Loaded, R: Ring>(
    alloc: Global,
    stripe: &mut Stripe<Ledger<O>, L, R>,
    durable: u64,
) -> Result<Purged, OutOfMemory>
    requires opens { Opens O.coherent O.opening O.bytes L.rows L.last_index L.coherent L.keeps }
    requires rests { IsAtRest L.last_index L.coherent L.keeps stripe.old }
    requires follow { AllFollow (Follows O.coherent O.opening O.bytes O.script) [] stripe.old.seen }
    requires untold { (pin : AnyPin) → Contains stripe.old.pins pin → is_told pin.client pin.line stripe.old.seen ≡ false }
    requires durable { durable ≡ durable_index O.opening stripe.old.seen }
    ensures same { stripe.new ≡ record stripe.old { reclaim = stripe.new.reclaim } }
    ensures counted { IfOk result (IsCounted O.opening stripe.old.seen) }
    ensures found { IfOk result (λ purged. O.coherent → WereFound O.opening L.rows stripe.old.number stripe.old.seen purged) }
{
    stripe.is_kept();
    stripe.sweep(alloc)?;
    let found = stripe.found(alloc, MOST_PURGED)?;
    let rows = rows_of(alloc, stripe.cached().durable(), found.rows.as_slice())?;
    let since = dates_of(alloc, found.rows.as_slice())?;
    let is_all = rows.len() < usize::from(MOST_PURGED);
    Ok(Purged {
        rows,
        since,
        is_all,
        is_partly_pinned: found.is_partly_pinned,
        durable,
    })
}

/// The rows of these keys with their blocks.
fn rows_of(
    alloc: Global,
    tables: &Tables,
    found: &[(RowKey, u64)],
) -> Result<Vec<(RowKey, List<Block>)>, OutOfMemory>
    ensures { IfOk result (λ rows. rows.items ≡ map (with_blocks (row_of tables.now.rows)) found.now) }
{
    let mut rows = Vec::with_capacity(alloc, found.len())?;
    for row in found {
        let key = row.0.try_clone(alloc)?;
        let blocks = blocks_at(alloc, tables, &row.0)?;
        rows.push((key, blocks))?;
    }
    Ok(rows)
}

/// The blocks of a deleted row, none where no such row is there.
fn blocks_at(alloc: Global, tables: &Tables, key: &RowKey) -> Result<List<Block>, OutOfMemory>
    ensures { IfOk result (λ blocks. blocks ≡ deleted_blocks (row_of tables.now.rows key.now)) }
{
    match tables.get(key) {
        Some(Row::Deleted { blocks }) => blocks.try_clone(alloc),
        _ => Ok(List::new(alloc)),
    }
}

fn dates_of(alloc: Global, found: &[(RowKey, u64)]) -> Result<Vec<u64>, OutOfMemory>
    ensures { IfOk result (λ dates. dates.items ≡ map dated found.now) }
{
    let mut dates = Vec::with_capacity(alloc, found.len())?;
    for row in found {
        dates.push(row.1)?;
    }
    Ok(dates)
}

/// All blocks of these rows.
fn all_blocks(alloc: Global, rows: &[(RowKey, List<Block>)]) -> Result<List<Block>, OutOfMemory>
    ensures { IfOk result (λ blocks. blocks ≡ blocks_of_all rows.now) }
{
    let mut blocks = Vec::new(alloc);
    for row in rows {
        blocks.extend_from_slice(row.1.items())?;
    }
    Ok(List::of(blocks))
}

/// Takes the turn, and the stripe's seat asks for these blocks to be deleted. Where it is refused, the asker's seat, whose number is
/// `by`, has seen the story.
fn ask_for<O: Opened, L: Loaded, R: Ring, W: Wait>(
    rt: &W,
    alloc: Global,
    turn: &Turn<Ledger<O>>,
    stripe: &mut Stripe<Ledger<O>, L, R>,
    seat: &mut Seat<Ledger<O>>,
    by: u16,
    blocks: List<Block>,
) -> Result<(), Refusal>
    requires turn { turn_id turn.now ≡ R.turn }
    requires opens { Opens O.coherent O.opening O.bytes L.rows L.last_index L.coherent L.keeps }
    requires rests { IsAtRest L.last_index L.coherent L.keeps stripe.old }
    requires ready { IsReady R.turn by seat.old }
    requires blocks { O.coherent → MayBeAsked O.opening L.rows stripe.old.number stripe.old.seen (newest stripe.old.cache) blocks }
    ensures rests { IsAtRest L.last_index L.coherent L.keeps stripe.new }
    ensures number { stripe.new.number ≡ stripe.old.number }
    ensures seen { BeginsWith stripe.new.seen stripe.old.seen }
    ensures asked { OnOk result (stripe.new.mine
        ≡ stripe.old.mine ++ record { seat = stripe_seat stripe.old.number; kind = PurgeAsk blocks } ∷ []) }
    ensures same { OnOk result (seat.new ≡ seat.old) }
    ensures silent { OnErr result (stripe.new.mine ≡ stripe.old.mine) }
    ensures shown { OnErr result (HasSeen R.turn O.coherent O.opening O.bytes O.script by seat.old seat.new) }
    ensures told { OnErr result (seen_of seat.new ≡ stripe.new.seen) }
    ensures refused { IfErr result (PurgeRefusalHolds (seen_of seat.new)) }
{
    let (mut ledger, held) = stripe.take(rt, turn);
    ledger.all_follow();
    stripe.is_kept();
    let durable = ledger.durable_index();
    let asked = match make_room(alloc, &mut ledger, stripe.number()) {
        Ok(()) => {
            tell_of(turn, stripe, ledger, held, blocks);
            Ok(())
        }
        Err(refusal) => {
            stripe.show(turn, seat);
            stripe.give_back(turn, ledger, held);
            Err(refusal)
        }
    };
    bring_down(stripe, durable);
    asked
}

/// Room in the ledger for a PurgeAsk of a stripe, where the manager hasn't halted.
fn make_room<O: Opened>(alloc: Global, ledger: &mut Ledger<O>, stripe: u8) -> Result<(), Refusal>
    requires stripe { stripe < STRIPES }
    ensures story { ledger.new.story ≡ ledger.old.story }
    ensures others { (n : ℕ) → n ≢ stripe_seat stripe → slice_index ledger.new.rooms n ≡ slice_index ledger.old.rooms n }
    ensures room { OnOk result (1 ≤ slice_index ledger.new.rooms (stripe_seat stripe)) }
    ensures unhalted { OnOk result (halt_of AnyManager ledger.old.story ≡ None) }
    ensures refused { IfErr result (PurgeRefusalHolds ledger.old.story) }
{
    if let Some(count) = ledger.halt(Node::Manager) {
        return Err(Refusal::Stopped { count });
    }
    match ledger.reserve_notes(alloc, FIRST_STRIPE_SEAT + u16::from(stripe), 1) {
        Ok(()) => Ok(()),
        Err(_error) => Err(Refusal::OutOfMemory),
    }
}

/// Gives the value back with a PurgeAsk for these blocks.
fn tell_of<O: Opened, L: Loaded, R: Ring>(
    turn: &Turn<Ledger<O>>,
    stripe: &mut Stripe<Ledger<O>, L, R>,
    ledger: Ledger<O>,
    held: Held,
    blocks: List<Block>,
)
    requires turn { turn_id turn.now ≡ R.turn }
    requires opens { Opens O.coherent O.opening O.bytes L.rows L.last_index L.coherent L.keeps }
    requires held { IsHeld O.coherent O.opening O.bytes O.script L.rows stripe.old ledger.story }
    requires rooms { KeepsOtherRooms (λ (l : Book) n. slice_index l.rooms n) (stripe_seat stripe.old.number)
        stripe.old.taken ledger }
    requires room { 1 ≤ slice_index ledger.rooms (stripe_seat stripe.old.number) }
    requires unhalted { halt_of AnyManager ledger.story ≡ None }
    requires blocks { O.coherent → MayBeAsked O.opening L.rows stripe.old.number ledger.story (newest stripe.old.cache) blocks }
    ensures told { IsTold O.coherent O.opening O.bytes O.script L.rows stripe.old stripe.new }
    ensures asked { stripe.new.mine ≡ stripe.old.mine ++ record { seat = stripe_seat stripe.old.number; kind = PurgeAsk blocks } ∷ [] }
    ensures free { stripe.new.taken ≡ None }
    ensures flushed { flushed_in L.last_index stripe.new.seen ≡ flushed_in L.last_index stripe.old.seen }
    ensures brought { stripe.new.flushed ≡ stripe.old.flushed }
{
    let seat = FIRST_STRIPE_SEAT + u16::from(stripe.number());
    let kind = EventKind::PurgeAsk { blocks };
    let mut ledger = ledger;
    stripe.is_kept();
    ledger.note(Event { seat, kind });
    ledger.all_follow();
    stripe.ask_purge(turn, ledger, held);
}
