//! A worker: a seat, and the clients that are served from it.

ghost use Rattle.std.specs.Prelude.{◌≡◌, ◌<◌, All, List, length, map, IfOk, IfErr};
ghost use Rattle.oz_core.specs.declared.event.Event.{Event as AnyEvent};
ghost use Rattle.oz_script.specs.lines.Numbered.{IsNumbered};
ghost use Rattle.oz_turn.specs.Seat.{IsReady};
ghost use Rattle.oz_worker.specs.Served.{IsServed};
ghost use Rattle.oz_worker.specs.Workers.{IsOfWorker, clients_of};

use crate::client::Client;
use crate::passing::{Pass, each_goes_on};
use crate::pausing::pause;
use crate::resting::Care;
use oz_at_work::{Loaded, Shared};
use oz_buffer::{Ledger, Opened};
use oz_core::Event;
use oz_fields::OutOfMemory;
use oz_flusher::{Flushing, Mounted, flush_if_free};
use oz_script::Script;
use oz_turn::{Ring, Seat, Told};
use oz_world::{Disk, Gate};
use std::alloc::Global;
use std::marker::{Model, PhantomData};
use std::sync::{Mutex, Wait};

/// How often in turn who works on a thread of his own looks and finds nothing to do, before he leaves the rest to the
/// caller: for some four seconds.
pub(crate) const MOST_LOOKS: u32 = 4_000;

/// One look in turn among so many is at each client, whatever is guessed.
const WHOLE: u32 = 64;

/// How often a worker does on the caller's thread, where nobody else could help: once more behind a flush.
pub(crate) const FEWEST_LOOKS: u32 = 1;

/// Serves clients from a seat of the turn: those that are dealt to it where it is the worker at its place, of so many.
#[derive(Drop)]
pub struct Worker<'s, T: Told<Entry = Event>, O: Opened, R: Ring> {
    number: u16,
    place: u16,
    workers: u16,
    seat: Seat<T>,
    clients: Vec<Client<'s>>,
    /// How many datanodes there are.
    nodes: u8,
    is_out_of_memory: bool,
    /// The length of the story at which it found nothing to flush.
    flushed_at: Option<u64>,
    of: PhantomData<(O, R)>,
}

impl<'s, T: Told<Entry = Event>, O: Opened, R: Ring> Model for Worker<'s, T, O, R> {
    ghost use Rattle.std.specs.Prelude.{◌≡◌, All, length, map};
    ghost use Rattle.oz_script.specs.lines.Numbered.{IsNumbered};
    ghost use Rattle.oz_turn.specs.Seat.{IsReady, seen_of};
    ghost use Rattle.oz_worker.specs.Served.{IsServed};
    ghost use Rattle.oz_worker.specs.Workers.{IsOfWorker, WorkerView, clients_of};

    ghost Value = { WorkerView };

    ghost view = { λ w. record { number = w.number; place = w.place; workers = w.workers } };

    ghost invariant = { λ w. IsReady R.turn w.number w.seat × IsOfWorker O.opening w.number w.nodes × IsNumbered O.script
        × (map (λ client. client.number) w.clients.items ≡ clients_of w.workers w.place (length O.script.clients))
        × All (IsServed O.coherent O.opening O.bytes O.script (seen_of w.seat)) w.clients.items };
}

impl<'s, T: Told<Entry = Event>, O: Opened, R: Ring> Worker<'s, T, O, R> {
    /// The seat's number.
    pub fn number(&self) -> u16
        ensures { result ≡ self.now.number }
    {
        self.number
    }

    /// Whether all lines of its clients were told.
    pub fn is_done(&self) -> bool {
        self.clients.iter().all(|client| client.is_done())
    }

    /// Whether it gave up for want of memory, or at a line that commits a label which no line opened. It then serves
    /// nothing any more.
    pub fn is_out_of_memory(&self) -> bool {
        self.is_out_of_memory
    }
}

impl<'s, O: Opened, R: Ring> Worker<'s, Ledger<O>, O, R> {
    /// The worker at a seat who is at a place among so many workers, and serves the clients of the script that are dealt to
    /// it. `nodes` is the number of datanodes. Where there is no memory the seat comes back.
    pub fn make(
        alloc: Global,
        script: &'s Script,
        number: u16,
        seat: Seat<Ledger<O>>,
        place: u16,
        workers: u16,
        nodes: u8,
    ) -> Result<Worker<'s, Ledger<O>, O, R>, (Seat<Ledger<O>>, OutOfMemory)>
        requires script { script.now ≡ O.script }
        requires numbered { IsNumbered O.script }
        requires seat { IsReady R.turn number seat }
        requires worker { IsOfWorker O.opening number nodes }
        requires some { 0 < workers }
        ensures ok { IfOk result (λ worker. worker ≡ record { number = number; place = place; workers = workers }) }
        ensures err { IfErr result (λ refused. refused.0 ≡ seat) }
    {
        match clients_from::<O>(alloc, script, place, workers) {
            Ok(clients) => Ok(Worker {
                number,
                place,
                workers,
                seat,
                clients,
                nodes,
                is_out_of_memory: false,
                flushed_at: None,
                of: PhantomData,
            }),
            Err(error) => Err((seat, error)),
        }
    }

    /// Its seat. It takes no memory.
    pub fn into_seat(self) -> Seat<Ledger<O>>
        ensures { IsReady R.turn self.entry.number result }
    {
        let Worker {
            number: _,
            place: _,
            workers: _,
            seat,
            clients: _,
            nodes: _,
            is_out_of_memory: _,
            flushed_at: _,
            of: _,
        } = self;
        seat
    }

    /// Serves its clients until all their lines were told, or there is no memory, or it has found nothing to do some
    /// thousand times in turn. Where nothing can go on it flushes, if nobody else does, and pauses the longer the longer
    /// nothing comes. It doesn't take the turn to see whether anything came.
    pub fn work<D: Disk, L: Loaded, M: Mounted, W: Wait, G: Gate>(
        &mut self,
        shared: &Shared<'_, D, O, L, R, W, G>,
        flushing: &Mutex<Flushing<D, Ledger<O>, O, M, R>>,
    )
        ensures { self.new ≡ self.old }
    {
        self.serve(shared, flushing, MOST_LOOKS);
    }

    /// Serves its clients until nothing went on so often in turn, and once more. Says whether anything did. The last look is at
    /// each client.
    pub(crate) fn serve<D: Disk, L: Loaded, M: Mounted, W: Wait, G: Gate>(
        &mut self,
        shared: &Shared<'_, D, O, L, R, W, G>,
        flushing: &Mutex<Flushing<D, Ledger<O>, O, M, R>>,
        most_looks: u32,
    ) -> bool
        ensures { self.new ≡ self.old }
    {
        let mut went_on = false;
        let mut looks = most_looks;
        let mut flush = Flush::Elsewhere;
        for _ in shared.rt.forever() {
            if self.is_over() {
                return went_on;
            }
            if self.go_on(shared, flush.care(looks)) {
                went_on = true;
                looks = most_looks;
                flush = Flush::Elsewhere;
                continue;
            }
            if looks == 0 {
                return went_on;
            }
            looks -= 1;
            let before = flush;
            flush = self.flush(shared, flushing);
            if flush.asks_to_pause(before) {
                pause(shared.rt, most_looks.saturating_sub(looks));
            }
        }
        unreachable!()
    }

    /// Flushes, if there may be anything to flush and nobody else does.
    fn flush<D: Disk, L: Loaded, M: Mounted, W: Wait, G: Gate>(
        &mut self,
        shared: &Shared<'_, D, O, L, R, W, G>,
        flushing: &Mutex<Flushing<D, Ledger<O>, O, M, R>>,
    ) -> Flush
        ensures { self.new ≡ self.old }
    {
        let length = shared.turn.length();
        if self.flushed_at == Some(length) {
            return Flush::Nothing;
        }
        match flush_if_free(shared.rt, flushing, shared.turn, shared.gate) {
            None => Flush::Elsewhere,
            Some(Ok(Some(_))) => Flush::Done,
            Some(Ok(None) | Err(_)) => {
                self.flushed_at = Some(length);
                Flush::Nothing
            }
        }
    }

    /// Whether there is nothing left that it could serve.
    fn is_over(&self) -> bool {
        self.is_out_of_memory || self.is_done()
    }

    /// Each client's next line goes on by one thing, if it is looked at. Says whether any did.
    fn go_on<D: Disk, L: Loaded, W: Wait, G: Gate>(
        &mut self,
        shared: &Shared<'_, D, O, L, R, W, G>,
        care: Care,
    ) -> bool
        ensures { self.new ≡ self.old }
    {
        let (by, nodes) = (self.number, self.nodes);
        match each_goes_on(
            shared,
            &mut self.seat,
            by,
            nodes,
            self.clients.as_mut_slice(),
            care,
        ) {
            Pass::WentOn => true,
            Pass::Waits => false,
            Pass::OutOfMemory => {
                self.is_out_of_memory = true;
                false
            }
        }
    }
}

/// What came of a flush.
#[derive(Clone, Copy, PartialEq, Eq)]
enum Flush {
    /// Something was flushed.
    Done,
    /// There was nothing to flush, or the manager has halted.
    Nothing,
    /// Somebody else flushes, or hasn't been asked to.
    Elsewhere,
}

impl Flush {
    /// How the next look has to be behind this, where so many are left.
    fn care(self, looks: u32) -> Care {
        if looks <= FEWEST_LOOKS || looks % WHOLE == 0 {
            return Care::Whole;
        }
        match self {
            Flush::Nothing => Care::Thorough,
            Flush::Done | Flush::Elsewhere => Care::Quick,
        }
    }

    /// Whether there is no use in looking at once, where this came of the flush before.
    fn asks_to_pause(self, before: Flush) -> bool {
        match self {
            Flush::Done => false,
            Flush::Nothing => before == Flush::Nothing,
            Flush::Elsewhere => true,
        }
    }
}

/// The clients of a script that are dealt to the worker at a place, of so many.
fn clients_from<'s, O: Opened>(
    alloc: Global,
    script: &'s Script,
    place: u16,
    workers: u16,
) -> Result<Vec<Client<'s>>, OutOfMemory>
    requires script { script.now ≡ O.script }
    requires numbered { IsNumbered O.script }
    requires some { 0 < workers }
    ensures served { IfOk result (λ clients. (seen : List AnyEvent) →
        All (IsServed O.coherent O.opening O.bytes O.script seen) clients.items) }
    ensures dealt { IfOk result (λ clients.
        map (λ client. client.number) clients.items ≡ clients_of workers place (length O.script.clients)) }
{
    let mut clients = Vec::new(alloc);
    let count = script.clients.len() as u16;
    for dealt in 0..count {
        if dealt % workers == place {
            clients.push(Client::new::<O>(alloc, script, dealt + 1)?)?;
        }
    }
    Ok(clients)
}
