//! A stripe is granted blocks for a line that asked for one.

ghost use Rattle.std.specs.Prelude.{◌≡◌, ◌<◌, [], List, true, IfOk};
ghost use Rattle.oz_buffer.specs.Buffer.{AllFollow, Follows};
ghost use Rattle.oz_core.specs.declared.event.Event.{Event as AnyEvent};
ghost use Rattle.oz_core.specs.Asks.{is_script};
ghost use Rattle.oz_line_blocks.specs.granting.Granting.{AreMade, IsKnownThen, WasEmpty, answer_of, stills_of};
ghost use Rattle.oz_names.specs.declared.limits.TheConstants.{STRIPES};
ghost use Rattle.oz_turn.specs.Seat.{seen_of};
ghost use Rattle.oz_turn.specs.Told.{BeginsWith};
ghost use Rattle.oz_turn.specs.Turn.{turn_id};
ghost use Rattle.oz_line_blocks.specs.Seats.{MayTake, SawStory};

use crate::granting::looking::{has_stood_still, length_at_rest};
use oz_asker::Still;
use oz_buffer::{Ledger, Opened, OutOfMemory};
use oz_requests::{Answer, AskId, Exclude};
use oz_scm_events::{
    GrantFault, ScmCell, a_need_stays_until_a_grant, a_refusal_is_of_the_story, the_scm_alone_tells,
};
use oz_turn::{Ring, Seat, Turn};
use oz_world::Disk;
use std::alloc::Global;
use std::sync::{Mutex, Wait};

// The seat of the storage container manager, and that of the stripe 0.
const SCM_SEAT: u16 = 3;

const FIRST_STRIPE_SEAT: u16 = 20;

/// What comes of it that a stripe is to be granted blocks.
#[derive(Drop)]
pub enum Granting {
    /// The stripe has more blocks: the line asks again.
    Granted,
    /// The storage container manager gave something since the stripe had none, perhaps to it: the line asks again.
    Moved,
    /// The line is told this, as long as these seats stand still.
    Refused(Answer, [Still; 2]),
}

/// Has a stripe that had no block for an id's request granted more. `place` is how many events the story had, or fewer, when
/// the stripe had none, and `exclude` is what the request excludes; `by` is the number of the asking seat.
pub fn grant_for<D: Disk, O: Opened, R: Ring, W: Wait>(
    rt: &W,
    alloc: Global,
    turn: &Turn<Ledger<O>>,
    scm: &Mutex<ScmCell<D, Ledger<O>, O, R>>,
    seat: &mut Seat<Ledger<O>>,
    by: u16,
    id: AskId,
    stripe: u8,
    exclude: &Exclude,
    place: u64,
) -> Result<Granting, OutOfMemory>
    requires seat { MayTake R.turn (turn_id turn.now) by seat.old }
    requires script { is_script id ≡ true }
    requires stripe { stripe < STRIPES }
    requires empty { O.coherent → WasEmpty O.opening (seen_of seat.old) place id stripe exclude.now }
    requires made { O.coherent → (story : List AnyEvent) → BeginsWith story (seen_of seat.old)
        → AllFollow (Follows O.coherent O.opening O.bytes O.script) [] story → AreMade O.opening story exclude.now }
    ensures looked { SawStory O.Opened R.turn by seat.old seat.new }
    ensures known { IfOk result (IsKnownThen O.coherent O.opening O.bytes O.script (seen_of seat.new) place id stripe) }
{
    let mut guard = scm.lock(rt);
    let cell = &mut *guard;
    grant_locked(rt, alloc, turn, cell, seat, by, id, stripe, exclude, place)
}

/// The same, while the storage container manager is locked.
fn grant_locked<D: Disk, O: Opened, R: Ring, W: Wait>(
    rt: &W,
    alloc: Global,
    turn: &Turn<Ledger<O>>,
    cell: &mut ScmCell<D, Ledger<O>, O, R>,
    seat: &mut Seat<Ledger<O>>,
    by: u16,
    id: AskId,
    stripe: u8,
    exclude: &Exclude,
    place: u64,
) -> Result<Granting, OutOfMemory>
    requires seat { MayTake R.turn (turn_id turn.now) by seat.old }
    requires script { is_script id ≡ true }
    requires stripe { stripe < STRIPES }
    requires empty { O.coherent → WasEmpty O.opening (seen_of seat.old) place id stripe exclude.now }
    requires made { O.coherent → (story : List AnyEvent) → BeginsWith story (seen_of seat.old)
        → AllFollow (Follows O.coherent O.opening O.bytes O.script) [] story → AreMade O.opening story exclude.now }
    ensures looked { SawStory O.Opened R.turn by seat.old seat.new }
    ensures known { IfOk result (IsKnownThen O.coherent O.opening O.bytes O.script (seen_of seat.new) place id stripe) }
{
    the_scm_alone_tells::<O>();
    a_need_stays_until_a_grant::<O>();
    a_refusal_is_of_the_story::<O>();
    cell.show(rt, turn, seat);
    let scm_still = Still::Seat {
        seat: SCM_SEAT,
        place,
    };
    if !has_stood_still(rt, turn, seat, by, scm_still) {
        return Ok(Granting::Moved);
    }
    let fault = match cell.grant(rt, alloc, turn, seat, stripe, exclude) {
        Ok(_grant) => return Ok(Granting::Granted),
        Err(GrantFault::OutOfMemory) => return Err(OutOfMemory),
        Err(fault) => fault,
    };
    let length = length_at_rest(rt, turn, cell, seat, by);
    Ok(Granting::Refused(answer_of(fault), stills(length, stripe, place)))
}

/// The seats that have to stand still for a refusal: the storage container manager's and the stripe's.
fn stills(length: u64, stripe: u8, place: u64) -> [Still; 2]
    ensures { result ≡ stills_of length stripe place }
{
    [
        Still::Seat {
            seat: SCM_SEAT,
            place: length,
        },
        Still::Seat {
            seat: FIRST_STRIPE_SEAT + u16::from(stripe),
            place,
        },
    ]
}

/// As what a line is told it that nothing is granted.
fn answer_of(fault: GrantFault) -> Answer
    ensures { result ≡ answer_of fault }
{
    match fault {
        GrantFault::Stopped { .. } => Answer::ScmStopped,
        GrantFault::NoPipeline => Answer::NoPipeline,
        GrantFault::Excluded => Answer::NoQuorum,
        GrantFault::IdsSpent { .. } => Answer::IdsSpent,
        GrantFault::OutOfMemory => Answer::OutOfMemory,
    }
}
