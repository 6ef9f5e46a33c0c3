//! How a line reads its next piece.

ghost use Rattle.std.specs.Prelude.{◌≡◌, ◌≢◌, ◌⊎◌, ◌<◌, [], true, All, List, None, IfSome, IsSome, map};
ghost use Rattle.std.specs.FinMap.{get};
ghost use Rattle.oz_at_work.specs.AtWork.{HasGoneOn, IsAtWork};
ghost use Rattle.oz_at_work.specs.Part.{Gone, IsAtWorkIn, StaysAtWork};
ghost use Rattle.oz_at_work.specs.inner.Read.{IsReadNext, WasMissed, WasRead};
ghost use Rattle.oz_buffer.specs.Buffer.{AllFollow, Follows};
ghost use Rattle.oz_core.specs.declared.event.Event.{Event as AnyEvent};
ghost use Rattle.oz_client.specs.declared.step.Step.TheVariants.{Read};
ghost use Rattle.oz_core.specs.Scm.{containers, members};
ghost use Rattle.oz_fields.specs.declared.block.Piece.{Piece as AnyPiece};
ghost use Rattle.oz_line_blocks.specs.reading.Lacks.{doubted_in};
ghost use Rattle.oz_turn.specs.Seat.{IsReady, mine_of, seen_of};

use crate::at_work::LineAtWork;
use crate::outcome::Did;
use crate::piece::are_below;
use crate::refused::Refused;
use crate::shared::Shared;
use crate::stills::Stills;
use oz_buffer::{Ledger, Opened};
use oz_client::{Got, Step};
use oz_fields::Piece;
use oz_line_blocks::{Doubted, Lack, Reading, read_at_members};
use oz_om::Loaded;
use oz_requests::Answer;
use oz_turn::{Ring, Seat};
use oz_world::{Disk, Gate};
use std::alloc::Global;
use std::sync::Wait;

impl<'s> LineAtWork<'s> {
    /// The line reads its next piece at the members of the piece's block, and goes on by its bytes. Where no member gives them it is
    /// told so next, as long as nobody comes to have them. Members that refused the block, or told that it is bad, when the line
    /// looked before aren't asked again. Where the members aren't known, or memory runs out, it is told next that
    /// there is none.
    pub(crate) fn read<D: Disk, O: Opened, L: Loaded, R: Ring, W: Wait, G: Gate>(
        &mut self,
        shared: &Shared<'_, D, O, L, R, W, G>,
        seat: &mut Seat<Ledger<O>>,
        by: u16,
    ) -> Did
        requires ready { IsReady R.turn by seat.old }
        requires works { IsAtWorkIn O.Opened (seen_of seat.old) self.old }
        ensures gone { Gone R.turn by seat.old seat.new }
        ensures stays { StaysAtWork O.Opened (seen_of seat.new) (result ≡ Did.WentOn) self.old self.new }
        ensures unended { result ≢ Did.Ended }
    {
        let (rt, alloc, turn, servers) = (shared.rt, shared.alloc, shared.turn, shared.servers);
        servers.manager.opens();
        let asked = self.asked;
        let Some(piece) = self.piece() else {
            self.cut(asked, Answer::OutOfMemory);
            return Did::WentOn;
        };
        let container = piece.block.container;
        let Some(members) = members_of(shared, seat, by, container) else {
            self.cut(asked, Answer::OutOfMemory);
            return Did::WentOn;
        };
        let (id, nodes, doubted) = (self.id(asked), &servers.nodes, self.doubted);
        match read_at_members(
            rt, alloc, turn, nodes, seat, by, id, piece, members, doubted,
        ) {
            Ok(Reading::Bytes(bytes)) => self.take_in::<O>(alloc, bytes),
            Ok(Reading::Nobody(lacks)) => self.miss::<O>(piece, lacks),
            Err(_error) => {
                self.cut(asked, Answer::OutOfMemory);
                Did::WentOn
            }
        }
    }

    /// The piece that it reads next. There is none where it doesn't read next, nor where a block was given up, as a line that
    /// reads has none.
    fn piece(&self) -> Option<Piece>
        ensures its { IfSome result (IsReadNext self.now) }
        ensures none { result ≡ None → (piece : AnyPiece) → self.now.next ≡ Read piece → self.now.gave_up ≡ true }
    {
        match &self.next {
            Step::Read { piece } if !self.gave_up => Some(*piece),
            _ => None,
        }
    }

    /// Goes on with the bytes of the piece that it read next.
    fn take_in<O: Opened>(&mut self, alloc: Global, bytes: Vec<u8>) -> Did
        ensures line { self.new.line ≡ self.old.line }
        ensures works { O.coherent → (seen : List AnyEvent) →
            WasRead O.coherent O.opening O.bytes O.script seen self.old bytes.items →
            IsAtWork O.coherent O.opening O.bytes O.script seen self.new }
        ensures went_on { HasGoneOn self.old self.new }
        ensures is { result ≡ Did.WentOn }
    {
        let (asked, said) = (self.asked, self.said);
        let _taken = self.take_up(alloc, Got::Read(Some(bytes)), asked, said, false);
        Did::WentOn
    }

    /// It is told next that nobody has the piece that it reads next, for these reasons, as long as they stand. It remembers which
    /// members were doubted.
    fn miss<O: Opened>(&mut self, piece: Piece, lacks: [Lack; 3]) -> Did
        ensures line { self.new.line ≡ self.old.line }
        ensures works { O.coherent → (seen : List AnyEvent) →
            WasMissed O.coherent O.opening O.bytes O.script seen self.old piece lacks →
            IsAtWork O.coherent O.opening O.bytes O.script seen self.new }
        ensures remembers { IsSome self.new.refused → self.new.doubted.dns ≡ map doubted_in lacks }
        ensures went_on { HasGoneOn self.old self.new }
        ensures is { result ≡ Did.WentOn }
    {
        let asked = self.asked;
        let Ok(number) = u16::try_from(self.steps.pieces_read()) else {
            self.cut(asked, Answer::OutOfMemory);
            return Did::WentOn;
        };
        let block = piece.block;
        self.doubted = Doubted::of(lacks);
        self.refused = Some(Refused {
            answer: Answer::NoReplica {
                piece: number,
                block,
            },
            asked,
            still: Stills::of(lacks),
        });
        Did::WentOn
    }
}

/// The members of a container, for which the storage container manager is locked and let go again. There is nothing where the
/// container wasn't made, or a member is no known datanode.
fn members_of<D: Disk, O: Opened, L: Loaded, R: Ring, W: Wait, G: Gate>(
    shared: &Shared<'_, D, O, L, R, W, G>,
    seat: &mut Seat<Ledger<O>>,
    by: u16,
    container: u64,
) -> Option<[u8; 3]>
    requires ready { IsReady R.turn by seat.old }
    ensures gone { Gone R.turn by seat.old seat.new }
    ensures mine { mine_of seat.new ≡ mine_of seat.old }
    ensures follow { AllFollow (Follows O.coherent O.opening O.bytes O.script) [] (seen_of seat.new) }
    ensures known { IfSome result (λ dns. All (λ dn. dn < shared.now.servers.now.nodes) dns) }
    ensures are { O.coherent → IfSome result (λ dns. members O.opening (seen_of seat.new) container ≡ dns) }
    ensures none { O.coherent → result ≡ None → (get (containers O.opening (seen_of seat.new)) container ≡ None)
        ⊎ (All (λ dn. dn < shared.now.servers.now.nodes) (members O.opening (seen_of seat.new) container) → ⊥) }
{
    let (rt, turn, servers) = (shared.rt, shared.turn, shared.servers);
    let mut guard = servers.scm.lock(rt);
    let cell = &mut *guard;
    let members = cell.members(rt, turn, seat, container)?;
    if are_below(members, servers.node_count()) {
        Some(members)
    } else {
        None
    }
}
