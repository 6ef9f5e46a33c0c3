//! A noter that writes nothing down.

ghost use Rattle.std.specs.Prelude.{◌≡◌};

use crate::kept::Kept;
use crate::note::Note;
use crate::noter::Noter;
use oz_fields::{Block, OutOfMemory};
use oz_world::Disk;

/// For datanodes beside which nothing is kept. It says of which block, datanodes and bytes it would note.
#[derive(Clone, Copy)]
pub struct NoNotes<'a> {
    pub block: Block,
    pub members: [u8; 3],
    pub bytes: &'a [u8],
}

impl<'a, D: Disk> Noter<D, ()> for NoNotes<'a> {
    ghost subject = { λ noter. record { block = noter.block; members = noter.members; bytes = noter.bytes.now } };

    ghost noted = { λ before notes after. Unit {0} };

    ghost knows = { λ noter kept. Unit {0} };

    ghost may_put = { λ noter kept. Unit {0} };

    ghost joins = { λ first second third before after noted_first noted_second. tt };

    fn ready(&mut self, _kept: &mut ()) -> Result<(), OutOfMemory> {
        Ok(())
    }

    fn note(&mut self, _kept: &mut (), _note: Note) {}
}
