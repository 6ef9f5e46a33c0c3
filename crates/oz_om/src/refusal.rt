//! Why a request wasn't decided.

ghost use Rattle.std.specs.Prelude.{◌≡◌, ◌↔◌, ℕ};
ghost use Rattle.oz_asker.specs.declared.fault.AskFault.TheVariants as faults;
ghost use Rattle.oz_om.specs.declared.refusal.Refusal.TheVariants as refusals;
ghost use Rattle.oz_om.specs.Refusals.{IsOfStripe, refusal_of};

use oz_asker::AskFault;
use oz_fields::OutOfMemory;

/// Why a request wasn't decided. After each of these nothing was decided.
#[derive(Clone, Copy, Debug, PartialEq, Eq)]
pub enum Refusal {
    /// Something else was said of the blocks of the line than its worker knows. Nothing was appended.
    OtherBlocks,
    /// The line may not ask this yet, or not any more. Nothing was appended.
    Early,
    /// The manager had halted before it was asked; its disks have failed so often.
    Stopped { count: u64 },
    /// The stripe has no block left that the request doesn't exclude.
    PoolEmpty { stripe: u8 },
    /// The buffer has `held` bytes, and the `asked` bytes of this batch are too many for it. Once it is flushed there
    /// is room.
    Later { held: u64, asked: u64 },
    OutOfMemory,
}

impl From<OutOfMemory> for Refusal {
    ghost use Rattle.std.specs.Prelude.{◌≡◌};
    ghost use Rattle.oz_om.specs.declared.refusal.Refusal.TheVariants.{OutOfMemory};

    ghost from_gives = { λ _ refusal. refusal ≡ OutOfMemory };

    fn from(_error: OutOfMemory) -> Refusal {
        Refusal::OutOfMemory
    }
}

/// How the asker's seat is refused.
pub(crate) fn of_asker(fault: AskFault) -> Refusal
    ensures other_blocks { result ≡ Refusal.OtherBlocks ↔ fault ≡ AskFault.OtherBlocks }
    ensures early { result ≡ Refusal.Early ↔ fault ≡ AskFault.Early }
    ensures stopped { (count : ℕ) → result ≡ refusals.Stopped count ↔ fault ≡ faults.Stopped count }
    ensures refused { IsOfStripe result → ⊥ }
    ensures is { result ≡ refusal_of fault }
{
    match fault {
        AskFault::OtherBlocks => Refusal::OtherBlocks,
        AskFault::Early => Refusal::Early,
        AskFault::Stopped { count } => Refusal::Stopped { count },
        AskFault::OutOfMemory => Refusal::OutOfMemory,
    }
}
