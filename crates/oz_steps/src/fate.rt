//! What the answers of its members make of a block.

ghost use Rattle.std.specs.Prelude.{◌≡◌};
ghost use Rattle.oz_core.specs.Steps.{is_of_node};
ghost use Rattle.oz_steps.specs.Grants.{AreAnswers, IsFate, fate_of, refused_so};

use oz_core::PutRefusal;

/// What became of a block that a line was granted.
#[derive(Clone, Copy)]
pub enum Fate {
    /// Two of its members have it.
    Written,
    /// Two refused it. The line excludes its container.
    ContainerRefused,
    /// Two can't take blocks at all. The line excludes its pipeline.
    PipelineRefused,
}

/// The member can't take blocks at all.
fn is_of_node(refusal: PutRefusal) -> bool
    ensures { result ≡ is_of_node refusal }
{
    match refusal {
        PutRefusal::Stopped { .. } | PutRefusal::Full { .. } => true,
        PutRefusal::NotOpen { .. } => false,
    }
}

fn is_off(answer: Option<PutRefusal>) -> bool
    ensures { result ≡ refused_so is_of_node answer }
{
    match answer {
        Some(refusal) => is_of_node(refusal),
        None => false,
    }
}

/// What becomes of a block by its members' answers, none of a put: whichever story has these answers has it so.
pub fn fate_of(answers: [Option<PutRefusal>; 3]) -> Fate
    ensures is { result ≡ fate_of answers }
    ensures so { (opening : _) (story : _) (grant : _) → AreAnswers opening story grant answers
        → IsFate opening story grant result }
{
    counted(answers)
}

fn counted(answers: [Option<PutRefusal>; 3]) -> Fate
    ensures { result ≡ fate_of answers }
{
    let [one, two, three] = answers;
    let puts = u8::from(one.is_none()) + u8::from(two.is_none()) + u8::from(three.is_none());
    let off = u8::from(is_off(one)) + u8::from(is_off(two)) + u8::from(is_off(three));
    if puts >= 2 {
        Fate::Written
    } else if off >= 2 {
        Fate::PipelineRefused
    } else {
        Fate::ContainerRefused
    }
}
