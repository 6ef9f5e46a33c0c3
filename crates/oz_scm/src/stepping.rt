//! Which state a container goes on to.

ghost use Rattle.std.specs.Prelude.{◌≡◌, Some, false, IfOk, IfErr, OnErr, IsSome};
ghost use Rattle.oz_container.specs.Steps.{next};
ghost use Rattle.oz_container.specs.declared.state.State.{State as AnyState};
ghost use Rattle.oz_scm.specs.Applying.{IsWrongFor, says_halted};
ghost use Rattle.oz_scm.specs.grants.Made.{MayStep, state_at};

use crate::fault::ApplyFault;
use crate::grants::Containers;
use oz_container::{Event, State};

/// The state to which an event leads a container that was made.
pub(crate) fn led_to(
    containers: &Containers,
    number: u64,
    event: Event,
) -> Result<State, ApplyFault>
    requires { IsSome (state_at containers.now.made.containers number) }
    ensures reached { IfOk result (λ state. (from : AnyState)
        × (state_at containers.now.made.containers number ≡ Some from) × (next from event ≡ Some state)) }
    ensures may { IfOk result (λ _. MayStep containers.now.made number event) }
    ensures wrong { IfErr result (IsWrongFor containers.now.made number event) }
    ensures goes_on { OnErr result (says_halted result ≡ false) }
{
    let Some(container) = containers.get(number) else {
        unreachable!()
    };
    match oz_container::event(container.state, event) {
        Ok(state) => Ok(state),
        Err(wrong) => Err(ApplyFault::WrongState {
            state: wrong.state,
            event: wrong.event,
        }),
    }
}
