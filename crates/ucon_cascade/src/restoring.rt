//! Whether a usage fails in a state from which the monitor is to go on.

ghost use Rattle.std.specs.Prelude.{◌≡◌};
ghost use Rattle.ucon_actions.specs.Leads.{AfterEach, IsFollowing};
ghost use Rattle.ucon_model.specs.Settle.{least_failing};
ghost use Rattle.ucon_state.specs.Shown.{shown};

use crate::settle::fails_at;
use ucon_base::{Name, Steps};
use ucon_engine::sessions;
use ucon_state::State;

/// The least accessing session that fails, with its label.
pub fn least_failing(state: &State) -> Option<(u32, Name)>
    requires { IsFollowing (shown state.now) }
    ensures { AfterEach (shown state.now) (λ P T. least_failing P T ≡ result) }
{
    let mut steps = Steps::new();
    let count = sessions(state);
    for before in 0..count {
        if let Some(label) = fails_at(state, before + 1, &mut steps) {
            return Some((before + 1, label));
        }
    }
    None
}
