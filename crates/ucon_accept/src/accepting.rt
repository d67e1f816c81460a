//! Whether an explanation of a try is right over a state.

ghost use Rattle.std.specs.Prelude.{◌≡◌, ◌↔◌, IfErr, IsOk, None, OnOk};
ghost use Rattle.ucon_state.specs.Following.{AfterEach, IsFollowing};
ghost use Rattle.ucon_state.specs.Shown.{shown};
ghost use Rattle.ucon_accept.specs.Explanation.{explanation_of};
ghost use Rattle.ucon_accept.specs.Trying.{IsCauseIn, IsRight, IsWrongAfter, explained_with, refusal_shown};

use crate::checker::{Wrong, check};
use crate::explanation::Explanation;
use crate::one_more::OneMore;
use crate::trying::{refusal, tried};
use ucon_model::{readings_that_agree_are_one, typed_tests_make_no_set};
use ucon_state::{State, each_action_is_followed, tables_keep_what_is_followed};

/// Whether the explanation of a try that isn't refused is right.
fn check_try(state: &State, e: &Explanation) -> Result<(), Wrong>
    requires following { IsFollowing (shown state.now) }
    requires allowed { refusal_shown (shown state.now) e.now.subject e.now.right e.now.object ≡ None }
    ensures ok { OnOk result (explanation_of e.now ≡ explained_with (shown state.now) e.now.subject e.now.right e.now.object) }
    ensures err { IfErr result (λ w. IsCauseIn w (explanation_of e.now) (explained_with (shown state.now) e.now.subject e.now.right e.now.object)) }
{
    tables_keep_what_is_followed();
    each_action_is_followed();
    typed_tests_make_no_set();
    let view = OneMore {
        state,
        row: tried(&e.subject, &e.right, &e.object),
    };
    check(&view, view.number(), &view.row, e)
}

/// Whether an explanation is right. It doesn't matter who made it: each fact is compared with the state, each truth is worked out from the
/// facts alone, and the verdict from the truths. It takes no memory.
pub fn accept(state: &State, e: &Explanation) -> Result<(), Wrong>
    requires { IsFollowing (shown state.now) }
    ensures accepted { IsOk result ↔ IsRight (shown state.now) (explanation_of e.now) }
    ensures wrong { IfErr result (λ w. AfterEach (shown state.now) (λ P T. IsWrongAfter w (explanation_of e.now) P T)) }
{
    tables_keep_what_is_followed();
    each_action_is_followed();
    readings_that_agree_are_one();
    if let Some(refusal) = refusal(state, &e.subject, &e.right, &e.object) {
        return Err(Wrong::Names(refusal));
    }
    check_try(state, e)
}
