//! Laws of tries and their explanations. A law is a function without parameters that does nothing: its contract is what is proved.

ghost use Rattle.std.specs.Prelude.{◌≡◌, ◌+◌, ℕ, length, None, Some};
ghost use Rattle.ucon_model.specs.declared.session.SessionRow.{SessionRow};
ghost use Rattle.ucon_model.specs.Action.{Trace};
ghost use Rattle.ucon_model.specs.Decision.{verdict};
ghost use Rattle.ucon_model.specs.Plain.{Bytes, PlainPolicy};
ghost use Rattle.ucon_model.specs.Truth.{Readings};
ghost use Rattle.ucon_state.specs.Applied.{tried, with_new_session};
ghost use Rattle.ucon_state.specs.Following.{Follows, IsFollowing};
ghost use Rattle.ucon_state.specs.Shown.{Shown};
ghost use Rattle.ucon_state.specs.Tables.{readings_in};
ghost use Rattle.ucon_accept.specs.Explanation.{explained, lines};
ghost use Rattle.ucon_accept.specs.Checking.{verdict_told};
ghost use Rattle.ucon_accept.specs.Judged.{MayBeJudged};
ghost use Rattle.ucon_accept.specs.Trying.{IsRight, admin, explained_with, explanation, refusal_shown};

use ucon_model::{readings_that_agree_are_one, typed_tests_make_no_set};
use ucon_state::{each_action_is_followed, tables_keep_what_is_followed};

/// A try that a state's tables don't refuse is explained by them as after each trace that they follow. So the explanation is right. Its session,
/// behind the others, may be judged, and is explained so.
pub fn tries_are_explained_as_shown()
    ensures after { (s : Shown) (P : PlainPolicy) (T : Trace) → Follows s P T → (u r o : Bytes) → refusal_shown s u r o ≡ None
        → explained_with s u r o ≡ explanation P T u r o }
    ensures right { (s : Shown) (u r o : Bytes) → refusal_shown s u r o ≡ None → IsRight s (explained_with s u r o) }
    ensures judged { (s : Shown) → IsFollowing s → (u r o : Bytes) → refusal_shown s u r o ≡ None
        → (row : SessionRow) (n : ℕ) → row ≡ tried admin u r o → n ≡ length s.tables.sessions + 1
        → MayBeJudged s.policy (readings_in s.policy (with_new_session s.tables row)) n row }
    ensures explained { (s : Shown) (u r o : Bytes) (row : SessionRow) (n : ℕ) → row ≡ tried admin u r o → n ≡ length s.tables.sessions + 1
        → explained s.policy (readings_in s.policy (with_new_session s.tables row)) n row ≡ explained_with s u r o }
{
    tables_keep_what_is_followed();
    each_action_is_followed();
    typed_tests_make_no_set();
    readings_that_agree_are_one();
}

/// The verdict that the right lines on a session lead to is the one of the definitions.
pub fn lines_lead_to_the_verdict()
    ensures { (P : PlainPolicy) (R : Readings) (n : ℕ) (row : SessionRow) → R.row n ≡ Some row → verdict_told (lines P R row) ≡ verdict P R n }
{}
