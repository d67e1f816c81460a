//! Laws of what is asked over a view. A law is a function without parameters that does nothing: its contract is what is proved.

ghost use Rattle.std.specs.Prelude.{◌≡◌, ℕ, true};
ghost use Rattle.ucon_model.specs.declared.session.SessionRow.{SessionRow};
ghost use Rattle.ucon_model.specs.Plain.{PlainPolicy, PlainUpdate};
ghost use Rattle.ucon_model.specs.Action.{Trace};
ghost use Rattle.ucon_model.specs.Readings.{in_force};
ghost use Rattle.ucon_model.specs.Truth.{Readings, readings};
ghost use Rattle.ucon_model.specs.Decision.{failing, verdict};
ghost use Rattle.ucon_model.specs.Fitting.{ValuesFit};
ghost use Rattle.ucon_model.specs.History.{Agree};
ghost use Rattle.ucon_model.specs.Typing.{IsTyped};
ghost use Rattle.ucon_model.specs.Updates.{result as trace_result};
ghost use Rattle.ucon_model.specs.Asked.{truth_at, result_at, result_read, makes_no_set_at};
ghost use Rattle.ucon_model.specs.Sums.{tests_make_no_set};

use crate::laws::{places_hold_their_sorts, tests_are_typed};

/// Over the readings of a trace, an update's result is the trace's.
pub fn results_are_those_of_the_trace()
    ensures { (P : PlainPolicy) (T : Trace) (row : SessionRow) (u : PlainUpdate)
        → result_read (in_force P T) (readings P T) row u ≡ trace_result P T row u }
{}

/// Readings that agree point by point decide alike. So what holds over the readings of a history's trace holds over every view that
/// stands for the history.
pub fn views_that_agree_decide_alike()
    ensures truth { (P : PlainPolicy) (R S : Readings) (n i : ℕ) → Agree R S → truth_at P R n i ≡ truth_at P S n i }
    ensures verdict { (P : PlainPolicy) (R S : Readings) (n : ℕ) → Agree R S → verdict P R n ≡ verdict P S n }
    ensures failing { (P : PlainPolicy) (R S : Readings) (n : ℕ) → Agree R S → failing P R n ≡ failing P S n }
    ensures result { (P : PlainPolicy) (R S : Readings) (n i : ℕ) → Agree R S → result_at P R n i ≡ result_at P S n i }
{}

/// The tests of the policy in force make no set, if it is well typed and all values fit after a trace. That holds over readings that agree with
/// the trace's. `truth`, `verdict` and `failing` ask it of a view.
pub fn typed_tests_make_no_set()
    ensures all { (P : PlainPolicy) (T : Trace) (R : Readings) → IsTyped (in_force P T) → ValuesFit P T → Agree R (readings P T)
        → (n : ℕ) → tests_make_no_set (in_force P T) R n ≡ true }
    ensures one { (P : PlainPolicy) (T : Trace) (R : Readings) → IsTyped (in_force P T) → ValuesFit P T → Agree R (readings P T)
        → (n i : ℕ) → makes_no_set_at (in_force P T) R n i ≡ true }
{
    places_hold_their_sorts();
    tests_are_typed();
}
