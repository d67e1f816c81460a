//! Laws of explanations. A law is a function without parameters that does nothing: its contract is what is proved.

ghost use Rattle.std.specs.Prelude.{◌≡◌};
ghost use Rattle.ucon_model.specs.Action.{Trace};
ghost use Rattle.ucon_model.specs.History.{Agree};
ghost use Rattle.ucon_model.specs.Plain.{Bytes, PlainPolicy};
ghost use Rattle.ucon_model.specs.Readings.{in_force};
ghost use Rattle.ucon_model.specs.Truth.{readings};
ghost use Rattle.ucon_accept.specs.Trying.{explanation};

use ucon_accept::lines_lead_to_the_verdict;
use ucon_model::readings_that_agree_are_one;

/// Traces under one policy that give the same to read have the same explanation of every try.
pub fn traces_that_read_alike_are_explained_alike()
    ensures { (P : PlainPolicy) (T : Trace) (Q : PlainPolicy) (U : Trace) → in_force P T ≡ in_force Q U → Agree (readings P T) (readings Q U)
        → (s r o : Bytes) → explanation P T s r o ≡ explanation Q U s r o }
{
    readings_that_agree_are_one();
    lines_lead_to_the_verdict();
}
