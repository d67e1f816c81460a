//! What a test asks for: places, an act of somebody, and the tick.

ghost use Rattle.std.specs.Prelude.{◌≡◌, unwrap_or};
ghost use Rattle.ucon_model.specs.Places.{same_place};
ghost use Rattle.ucon_model.specs.Views.{formula_of};
ghost use Rattle.ucon_accept.specs.Facts.{asks_tick, is_timed};

use ucon_base::Name;
use ucon_model::{Form, Formula, Ref};

/// Whether two places are the same.
pub fn is_same_place(a: &Ref, b: &Ref) -> bool
    ensures { result ≡ same_place a.now b.now }
{
    match (a, b) {
        (Ref::Subject(x), Ref::Subject(y)) => x == y,
        (Ref::Object(x), Ref::Object(y)) => x == y,
        (Ref::Env(x), Ref::Env(y)) => x == y,
        _ => false,
    }
}

/// Whether an act may be too long ago.
pub fn is_timed(form: Form) -> bool
    ensures { result ≡ is_timed form }
{
    !matches!(form, Form::Done)
}

/// Whether a formula asks how long the usage has lasted.
pub fn asks_tick(f: &Formula) -> bool
    ensures { result ≡ asks_tick (formula_of f.now) }
{
    match f {
        Formula::And(f, g) | Formula::Or(f, g) => asks_tick(f) || asks_tick(g),
        Formula::Not(f) => asks_tick(f),
        Formula::Compare(_, _, _) => false,
        Formula::Lasts(_) => true,
    }
}

/// The name that is given, or else this one.
pub fn name_or<'a>(given: &'a Option<Name>, own: &'a Name) -> &'a Name
    ensures { result.now ≡ unwrap_or given.now own.now }
{
    match given {
        Some(name) => name,
        None => own,
    }
}
