//! Values of expressions that are at hand: literals, and places that are there. They are read where they lie, and nothing is made.

ghost use Rattle.std.specs.Prelude.{◌≡◌, IfSome, IsSome, option_copied};
ghost use Rattle.ucon_base.specs.declared.value.Value.TheVariants.{Int as IntValue};
ghost use Rattle.ucon_model.specs.Truth.{value_of};
ghost use Rattle.ucon_model.specs.Views.{expr_of};
ghost use Rattle.ucon_model.specs.Asked.{row_at};

use ucon_base::{Int, Value};
use ucon_model::{Expr, View};

/// The value of a literal, or of a place that is there.
#[inline(always)]
pub fn value_at_hand<'a, V: View>(view: &'a V, session: u32, e: &'a Expr) -> Option<&'a Value>
    requires { IsSome ((V.readings view.now).row session) }
    ensures { IfSome (option_copied result) (λ v. value_of ((V.readings view.now).at (row_at (V.readings view.now) session)) (expr_of e.now) ≡ v) }
{
    match e {
        Expr::Lit(v) => Some(v),
        Expr::Read(place) => view.value(session, place),
        _ => None,
    }
}

/// The integer that is at hand.
fn integer_at_hand<V: View>(view: &V, session: u32, e: &Expr) -> Option<Int>
    requires { IsSome ((V.readings view.now).row session) }
    ensures { IfSome result (λ n. value_of ((V.readings view.now).at (row_at (V.readings view.now) session)) (expr_of e.now) ≡ IntValue n) }
{
    match value_at_hand(view, session, e)? {
        Value::Int(n) => Some(*n),
        _ => None,
    }
}

/// The integer that an expression is, if what it counts with is at hand, as mostly.
pub fn integer<V: View>(view: &V, session: u32, e: &Expr) -> Option<Int>
    requires { IsSome ((V.readings view.now).row session) }
    ensures { IfSome result (λ n. value_of ((V.readings view.now).at (row_at (V.readings view.now) session)) (expr_of e.now) ≡ IntValue n) }
{
    match e {
        Expr::Add(a, b) => {
            let left = integer_at_hand(view, session, a)?;
            Some(left.add(integer_at_hand(view, session, b)?))
        }
        Expr::Sub(a, b) => {
            let left = integer_at_hand(view, session, a)?;
            Some(left.sub(integer_at_hand(view, session, b)?))
        }
        Expr::Mul(a, b) => {
            let left = integer_at_hand(view, session, a)?;
            Some(left.mul(integer_at_hand(view, session, b)?))
        }
        _ => integer_at_hand(view, session, e),
    }
}
