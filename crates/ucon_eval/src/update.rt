//! What an update writes.

ghost use Rattle.std.specs.Prelude.{◌≡◌, map, option_map, option_copied, IfOk, IsSome, Some};
ghost use Rattle.ucon_model.specs.Truth.{read_or_zero, value_of};
ghost use Rattle.ucon_model.specs.Updates.{fitted_to};
ghost use Rattle.ucon_model.specs.Views.{expr_of, update_of};
ghost use Rattle.ucon_model.specs.Asked.{row_at, result_read, update_at, result_at};
ghost use Rattle.ucon_eval.specs.Operation.{combined};

use crate::arithmetic::{difference, fitted, fitted_integer, product, size, sum};
use crate::at_hand::integer;
use std::alloc::Global;
use ucon_base::{Int, NoMemory, Value};
use ucon_model::{AttrDecl, Expr, Update, View};

/// An operator between two expressions.
#[derive(Clone, Copy)]
enum Operator {
    Plus,
    Minus,
    Times,
}

/// The value of two under an operator.
fn combined(alloc: Global, operator: Operator, a: Value, b: Value) -> Result<Value, NoMemory>
    ensures { IfOk result (λ v. v ≡ combined operator a b) }
{
    match operator {
        Operator::Plus => sum(alloc, a, b),
        Operator::Minus => difference(alloc, a, b),
        Operator::Times => Ok(product(a, b)),
    }
}

/// A copy of the value that a place holds; a place that isn't there reads as 0.
fn copy_or_zero(alloc: Global, held: Option<&Value>) -> Result<Value, NoMemory>
    ensures { IfOk result (λ v. v ≡ read_or_zero (option_copied held.entry)) }
{
    match held {
        Some(v) => v.copy(alloc),
        None => Ok(Value::Int(Int::zero())),
    }
}

/// The value of an expression, of a session that is there.
fn value_of<V: View>(alloc: Global, view: &V, session: u32, e: &Expr) -> Result<Value, NoMemory>
    requires { IsSome ((V.readings view.now).row session) }
    ensures { IfOk result (λ v. v ≡ value_of ((V.readings view.now).at (row_at (V.readings view.now) session)) (expr_of e.now)) }
{
    let (operator, a, b) = match e {
        Expr::Lit(v) => return v.copy(alloc),
        Expr::Read(place) => return copy_or_zero(alloc, view.value(session, place)),
        Expr::Size(a) => return Ok(size(value_of(alloc, view, session, a)?)),
        Expr::Add(a, b) => (Operator::Plus, a, b),
        Expr::Sub(a, b) => (Operator::Minus, a, b),
        Expr::Mul(a, b) => (Operator::Times, a, b),
    };
    let left = value_of(alloc, view, session, a)?;
    combined(alloc, operator, left, value_of(alloc, view, session, b)?)
}

/// The value as the attribute keeps it.
fn fitted_to(attr: Option<&AttrDecl>, v: Value) -> Value
    ensures { result ≡ fitted_to (option_copied attr.entry) v }
{
    match attr {
        Some(a) => fitted(&a.kind, v),
        None => v,
    }
}

/// The integer as the attribute keeps it.
fn integer_fitted_to(attr: Option<&AttrDecl>, n: Int) -> Int
    ensures { Value.Int result ≡ fitted_to (option_copied attr.entry) (Value.Int n) }
{
    match attr {
        Some(a) => fitted_integer(&a.kind, n),
        None => n,
    }
}

/// What an update writes for a session, by what the parts of its expression are.
#[inline(never)]
fn result_by_parts<V: View>(
    alloc: Global,
    view: &V,
    session: u32,
    u: &Update,
) -> Result<Value, NoMemory>
    requires { IsSome ((V.readings view.now).row session) }
    ensures { IfOk result (λ v. v ≡ result_read (V.policy view.now) (V.readings view.now) (row_at (V.readings view.now) session) (update_of u.now)) }
{
    let value = value_of(alloc, view, session, &u.value)?;
    let policy = view.checked().policy();
    Ok(fitted_to(policy.attr(u.side, &u.attr), value))
}

/// What an update writes for a session.
fn result_of<V: View>(alloc: Global, view: &V, session: u32, u: &Update) -> Result<Value, NoMemory>
    requires { IsSome ((V.readings view.now).row session) }
    ensures { IfOk result (λ v. v ≡ result_read (V.policy view.now) (V.readings view.now) (row_at (V.readings view.now) session) (update_of u.now)) }
{
    let attr = view.checked().policy().attr(u.side, &u.attr);
    if let Some(n) = integer(view, session, &u.value) {
        return Ok(Value::Int(integer_fitted_to(attr, n)));
    }
    result_by_parts(alloc, view, session, u)
}

/// An update of the session's right by its position, from 0.
#[tactic(auto, using(crate::proofs::Places::place_of_view, crate::proofs::Rows::right_at))]
fn update_at<V: View>(view: &V, session: u32, at: u32) -> Option<&Update>
    requires { IsSome ((V.readings view.now).row session) }
    ensures { option_map update_of (option_copied result) ≡ update_at (V.policy view.now) (row_at (V.readings view.now) session) at }
{
    let right = view.right(session)?;
    right.updates.at(at as usize)
}

/// The result of an update of the session's right, by its position from 0: its expression's value, clamped to the declared range if the attribute
/// is an integer.
pub fn result<V: View>(
    alloc: Global,
    view: &V,
    session: u32,
    update: u32,
) -> Result<Value, NoMemory>
    requires { IsSome (result_at (V.policy view.now) (V.readings view.now) session update) }
    ensures { IfOk result (λ v. result_at (V.policy view.now) (V.readings view.now) session update ≡ Some v) }
{
    let Some(u) = update_at(view, session, update) else {
        unreachable!()
    };
    result_of(alloc, view, session, u)
}
