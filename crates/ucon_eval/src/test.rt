//! Whether the test of a predicate holds for a session.

ghost use Rattle.std.specs.Prelude.{◌≡◌, ◌+ℤ◌, int_le, IsSome, true};
ghost use Rattle.ucon_model.specs.Truth.{value_of, read_or_zero, holds, in_time, is_done, truth};
ghost use Rattle.ucon_model.specs.Comparison.{compares};
ghost use Rattle.ucon_model.specs.Views.{expr_of, formula_of, test_of};
ghost use Rattle.ucon_model.specs.Asked.{row_at};
ghost use Rattle.ucon_eval.specs.Worth.{worth_value};
ghost use Rattle.ucon_model.specs.Sums.{makes_no_set, formula_makes_no_set, test_makes_no_set};

use crate::arithmetic::later;
use crate::at_hand::value_at_hand;
use crate::worth::{Worth, values_compare};
use ucon_base::Int;
use ucon_model::{Expr, Form, Formula, Obligation, Op, Ref, Test, View};

/// What an expression is worth for a session. No recursion is entered for a literal or a place, as most are.
fn worth_of<'a, V: View>(view: &'a V, session: u32, e: &'a Expr) -> Worth<'a>
    requires there { IsSome ((V.readings view.now).row session) }
    requires no_set { makes_no_set ((V.readings view.now).at (row_at (V.readings view.now) session)) (expr_of e.now) ≡ true }
    ensures { worth_value result ≡ value_of ((V.readings view.now).at (row_at (V.readings view.now) session)) (expr_of e.now) }
{
    match e {
        Expr::Lit(v) => Worth::of(v),
        Expr::Read(place) => worth_at(view, session, place),
        _ => worth_of_parts(view, session, e),
    }
}

/// What stands at a place for a session.
fn worth_at<'a, V: View>(view: &'a V, session: u32, place: &Ref) -> Worth<'a>
    requires { IsSome ((V.readings view.now).row session) }
    ensures { worth_value result ≡ read_or_zero ((V.readings view.now).at (row_at (V.readings view.now) session) place.now) }
{
    match view.value(session, place) {
        Some(v) => Worth::of(v),
        None => Worth::Int(Int::zero()),
    }
}

/// What an expression is worth for a session, by what its parts are.
#[inline(never)]
fn worth_of_parts<'a, V: View>(view: &'a V, session: u32, e: &'a Expr) -> Worth<'a>
    requires there { IsSome ((V.readings view.now).row session) }
    requires no_set { makes_no_set ((V.readings view.now).at (row_at (V.readings view.now) session)) (expr_of e.now) ≡ true }
    ensures { worth_value result ≡ value_of ((V.readings view.now).at (row_at (V.readings view.now) session)) (expr_of e.now) }
{
    match e {
        Expr::Lit(v) => Worth::of(v),
        Expr::Read(place) => worth_at(view, session, place),
        Expr::Add(a, b) => {
            worth_of_parts(view, session, a).plus(&worth_of_parts(view, session, b))
        }
        Expr::Sub(a, b) => {
            worth_of_parts(view, session, a).minus(&worth_of_parts(view, session, b))
        }
        Expr::Mul(a, b) => {
            worth_of_parts(view, session, a).times(&worth_of_parts(view, session, b))
        }
        Expr::Size(a) => worth_of_parts(view, session, a).size(),
    }
}

/// Whether a formula holds for a session. No recursion is entered for a comparison or a duration, as most are.
#[inline(always)]
fn holds<V: View>(view: &V, session: u32, f: &Formula) -> bool
    requires there { IsSome ((V.readings view.now).row session) }
    requires no_set { formula_makes_no_set ((V.readings view.now).at (row_at (V.readings view.now) session)) (formula_of f.now) ≡ true }
    ensures { result ≡ holds (V.readings view.now) (row_at (V.readings view.now) session) (formula_of f.now) }
{
    match f {
        Formula::Compare(op, a, b) => compare(view, session, *op, a, b),
        Formula::Lasts(n) => lasts(view, session, *n),
        _ => holds_by_parts(view, session, f),
    }
}

/// Whether what two expressions are worth compares so. Literals and places, as most are, are compared where they lie.
#[inline(always)]
fn compare<V: View>(view: &V, session: u32, op: Op, a: &Expr, b: &Expr) -> bool
    requires there { IsSome ((V.readings view.now).row session) }
    requires no_set { makes_no_set ((V.readings view.now).at (row_at (V.readings view.now) session)) (expr_of a.now) ≡ true }
    requires no_set_either { makes_no_set ((V.readings view.now).at (row_at (V.readings view.now) session)) (expr_of b.now) ≡ true }
    ensures { result ≡ compares op (value_of ((V.readings view.now).at (row_at (V.readings view.now) session)) (expr_of a.now))
        (value_of ((V.readings view.now).at (row_at (V.readings view.now) session)) (expr_of b.now)) }
{
    if let Some(left) = value_at_hand(view, session, a) {
        if let Some(right) = value_at_hand(view, session, b) {
            return values_compare(op, left, right);
        }
    }
    worths_compare(view, session, op, a, b)
}

/// Whether what two expressions are worth compares so.
#[inline(never)]
fn worths_compare<V: View>(view: &V, session: u32, op: Op, a: &Expr, b: &Expr) -> bool
    requires there { IsSome ((V.readings view.now).row session) }
    requires no_set { makes_no_set ((V.readings view.now).at (row_at (V.readings view.now) session)) (expr_of a.now) ≡ true }
    requires no_set_either { makes_no_set ((V.readings view.now).at (row_at (V.readings view.now) session)) (expr_of b.now) ≡ true }
    ensures { result ≡ compares op (value_of ((V.readings view.now).at (row_at (V.readings view.now) session)) (expr_of a.now))
        (value_of ((V.readings view.now).at (row_at (V.readings view.now) session)) (expr_of b.now)) }
{
    worth_of(view, session, a).compares(op, &worth_of(view, session, b))
}

/// Whether a usage lasts no more than n ticks now.
fn lasts<V: View>(view: &V, session: u32, n: Int) -> bool
    requires { IsSome ((V.readings view.now).row session) }
    ensures { result ≡ int_le (V.readings view.now).now ((row_at (V.readings view.now) session).start +ℤ n) }
{
    is_within(view.tick(), start(view, session), n)
}

/// Whether a formula holds for a session, by whether its parts do.
#[inline(never)]
fn holds_by_parts<V: View>(view: &V, session: u32, f: &Formula) -> bool
    requires there { IsSome ((V.readings view.now).row session) }
    requires no_set { formula_makes_no_set ((V.readings view.now).at (row_at (V.readings view.now) session)) (formula_of f.now) ≡ true }
    ensures { result ≡ holds (V.readings view.now) (row_at (V.readings view.now) session) (formula_of f.now) }
{
    match f {
        Formula::And(f, g) => {
            holds_by_parts(view, session, f) && holds_by_parts(view, session, g)
        }
        Formula::Or(f, g) => {
            holds_by_parts(view, session, f) || holds_by_parts(view, session, g)
        }
        Formula::Not(f) => !holds_by_parts(view, session, f),
        Formula::Compare(op, a, b) => compare(view, session, *op, a, b),
        Formula::Lasts(n) => lasts(view, session, *n),
    }
}

/// The start of a session.
fn start<V: View>(view: &V, session: u32) -> Int
    requires there { IsSome ((V.readings view.now).row session) }
    ensures { result ≡ (row_at (V.readings view.now) session).start }
{
    let Some(start) = view.start(session) else {
        unreachable!()
    };
    start
}

/// Whether it is not yet more than n ticks since then. The sum is not clamped.
fn is_within(now: Int, since: Int, n: Int) -> bool
    ensures { result ≡ int_le now (since +ℤ n) }
{
    now.get() <= since.get() + n.get()
}

/// Whether an act last done then is in time.
fn in_time(now: Int, start: Int, form: Form, last: Option<Int>) -> bool
    ensures { result ≡ in_time now start form last }
{
    match form {
        Form::Done => last.is_some(),
        Form::Within(n) => match last {
            Some(moment) => is_within(now, moment, n),
            None => false,
        },
        Form::Every(n) => is_within(now, later(start, last.unwrap_or(start)), n),
    }
}

#[inline(never)]
fn is_done<V: View>(view: &V, session: u32, o: &Obligation) -> bool
    requires there { IsSome ((V.readings view.now).row session) }
    ensures { result ≡ is_done (V.readings view.now) (row_at (V.readings view.now) session) o.now }
{
    let last = view.done_at(session, o);
    in_time(view.tick(), start(view, session), o.form, last)
}

/// Whether a test is true for a session.
#[inline(always)]
pub fn is_true<V: View>(view: &V, session: u32, test: &Test) -> bool
    requires there { IsSome ((V.readings view.now).row session) }
    requires no_set { test_makes_no_set ((V.readings view.now).at (row_at (V.readings view.now) session)) (test_of test.now) ≡ true }
    ensures { result ≡ truth (V.readings view.now) (row_at (V.readings view.now) session) (test_of test.now) }
{
    match test {
        Test::Authorisation(f) | Test::Condition(f) => holds(view, session, f),
        Test::Obligation(o) => is_done(view, session, o),
    }
}
