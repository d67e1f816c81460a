//! The places that expressions, predicates and updates read.

ghost use Rattle.std.specs.Prelude.{◌≡◌, [], ◌++◌, ◌<◌, length, map, fold, filter, slice_get, option_map, Some, IfOk, OnOk};
ghost use Rattle.std.specs.List.{list_any, flat_map};
ghost use Rattle.ucon_model.specs.Checked.{checked_policy};
ghost use Rattle.ucon_model.specs.Views.{expr_of, formula_of, test_of, right_of};
ghost use Rattle.ucon_model.specs.Places.{expr_places, formula_places, test_places, attr_place, same_place, with_place, places_read};

use std::alloc::Global;
use ucon_base::{Name, NoMemory, Rows, Side};
use ucon_model::{Checked, Expr, Formula, Ref, Right, Test};

/// Adds each place that an expression reads and that isn't there yet.
fn put_expr(e: &Expr, places: &mut Vec<Ref>) -> Result<(), NoMemory>
    ensures { OnOk result (places.new.items ≡ fold with_place places.old.items (expr_places (expr_of e.now))) }
{
    match e {
        Expr::Lit(_) => Ok(()),
        Expr::Read(place) => {
            if !is_among(place, places) {
                places.push(*place)?;
            }
            Ok(())
        }
        Expr::Add(a, b) => {
            put_expr(a, places)?;
            put_expr(b, places)
        }
        Expr::Sub(a, b) => {
            put_expr(a, places)?;
            put_expr(b, places)
        }
        Expr::Mul(a, b) => {
            put_expr(a, places)?;
            put_expr(b, places)
        }
        Expr::Size(a) => put_expr(a, places),
    }
}

/// Adds each place that a formula reads and that isn't there yet.
fn put_formula(f: &Formula, places: &mut Vec<Ref>) -> Result<(), NoMemory>
    ensures { OnOk result (places.new.items ≡ fold with_place places.old.items (formula_places (formula_of f.now))) }
{
    match f {
        Formula::And(f, g) => {
            put_formula(f, places)?;
            put_formula(g, places)
        }
        Formula::Or(f, g) => {
            put_formula(f, places)?;
            put_formula(g, places)
        }
        Formula::Not(f) => put_formula(f, places),
        Formula::Compare(_, a, b) => {
            put_expr(a, places)?;
            put_expr(b, places)
        }
        Formula::Lasts(_) => Ok(()),
    }
}

/// Adds each place that a test reads and that isn't there yet.
fn put_test(test: &Test, places: &mut Vec<Ref>) -> Result<(), NoMemory>
    ensures { OnOk result (places.new.items ≡ fold with_place places.old.items (test_places (test_of test.now))) }
{
    match test {
        Test::Authorisation(f) => put_formula(f, places),
        Test::Obligation(_) => Ok(()),
        Test::Condition(f) => put_formula(f, places),
    }
}

/// The place of an attribute of a side.
pub fn attr_place(side: Side, attr: &Name) -> Ref
    ensures { result ≡ attr_place side attr.now }
{
    match side {
        Side::Subject => Ref::Subject(*attr),
        Side::Object => Ref::Object(*attr),
    }
}

/// Tells whether two places are the same: of one sort, and of one name.
pub fn same_place(p: &Ref, q: &Ref) -> bool
    ensures { result ≡ same_place p.now q.now }
{
    match (p, q) {
        (Ref::Subject(a), Ref::Subject(b)) => a == b,
        (Ref::Object(a), Ref::Object(b)) => a == b,
        (Ref::Env(a), Ref::Env(b)) => a == b,
        _ => false,
    }
}

fn is_among(place: &Ref, places: &[Ref]) -> bool
    ensures { result ≡ list_any (same_place place.now) places.now }
{
    places.iter().any(|p| same_place(place, p))
}

/// The distinct places that a right's ongoing predicates read, in the order of their first reading.
pub fn places_read(alloc: Global, right: &Right) -> Result<Rows<Ref>, NoMemory>
    ensures { IfOk result (λ rows. rows.items ≡ places_read (right_of right.now)) }
{
    let mut places = Vec::new(alloc);
    for p in right.preds.slice() {
        if p.is_ongoing() {
            put_test(&p.test, &mut places)?;
        }
    }
    Ok(Rows::from(places))
}

/// The distinct places that the ongoing predicates of a right of the policy, by its position from 0, read, in the order of their first
/// reading.
pub fn reads(alloc: Global, checked: &Checked, right: u32) -> Result<Rows<Ref>, NoMemory>
    requires { right < length (checked_policy checked.now).rights }
    ensures { IfOk result (λ rows. option_map places_read (slice_get (checked_policy checked.now).rights right) ≡ Some rows.items) }
{
    let rights = checked.policy().rights.slice();
    places_read(alloc, &rights[right as usize])
}
