//! Which places expressions, tests and updates read, without memory.

ghost use Rattle.std.specs.Prelude.{◌≡◌, [], ◌∷◌};
ghost use Rattle.std.specs.List.{list_any};
ghost use Rattle.ucon_model.specs.Places.{expr_places, formula_places, test_places, update_places};
ghost use Rattle.ucon_model.specs.Typing.{name_of, is_declared, undeclared, is_variable};
ghost use Rattle.ucon_model.specs.Views.{expr_of, formula_of, test_of, update_of, right_of, policy_of};
ghost use Rattle.ucon_check.specs.Sought.{fits, is_read};

use crate::places::{attr_place, same_place};
use crate::sorts::place_sort;
use ucon_base::Name;
use ucon_model::{Expr, Formula, Policy, Ref, Right, Test, Update};

/// What is looked for among the places that are read.
#[derive(Clone, Copy)]
pub enum Sought {
    Variable,
    Attribute,
    This(Ref),
}

fn name_of(place: &Ref) -> Name
    ensures { result ≡ name_of place.now }
{
    match place {
        Ref::Subject(attr) => *attr,
        Ref::Object(attr) => *attr,
        Ref::Env(name) => *name,
    }
}

fn is_declared(policy: &Policy, place: &Ref) -> bool
    ensures { result ≡ is_declared (policy_of policy.now) place.now }
{
    place_sort(policy, place).is_some()
}

fn is_variable(place: &Ref) -> bool
    ensures { result ≡ is_variable place.now }
{
    matches!(place, Ref::Env(_))
}

fn fits(sought: &Sought, place: &Ref) -> bool
    ensures { result ≡ fits sought.now place.now }
{
    match sought {
        Sought::Variable => is_variable(place),
        Sought::Attribute => !is_variable(place),
        Sought::This(this) => same_place(this, place),
    }
}

/// Whether an expression reads a place that is sought.
#[tactic(auto, using(crate::proofs::Searches::any_of_one, crate::proofs::Searches::any_of_both))]
fn expr_reads(sought: &Sought, e: &Expr) -> bool
    ensures { result ≡ list_any (fits sought.now) (expr_places (expr_of e.now)) }
{
    match e {
        Expr::Lit(_) => false,
        Expr::Read(place) => fits(sought, place),
        Expr::Add(a, b) => expr_reads(sought, a) || expr_reads(sought, b),
        Expr::Sub(a, b) => expr_reads(sought, a) || expr_reads(sought, b),
        Expr::Mul(a, b) => expr_reads(sought, a) || expr_reads(sought, b),
        Expr::Size(a) => expr_reads(sought, a),
    }
}

/// Whether a formula reads a place that is sought.
#[tactic(auto, using(crate::proofs::Searches::any_of_both))]
pub fn formula_reads(sought: &Sought, f: &Formula) -> bool
    ensures { result ≡ list_any (fits sought.now) (formula_places (formula_of f.now)) }
{
    match f {
        Formula::And(f, g) => formula_reads(sought, f) || formula_reads(sought, g),
        Formula::Or(f, g) => formula_reads(sought, f) || formula_reads(sought, g),
        Formula::Not(f) => formula_reads(sought, f),
        Formula::Compare(_, a, b) => expr_reads(sought, a) || expr_reads(sought, b),
        Formula::Lasts(_) => false,
    }
}

/// Whether a test reads a place that is sought.
fn test_reads(sought: &Sought, test: &Test) -> bool
    ensures { result ≡ list_any (fits sought.now) (test_places (test_of test.now)) }
{
    match test {
        Test::Authorisation(f) => formula_reads(sought, f),
        Test::Obligation(_) => false,
        Test::Condition(f) => formula_reads(sought, f),
    }
}

/// Whether an update writes or reads a place that is sought.
pub fn update_reads(sought: &Sought, u: &Update) -> bool
    ensures { result ≡ list_any (fits sought.now) (update_places (update_of u.now)) }
{
    fits(sought, &attr_place(u.side, &u.attr)) || expr_reads(sought, &u.value)
}

/// The name of a place, if it isn't declared.
fn if_undeclared(policy: &Policy, place: &Ref) -> Option<Name>
    ensures { result ≡ undeclared (policy_of policy.now) (place.now ∷ []) }
{
    if is_declared(policy, place) {
        None
    } else {
        Some(name_of(place))
    }
}

/// The leftmost name in an expression that isn't declared.
#[tactic(auto, using(crate::proofs::Searches::unknown_in_both))]
fn undeclared_in_expr(policy: &Policy, e: &Expr) -> Option<Name>
    ensures { result ≡ undeclared (policy_of policy.now) (expr_places (expr_of e.now)) }
{
    match e {
        Expr::Lit(_) => None,
        Expr::Read(place) => if_undeclared(policy, place),
        Expr::Add(a, b) => undeclared_in_expr(policy, a).or(undeclared_in_expr(policy, b)),
        Expr::Sub(a, b) => undeclared_in_expr(policy, a).or(undeclared_in_expr(policy, b)),
        Expr::Mul(a, b) => undeclared_in_expr(policy, a).or(undeclared_in_expr(policy, b)),
        Expr::Size(a) => undeclared_in_expr(policy, a),
    }
}

/// The leftmost name in a formula that isn't declared.
#[tactic(auto, using(crate::proofs::Searches::unknown_in_both))]
fn undeclared_in_formula(policy: &Policy, f: &Formula) -> Option<Name>
    ensures { result ≡ undeclared (policy_of policy.now) (formula_places (formula_of f.now)) }
{
    match f {
        Formula::And(f, g) => {
            undeclared_in_formula(policy, f).or(undeclared_in_formula(policy, g))
        }
        Formula::Or(f, g) => undeclared_in_formula(policy, f).or(undeclared_in_formula(policy, g)),
        Formula::Not(f) => undeclared_in_formula(policy, f),
        Formula::Compare(_, a, b) => {
            undeclared_in_expr(policy, a).or(undeclared_in_expr(policy, b))
        }
        Formula::Lasts(_) => None,
    }
}

/// The leftmost name in a test that isn't declared.
pub fn undeclared_in_test(policy: &Policy, test: &Test) -> Option<Name>
    ensures { result ≡ undeclared (policy_of policy.now) (test_places (test_of test.now)) }
{
    match test {
        Test::Authorisation(f) => undeclared_in_formula(policy, f),
        Test::Obligation(_) => None,
        Test::Condition(f) => undeclared_in_formula(policy, f),
    }
}

/// The leftmost name in an update that isn't declared, where the attribute that it writes stands first.
#[tactic(auto, using(crate::proofs::Searches::unknown_in_both))]
pub fn undeclared_in_update(policy: &Policy, u: &Update) -> Option<Name>
    ensures { result ≡ undeclared (policy_of policy.now) (update_places (update_of u.now)) }
{
    let written = if_undeclared(policy, &attr_place(u.side, &u.attr));
    written.or(undeclared_in_expr(policy, &u.value))
}

/// Whether a right's ongoing predicates read a place.
pub fn is_read(right: &Right, place: &Ref) -> bool
    ensures { result ≡ is_read (right_of right.now) place.now }
{
    for p in right.preds.slice() {
        if p.is_ongoing() && test_reads(&Sought::This(*place), &p.test) {
            return true;
        }
    }
    false
}
