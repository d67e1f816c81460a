//! Which sessions may share a judgement.

ghost use Rattle.std.specs.Prelude.{◌≡◌, ◌&&◌, ◌∷◌, [], None, false, IfSome, IsFalse, IsTrue, Some};
ghost use Rattle.std.specs.List.{list_any};
ghost use Rattle.ucon_base.specs.declared.value.Side.TheVariants as sides;
ghost use Rattle.ucon_cascade.specs.Kinds.{IsOfKind};
ghost use Rattle.ucon_model.specs.Groups.{is_of_side};
ghost use Rattle.ucon_model.specs.declared.session.SessionRow.{SessionRow};
ghost use Rattle.ucon_model.specs.Decision.{ongoing};
ghost use Rattle.ucon_model.specs.Places.{expr_places, formula_places, places_read, test_places};
ghost use Rattle.ucon_model.specs.Reach.{formula_timed, places_of, right_timed, test_timed, timed_of};
ghost use Rattle.ucon_model.specs.Views.{expr_of, formula_of, predicate_of, right_of, test_of};
ghost use Rattle.ucon_state.specs.Shown.{shown};
ghost use Rattle.ucon_state.specs.Tables.{session_in};
ghost use Rattle.ucon_readers.specs.Limits.{timed_parts};

use ucon_base::Side;
use ucon_model::{Expr, Formula, Predicate, Ref, Right, Test, View};
use ucon_readers::Kind;
use ucon_state::{Numbers, State};

/// The kind of session n, which has this right. None if time decides over a part of the right, so that it is judged alone, and if there is no such
/// session.
pub fn kind_of(state: &State, n: u32, right: &Right) -> Option<Kind>
    ensures kind { IfSome result (IsOfKind state.now n) }
    ensures untimed { IfSome result (λ kind. right_timed (right_of right.now) ≡ []) }
    ensures subject { IfSome result (λ kind. kind.subject ≡ None
        → list_any (is_of_side sides.Subject) (places_read (right_of right.now)) ≡ false) }
    ensures object { IfSome result (λ kind. kind.object ≡ None
        → list_any (is_of_side sides.Object) (places_read (right_of right.now)) ≡ false) }
{
    if is_timed(right) {
        return None;
    }
    let numbers = state.numbers(n)?;
    let subject = if_read(reads_of(Side::Subject, right), numbers.subject);
    let object = if_read(reads_of(Side::Object, right), numbers.object);
    Some(Kind {
        right: numbers.right,
        subject,
        object,
    })
}

/// The number of an entity, if its side is read.
fn if_read(is_read: bool, number: u32) -> Option<u32>
    ensures some { IfSome result (λ it. it ≡ number) }
    ensures none { result ≡ None → is_read ≡ false }
{
    if is_read { Some(number) } else { None }
}

/// Whether session n is of a kind.
pub fn is_of_kind(state: &State, n: u32, kind: &Kind) -> bool
    ensures { IsTrue result → IsOfKind state.now n kind.now }
{
    match state.numbers(n) {
        Some(numbers) => have_kind(&numbers, kind),
        None => false,
    }
}

/// Whether these numbers are those of a kind.
fn have_kind(numbers: &Numbers, kind: &Kind) -> bool
    ensures right { IsTrue result → numbers.now.right ≡ kind.now.right }
    ensures subject { IsTrue result → IfSome kind.now.subject (λ it. it ≡ numbers.now.subject) }
    ensures object { IsTrue result → IfSome kind.now.object (λ it. it ≡ numbers.now.object) }
{
    numbers.right == kind.right
        && is_or_any(kind.subject, numbers.subject)
        && is_or_any(kind.object, numbers.object)
}

/// Whether a number is the one that is wanted, if one is.
fn is_or_any(wanted: Option<u32>, number: u32) -> bool
    ensures { IsTrue result → IfSome wanted (λ it. it ≡ number) }
{
    match wanted {
        Some(it) => it == number,
        None => true,
    }
}

/// Whether a right's ongoing predicates read an attribute of a side's entity.
fn reads_of(side: Side, right: &Right) -> bool
    ensures { IsFalse result → list_any (is_of_side side) (places_read (right_of right.now)) ≡ false }
{
    any_reads(side, right.preds.slice())
}

/// Whether one of these predicates is ongoing and reads an attribute of a side's entity.
fn any_reads(side: Side, preds: &[Predicate]) -> bool
    ensures { result ≡ list_any (λ p. ongoing (predicate_of p) && list_any (is_of_side side) (test_places (predicate_of p).test)) preds.now }
{
    preds
        .iter()
        .any(|p| p.is_ongoing() && test_reads(side, &p.test))
}

/// Whether a test reads an attribute of a side's entity.
fn test_reads(side: Side, test: &Test) -> bool
    ensures { result ≡ list_any (is_of_side side) (test_places (test_of test.now)) }
{
    match test {
        Test::Authorisation(f) => formula_reads(side, f),
        Test::Obligation(_) => false,
        Test::Condition(f) => formula_reads(side, f),
    }
}

/// Whether a formula reads an attribute of a side's entity. No recursion is entered for a comparison or a duration, as most are.
#[inline(always)]
#[tactic(auto, using(crate::proofs::Sides::any_of_both))]
fn formula_reads(side: Side, f: &Formula) -> bool
    ensures { result ≡ list_any (is_of_side side) (formula_places (formula_of f.now)) }
{
    match f {
        Formula::Compare(_, a, b) => expr_reads(side, a) || expr_reads(side, b),
        Formula::Lasts(_) => false,
        _ => formula_parts_read(side, f),
    }
}

/// The same, by whether its parts do.
#[inline(never)]
#[tactic(auto, using(crate::proofs::Sides::any_of_both))]
fn formula_parts_read(side: Side, f: &Formula) -> bool
    ensures { result ≡ list_any (is_of_side side) (formula_places (formula_of f.now)) }
{
    match f {
        Formula::And(f, g) => formula_parts_read(side, f) || formula_parts_read(side, g),
        Formula::Or(f, g) => formula_parts_read(side, f) || formula_parts_read(side, g),
        Formula::Not(f) => formula_parts_read(side, f),
        Formula::Compare(_, a, b) => expr_reads(side, a) || expr_reads(side, b),
        Formula::Lasts(_) => false,
    }
}

/// Whether an expression reads an attribute of a side's entity. No recursion is entered for a literal or a place, as most are.
#[inline(always)]
#[tactic(auto, using(crate::proofs::Sides::any_of_one))]
fn expr_reads(side: Side, e: &Expr) -> bool
    ensures { result ≡ list_any (is_of_side side) (expr_places (expr_of e.now)) }
{
    match e {
        Expr::Lit(_) => false,
        Expr::Read(place) => is_of(side, place),
        _ => expr_parts_read(side, e),
    }
}

/// The same, by whether its parts do.
#[inline(never)]
#[tactic(auto, using(crate::proofs::Sides::any_of_one, crate::proofs::Sides::any_of_both))]
fn expr_parts_read(side: Side, e: &Expr) -> bool
    ensures { result ≡ list_any (is_of_side side) (expr_places (expr_of e.now)) }
{
    match e {
        Expr::Lit(_) => false,
        Expr::Read(place) => is_of(side, place),
        Expr::Add(a, b) => expr_parts_read(side, a) || expr_parts_read(side, b),
        Expr::Sub(a, b) => expr_parts_read(side, a) || expr_parts_read(side, b),
        Expr::Mul(a, b) => expr_parts_read(side, a) || expr_parts_read(side, b),
        Expr::Size(a) => expr_parts_read(side, a),
    }
}

/// Whether a place is of a side's entity.
fn is_of(side: Side, place: &Ref) -> bool
    ensures { result ≡ is_of_side side place.now }
{
    match (side, place) {
        (Side::Subject, Ref::Subject(_)) => true,
        (Side::Object, Ref::Object(_)) => true,
        _ => false,
    }
}

/// Whether the right of session n has a predicate that is asked while the usage goes on.
pub fn asks_while_it_goes_on(state: &State, n: u32) -> bool
    ensures places { IsFalse result → (row : SessionRow) → session_in (shown state.now).tables n ≡ Some row
        → places_of (shown state.now).policy row ≡ [] }
    ensures timed { IsFalse result → (row : SessionRow) → session_in (shown state.now).tables n ≡ Some row
        → timed_of (shown state.now).policy row ≡ [] }
{
    match state.right(n) {
        Some(right) => has_ongoing(right.preds.slice()),
        None => false,
    }
}

/// Whether one of these predicates is asked while the usage goes on.
fn has_ongoing(preds: &[Predicate]) -> bool
    ensures { result ≡ list_any (λ p. ongoing (predicate_of p)) preds.now }
{
    preds.iter().any(|p| p.is_ongoing())
}

/// Whether time decides over a part of a right's ongoing predicates.
fn is_timed(right: &Right) -> bool
    ensures { IsFalse result → right_timed (right_of right.now) ≡ [] }
{
    for p in right.preds.slice() {
        if is_predicate_timed(p) {
            return true;
        }
    }
    false
}

/// Whether a predicate is ongoing and has a timed part.
fn is_predicate_timed(p: &Predicate) -> bool
    ensures { IsFalse result → timed_parts (predicate_of p.now ∷ []) ≡ [] }
{
    p.is_ongoing() && is_test_timed(&p.test)
}

/// Whether a test has a timed part.
fn is_test_timed(test: &Test) -> bool
    ensures { IsFalse result → test_timed (test_of test.now) ≡ [] }
{
    match test {
        Test::Authorisation(f) => is_formula_timed(f),
        Test::Obligation(_) => true,
        Test::Condition(f) => is_formula_timed(f),
    }
}

/// Whether a formula has a timed part.
fn is_formula_timed(f: &Formula) -> bool
    ensures { IsFalse result → formula_timed (formula_of f.now) ≡ [] }
{
    match f {
        Formula::And(f, g) => is_formula_timed(f) || is_formula_timed(g),
        Formula::Or(f, g) => is_formula_timed(f) || is_formula_timed(g),
        Formula::Not(f) => is_formula_timed(f),
        Formula::Compare(..) => false,
        Formula::Lasts(_) => true,
    }
}
