//! A policy with what its rights ask while a usage goes on, made ready to be asked often.

ghost use Rattle.std.specs.Prelude.{◌≡◌, ◌<◌, ◌≤ℤ◌, ℤ, length, slice_get, option_copied, IfOk, IfSome, IsSome, Some, true};
ghost use Rattle.ucon_base.specs.declared.value.Value.TheVariants.{Int as IntValue};
ghost use Rattle.ucon_model.specs.Checked.{checked_policy};
ghost use Rattle.ucon_model.specs.Comparison.{compares};
ghost use Rattle.ucon_model.specs.Plain.{PlainRight};
ghost use Rattle.ucon_model.specs.Truth.{holds, truth};
ghost use Rattle.ucon_model.specs.Typing.{IsTyped};
ghost use Rattle.ucon_model.specs.Views.{formula_of, policy_of, right_of, test_of};
ghost use Rattle.ucon_state.specs.Planned.{ArePlans, AreEnough, IsEnough, StandsAt};

use std::alloc::Global;
use ucon_base::{Int, NoMemory, Side, Value};
use ucon_model::{Checked, Expr, Formula, Op, Policy, Ref, Right, Test};

/// The greatest integer, and without its sign the least.
const LIMIT: i64 = 1_000_000_000_000_000;

/// What is enough for a predicate to hold.
#[derive(Clone, Copy)]
pub enum Check {
    /// The attribute at this position among those of its side is an integer from `low` to `high`.
    Between {
        side: Side,
        position: usize,
        low: Int,
        high: Int,
    },
    /// The usage lasts no more than so many ticks.
    Lasts(Int),
}

/// By the position of each right checks that are enough for all its ongoing predicates; None if one of them is of another form.
#[derive(Drop)]
pub struct Plans {
    by_right: Vec<Option<Vec<Check>>>,
}

/// A checked policy, and what is enough for its rights while a usage goes on.
#[derive(Drop)]
pub struct Planned {
    pub checked: Checked,
    plans: Plans,
    ghost typed: { IsTyped (checked_policy checked) },
    ghost one_each: { length plans.by_right.items ≡ length (checked_policy checked).rights },
    ghost are_plans: { ArePlans (checked_policy checked) plans.by_right.items },
}

impl Planned {
    /// Keeps this policy, and finds checks that are enough for its rights. `Err` if there is no memory.
    pub fn new(alloc: Global, checked: Checked) -> Result<Planned, NoMemory>
        ensures { IfOk result (λ p. p.checked ≡ checked) }
    {
        let by_right = plans_of(alloc, checked.policy())?;
        Ok(Planned {
            checked,
            plans: Plans { by_right },
        })
    }

    /// Lends the policy, which is well typed.
    pub fn policy(&self) -> &Policy
        ensures policy { policy_of result.now ≡ checked_policy self.now.checked }
        ensures typed { IsTyped (checked_policy self.now.checked) }
    {
        self.checked.policy()
    }

    /// The checks of the right at a position. None if there are none that are enough.
    #[inline(always)]
    pub fn plan(&self, right: usize) -> Option<&[Check]>
        ensures there { IsSome result → right < length (checked_policy self.now.checked).rights }
        ensures enough { IfSome (option_copied result) (λ checks. (r : PlainRight) → slice_get (checked_policy self.now.checked).rights right ≡ Some r
            → AreEnough (checked_policy self.now.checked) checks r.preds) }
    {
        match self.plans.by_right.get(right)? {
            Some(checks) => Some(checks),
            None => None,
        }
    }
}

/// The plans of all rights.
fn plans_of(alloc: Global, policy: &Policy) -> Result<Vec<Option<Vec<Check>>>, NoMemory>
    ensures one_each { IfOk result (λ plans. length plans.items ≡ length (policy_of policy.now).rights) }
    ensures plans { IfOk result (λ plans. ArePlans (policy_of policy.now) plans.items) }
{
    let mut plans = Vec::new(alloc);
    for right in policy.rights.slice() {
        plans.push(plan_of(alloc, policy, right)?)?;
    }
    Ok(plans)
}

/// Checks that are enough for a right's ongoing predicates. None if one of them is of another form.
fn plan_of(alloc: Global, policy: &Policy, right: &Right) -> Result<Option<Vec<Check>>, NoMemory>
    ensures { IfOk result (λ plan. IfSome plan (λ checks. AreEnough (policy_of policy.now) checks.items (right_of right.now).preds)) }
{
    let mut checks = Vec::new(alloc);
    for p in right.preds.slice() {
        if p.is_ongoing() {
            let Some(check) = check_of(policy, &p.test) else {
                return Ok(None);
            };
            checks.push(check)?;
        }
    }
    Ok(Some(checks))
}

/// A check that is enough for a test.
fn check_of(policy: &Policy, test: &Test) -> Option<Check>
    ensures { IfSome result (λ check. IsEnough (policy_of policy.now) check (λ R row. truth R row (test_of test.now))) }
{
    match test {
        Test::Authorisation(f) | Test::Condition(f) => formula_check(policy, f),
        Test::Obligation(_) => None,
    }
}

/// A check that is enough for a formula.
fn formula_check(policy: &Policy, f: &Formula) -> Option<Check>
    ensures { IfSome result (λ check. IsEnough (policy_of policy.now) check (λ R row. holds R row (formula_of f.now))) }
{
    match f {
        Formula::Compare(op, Expr::Read(place), Expr::Lit(Value::Int(n))) => {
            let (side, position) = position_of(policy, place)?;
            let (low, high) = range_of(*op, *n)?;
            Some(Check::Between {
                side,
                position,
                low,
                high,
            })
        }
        Formula::Lasts(n) => Some(Check::Lasts(*n)),
        _ => None,
    }
}

/// The side and the position of an attribute.
fn position_of(policy: &Policy, place: &Ref) -> Option<(Side, usize)>
    ensures { IfSome result (λ at. StandsAt (policy_of policy.now) place.now at.0 at.1) }
{
    match place {
        Ref::Subject(attr) => Some((Side::Subject, policy.attr_position(Side::Subject, attr)?)),
        Ref::Object(attr) => Some((Side::Object, policy.attr_position(Side::Object, attr)?)),
        Ref::Env(_) => None,
    }
}

/// The range of integers for which the comparison with n holds. None if there is none, or it has a gap.
fn range_of(op: Op, n: Int) -> Option<(Int, Int)>
    ensures { IfSome result (λ range. (m : ℤ) → range.0 ≤ℤ m → m ≤ℤ range.1 → compares op (IntValue m) (IntValue n) ≡ true) }
{
    let least = Int::new(-LIMIT)?;
    let most = Int::new(LIMIT)?;
    match op {
        Op::Eq => Some((n, n)),
        Op::Lt => Some((least, Int::new(n.get() - 1)?)),
        Op::Le => Some((least, n)),
        Op::Gt => Some((Int::new(n.get() + 1)?, most)),
        Op::Ge => Some((n, most)),
        Op::Ne | Op::Member => None,
    }
}
