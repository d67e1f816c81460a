//! The explanation of a session's decision, over any view.

ghost use Rattle.std.specs.Prelude.{◌≡◌, IfOk, Some, map};
ghost use Rattle.ucon_model.specs.Decision.{right_named};
ghost use Rattle.ucon_model.specs.Views.{predicate_of, right_of};
ghost use Rattle.ucon_model.specs.Asked.{predicate_at};
ghost use Rattle.ucon_accept.specs.Explanation.{explained, explanation_of, line, lines, lines_from, why_of};
ghost use Rattle.ucon_accept.specs.Judged.{MayBeJudged};

use crate::facts::test_facts;
use std::alloc::{AllocError, Global};
use ucon_accept::{Explanation, Why, factor_of};
use ucon_base::{NoMemory, Rows};
use ucon_eval::{truth, verdict};
use ucon_model::{Predicate, Right, SessionRow, View};

/// The line on the predicate with this number of a session's right.
fn line<V: View>(
    alloc: Global,
    view: &V,
    session: u32,
    row: &SessionRow,
    pred: u32,
    p: &Predicate,
) -> Result<Why, NoMemory>
    requires judged { MayBeJudged (V.policy view.now) (V.readings view.now) session row.now }
    requires pred { predicate_at (V.policy view.now) row.now pred ≡ Some (predicate_of p.now) }
    ensures { IfOk result (λ w. why_of w ≡ line (V.readings view.now) row.now pred (predicate_of p.now)) }
{
    Ok(Why {
        pred,
        label: p.label,
        factor: factor_of(&p.test),
        truth: truth(view, session, pred),
        reads: test_facts(alloc, view, session, row, &p.test)?,
    })
}

/// The lines on a session's right. More predicates than a `u32` counts are answered as out of memory.
fn lines_of_right<V: View>(
    alloc: Global,
    view: &V,
    session: u32,
    row: &SessionRow,
    right: &Right,
) -> Result<Vec<Why>, NoMemory>
    requires judged { MayBeJudged (V.policy view.now) (V.readings view.now) session row.now }
    requires right { right_named (V.policy view.now).rights row.now.right ≡ Some (right_of right.now) }
    ensures { IfOk result (λ whys. map why_of whys.items ≡ lines_from (V.readings view.now) row.now 0 (right_of right.now).preds) }
{
    let preds = right.preds.slice();
    if preds.len() > u32::MAX as usize {
        return Err(NoMemory::from(AllocError));
    }
    let mut whys = Vec::new(alloc);
    for (i, p) in preds.iter().enumerate() {
        if !p.is_ongoing() {
            whys.push(line(alloc, view, session, row, i as u32, p)?)?;
        }
    }
    Ok(whys)
}

/// The lines on a session's right; none if the policy hasn't it.
fn lines<V: View>(
    alloc: Global,
    view: &V,
    session: u32,
    row: &SessionRow,
) -> Result<Rows<Why>, NoMemory>
    requires { MayBeJudged (V.policy view.now) (V.readings view.now) session row.now }
    ensures { IfOk result (λ whys. map why_of whys.items ≡ lines (V.policy view.now) (V.readings view.now) row.now) }
{
    let whys = match view.right(session) {
        Some(right) => lines_of_right(alloc, view, session, row, right)?,
        None => Vec::new(alloc),
    };
    Ok(Rows::from(whys))
}

/// The explanation of a session, whose row this is.
pub fn explained<V: View>(
    alloc: Global,
    view: &V,
    session: u32,
    row: &SessionRow,
) -> Result<Explanation, NoMemory>
    requires { MayBeJudged (V.policy view.now) (V.readings view.now) session row.now }
    ensures { IfOk result (λ e. explanation_of e ≡ explained (V.policy view.now) (V.readings view.now) session row.now) }
{
    let whys = lines(alloc, view, session, row)?;
    Ok(Explanation {
        subject: row.subject,
        right: row.right,
        object: row.object,
        whys,
        verdict: verdict(view, session),
    })
}
