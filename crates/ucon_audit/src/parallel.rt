//! A recheck of sessions by several threads, whose answer is that of a plain loop.

ghost use Rattle.std.specs.Prelude.{◌≡◌, true, All, IfOk, IsSome};
ghost use Rattle.ucon_model.specs.Sums.{tests_make_no_set};
ghost use Rattle.ucon_audit.specs.Recheck.{changed, unless_permitted, verdict_now};

use rayon::prelude::*;
use std::alloc::{AllocError, Global};
use std::thread::Threads;
use ucon_base::{NoMemory, Rows};
use ucon_eval::{no_right, verdict};
use ucon_model::{Verdict, View};

/// How many sessions a thread is worth: starting one takes as long as rechecking some hundreds.
const SHARE: usize = 1_024;

/// A session that wouldn't be permitted now, and why.
#[derive(Clone, Copy, PartialEq, Eq)]
pub struct Changed {
    pub session: u32,
    pub verdict: Verdict,
}

/// The verdict on a session now. A session whose right was taken away by an amendment is denied by `no_right`.
fn verdict_now<V: View>(view: &V, session: u32) -> Verdict
    requires there { IsSome ((V.readings view.now).row session) }
    requires no_set { tests_make_no_set (V.policy view.now) (V.readings view.now) session ≡ true }
    ensures { result ≡ verdict_now (V.policy view.now) (V.readings view.now) session }
{
    match view.right(session) {
        Some(_) => verdict(view, session),
        None => Verdict::Deny(no_right()),
    }
}

fn recheck_one<V: View>(view: &V, session: u32) -> Option<Changed>
    requires there { IsSome ((V.readings view.now).row session) }
    requires no_set { tests_make_no_set (V.policy view.now) (V.readings view.now) session ≡ true }
    ensures { result ≡ unless_permitted session (verdict_now (V.policy view.now) (V.readings view.now) session) }
{
    match verdict_now(view, session) {
        Verdict::Permit => None,
        verdict => Some(Changed { session, verdict }),
    }
}

/// Each thread rechecks a stretch of the sessions, and what they find is joined in order.
fn recheck_shared<V: View + Sync, R: Threads + Sync>(
    rt: &R,
    alloc: Global,
    view: &V,
    sessions: &[u32],
) -> Result<Vec<Changed>, AllocError>
    requires there { All (λ n. IsSome ((V.readings view.now).row n)) sessions.now }
    requires no_set { All (λ n. tests_make_no_set (V.policy view.now) (V.readings view.now) n ≡ true) sessions.now }
    ensures { IfOk result (λ found. found.items ≡ changed (V.policy view.now) (V.readings view.now) sessions.now) }
{
    sessions
        .par_iter()
        .with_min_len(SHARE)
        .filter_map(
            |n: &u32| -> Option<Changed>
                requires there { IsSome ((V.readings view.now).row n.now) }
                requires no_set { tests_make_no_set (V.policy view.now) (V.readings view.now) n.now ≡ true }
                ensures { result ≡ unless_permitted n.now (verdict_now (V.policy view.entry.now) (V.readings view.entry.now) n.now) }
            { recheck_one(view, *n) },
        )
        .collect(rt, alloc)
}

/// The sessions whose verdict now isn't to permit, in the slice's order: what a plain loop finds, whatever threads there are. A session whose
/// right the policy hasn't any more is among them, denied by `no_right`.
pub fn recheck<V: View + Sync, R: Threads + Sync>(
    rt: &R,
    alloc: Global,
    view: &V,
    sessions: &[u32],
) -> Result<Rows<Changed>, NoMemory>
    requires there { All (λ n. IsSome ((V.readings view.now).row n)) sessions.now }
    requires no_set { All (λ n. tests_make_no_set (V.policy view.now) (V.readings view.now) n ≡ true) sessions.now }
    ensures { IfOk result (λ rows. rows.items ≡ changed (V.policy view.now) (V.readings view.now) sessions.now) }
{
    let found = recheck_shared(rt, alloc, view, sessions)?;
    Ok(Rows::from(found))
}
