//! Whether a right makes core models.

ghost use Rattle.std.specs.Prelude.{◌≡◌, ◌&&◌, map};
ghost use Rattle.std.specs.List.{list_any};
ghost use Rattle.ucon_model.specs.Cores.{has_update, has_updates, is_condition, is_core, is_decider};
ghost use Rattle.ucon_model.specs.Decision.{ongoing};
ghost use Rattle.ucon_model.specs.Views.{predicate_of, right_of, test_of, update_of};

use ucon_model::{Predicate, Right, Test, Update, When};

/// Tells whether a test is a condition (C).
pub fn is_condition(test: &Test) -> bool
    ensures { result ≡ is_condition (test_of test.now) }
{
    matches!(test, Test::Condition(_))
}

/// Whether there are updates of this time.
pub fn has_update(updates: &[Update], when: When) -> bool
    ensures { result ≡ has_update when (map update_of updates.now) }
{
    for u in updates {
        if when == u.when {
            return true;
        }
    }
    false
}

/// An authorisation or an obligation.
fn is_decider(p: &Predicate) -> bool
    ensures { result ≡ is_decider (predicate_of p.now) }
{
    !is_condition(&p.test)
}

fn has_decider(preds: &[Predicate]) -> bool
    ensures { result ≡ list_any is_decider (map predicate_of preds.now) }
{
    for p in preds {
        if is_decider(p) {
            return true;
        }
    }
    false
}

fn has_ongoing_decider(preds: &[Predicate]) -> bool
    ensures { result ≡ list_any (λ p. ongoing p && is_decider p) (map predicate_of preds.now) }
{
    for p in preds {
        if p.is_ongoing() && is_decider(p) {
            return true;
        }
    }
    false
}

fn has_updates(updates: &[Update]) -> bool
    ensures { result ≡ has_updates (map update_of updates.now) }
{
    match updates {
        [] => false,
        [_, ..] => true,
    }
}

/// Whether a right makes core models: an update needs an authorisation or an obligation, and one during the usage an ongoing one.
pub fn is_core(right: &Right) -> bool
    ensures { result ≡ is_core (right_of right.now) }
{
    let preds = right.preds.slice();
    let updates = right.updates.slice();
    (!has_updates(updates) || has_decider(preds))
        && (!has_update(updates, When::During) || has_ongoing_decider(preds))
}
