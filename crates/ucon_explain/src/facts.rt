//! The facts that a test reads, with the values that stand there.

ghost use Rattle.std.specs.Prelude.{◌≡◌, ◌++◌, ◌∷◌, IfOk, OnOk, Some, map, option_copied};
ghost use Rattle.ucon_model.specs.Truth.{read_or_zero};
ghost use Rattle.ucon_model.specs.Views.{formula_of, test_of};
ghost use Rattle.ucon_accept.specs.Facts.{act_fact, formula_facts, is_timed, test_facts, tick_fact, value_fact};

use crate::places::places_of;
use std::alloc::Global;
use ucon_accept::{Fact, asks_tick, is_timed, name_or};
use ucon_base::{Int, NoMemory, Rows, Value};
use ucon_model::{Formula, Obligation, Ref, SessionRow, Test, View};

/// A copy of a value that was read; a place that isn't there reads as 0.
fn copy_or_zero(alloc: Global, value: Option<&Value>) -> Result<Value, NoMemory>
    ensures { IfOk result (λ v. v ≡ read_or_zero (option_copied value.entry)) }
{
    match value {
        Some(v) => v.copy(alloc),
        None => Ok(Value::Int(Int::zero())),
    }
}

/// What a place holds for a session.
fn value_fact<V: View>(
    alloc: Global,
    view: &V,
    session: u32,
    row: &SessionRow,
    place: &Ref,
) -> Result<Fact, NoMemory>
    requires { (V.readings view.now).row session ≡ Some row.now }
    ensures { IfOk result (λ fact. fact ≡ value_fact (V.readings view.now) row.now place.now) }
{
    let value = copy_or_zero(alloc, view.value(session, place))?;
    Ok(Fact::Value {
        place: *place,
        value,
    })
}

/// What each of these places holds for a session.
fn value_facts<V: View>(
    alloc: Global,
    view: &V,
    session: u32,
    row: &SessionRow,
    places: &[Ref],
) -> Result<Vec<Fact>, NoMemory>
    requires { (V.readings view.now).row session ≡ Some row.now }
    ensures { IfOk result (λ facts. facts.items ≡ map (value_fact (V.readings view.now) row.now) places.now) }
{
    let mut facts = Vec::new(alloc);
    for place in places {
        facts.push(value_fact(alloc, view, session, row, place)?)?;
    }
    Ok(facts)
}

/// Adds the present tick, if it is asked for.
fn add_tick<V: View>(view: &V, facts: &mut Vec<Fact>, asked: bool) -> Result<(), NoMemory>
    ensures { OnOk result (facts.new.items ≡ facts.old.items ++ tick_fact (V.readings view.now) asked) }
{
    if asked {
        facts.push(Fact::Tick(view.tick()))?;
    }
    Ok(())
}

fn formula_facts<V: View>(
    alloc: Global,
    view: &V,
    session: u32,
    row: &SessionRow,
    f: &Formula,
) -> Result<Vec<Fact>, NoMemory>
    requires { (V.readings view.now).row session ≡ Some row.now }
    ensures { IfOk result (λ facts. facts.items ≡ formula_facts (V.readings view.now) row.now (formula_of f.now)) }
{
    let places = places_of(alloc, f)?;
    let mut facts = value_facts(alloc, view, session, row, &places)?;
    add_tick(view, &mut facts, asks_tick(f))?;
    Ok(facts)
}

/// The act that an obligation asks for, with the tick at which it was last done.
fn act_fact<V: View>(view: &V, row: &SessionRow, o: &Obligation) -> Fact
    ensures { result ≡ act_fact (V.readings view.now) row.now o.now }
{
    let subject = *name_or(&o.by_subject, &row.subject);
    let object = *name_or(&o.on_object, &row.object);
    Fact::Moment {
        subject,
        action: o.action,
        object,
        moment: view.moment(&subject, &o.action, &object),
    }
}

fn duty_facts<V: View>(
    alloc: Global,
    view: &V,
    row: &SessionRow,
    o: &Obligation,
) -> Result<Vec<Fact>, NoMemory>
    ensures { IfOk result (λ facts. facts.items
        ≡ act_fact (V.readings view.now) row.now o.now ∷ tick_fact (V.readings view.now) (is_timed o.now.form)) }
{
    let mut facts = Vec::new(alloc);
    facts.push(act_fact(view, row, o))?;
    add_tick(view, &mut facts, is_timed(o.form))?;
    Ok(facts)
}

/// The facts that a test reads for a session, in the order of first reading.
pub fn test_facts<V: View>(
    alloc: Global,
    view: &V,
    session: u32,
    row: &SessionRow,
    test: &Test,
) -> Result<Rows<Fact>, NoMemory>
    requires { (V.readings view.now).row session ≡ Some row.now }
    ensures { IfOk result (λ facts. facts.items ≡ test_facts (V.readings view.now) row.now (test_of test.now)) }
{
    let facts = match test {
        Test::Authorisation(f) | Test::Condition(f) => formula_facts(alloc, view, session, row, f)?,
        Test::Obligation(o) => duty_facts(alloc, view, row, o)?,
    };
    Ok(Rows::from(facts))
}
