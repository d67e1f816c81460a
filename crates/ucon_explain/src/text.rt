//! Explanations as text.

ghost use Rattle.std.specs.Prelude.{◌≡◌, ◌++◌, ◌∷◌, [], IfOk, OnOk, codes, map};
ghost use Rattle.ucon_accept.specs.declared.explanation.Fact.TheVariants as facts;
ghost use Rattle.ucon_accept.specs.Explanation.{explanation_of, why_of};
ghost use Rattle.ucon_explain.specs.Text.{explanation_spelling, fact_spelling, factor_word, facts_spelling, moment_spelling, place_spelling};
ghost use Rattle.ucon_explain.specs.Text.{truth_word, verdict_spelling, why_spelling, whys_spelling};

use std::alloc::Global;
use ucon_accept::{Explanation, Fact, Factor, Why};
use ucon_base::{Int, Name, NoMemory, Value, put, put_integer, put_spelling};
use ucon_model::{Ref, Verdict};

/// The letter of what a predicate decides by.
fn factor_word(factor: Factor) -> &'static [u8]
    ensures { result.now ≡ factor_word factor }
{
    match factor {
        Factor::Authorisation => b"a",
        Factor::Obligation => b"b",
        Factor::Condition => b"c",
    }
}

fn truth_word(truth: bool) -> &'static [u8]
    ensures { result.now ≡ truth_word truth }
{
    if truth { b"true" } else { b"false" }
}

/// Adds a name and a space.
fn put_name(out: &mut Vec<u8>, name: &Name) -> Result<(), NoMemory>
    ensures { OnOk result (out.new.items ≡ out.old.items ++ (name.now ++ 32 ∷ [])) }
{
    put(out, name.bytes())?;
    put(out, b" ")
}

fn put_place(out: &mut Vec<u8>, place: &Ref) -> Result<(), NoMemory>
    ensures { OnOk result (out.new.items ≡ out.old.items ++ place_spelling place.now) }
{
    match place {
        Ref::Subject(attr) => {
            put(out, b"s.")?;
            put(out, attr.bytes())
        }
        Ref::Object(attr) => {
            put(out, b"o.")?;
            put(out, attr.bytes())
        }
        Ref::Env(name) => {
            put(out, b"env.")?;
            put(out, name.bytes())
        }
    }
}

fn put_moment(out: &mut Vec<u8>, moment: Option<Int>) -> Result<(), NoMemory>
    ensures { OnOk result (out.new.items ≡ out.old.items ++ moment_spelling moment) }
{
    match moment {
        Some(m) => put_integer(out, m),
        None => put(out, b"never"),
    }
}

/// Adds what a place holds.
fn put_value(alloc: Global, out: &mut Vec<u8>, place: &Ref, value: &Value) -> Result<(), NoMemory>
    ensures { OnOk result (out.new.items ≡ out.old.items ++ fact_spelling (facts.Value place.now value.now)) }
{
    put(out, b"  read ")?;
    put_place(out, place)?;
    put(out, b" ")?;
    put_spelling(alloc, out, value)?;
    put(out, b"\n")
}

/// Adds when an act was last done.
fn put_act(
    out: &mut Vec<u8>,
    subject: &Name,
    action: &Name,
    object: &Name,
    moment: Option<Int>,
) -> Result<(), NoMemory>
    ensures { OnOk result (out.new.items ≡ out.old.items ++ fact_spelling (facts.Moment subject.now action.now object.now moment)) }
{
    put(out, b"  act ")?;
    put_name(out, subject)?;
    put_name(out, action)?;
    put_name(out, object)?;
    put_moment(out, moment)?;
    put(out, b"\n")
}

fn put_tick(out: &mut Vec<u8>, tick: Int) -> Result<(), NoMemory>
    ensures { OnOk result (out.new.items ≡ out.old.items ++ fact_spelling (facts.Tick tick)) }
{
    put(out, b"  tick ")?;
    put_integer(out, tick)?;
    put(out, b"\n")
}

fn put_fact(alloc: Global, out: &mut Vec<u8>, fact: &Fact) -> Result<(), NoMemory>
    ensures { OnOk result (out.new.items ≡ out.old.items ++ fact_spelling fact.now) }
{
    match fact {
        Fact::Value { place, value } => put_value(alloc, out, place, value),
        Fact::Moment {
            subject,
            action,
            object,
            moment,
        } => put_act(out, subject, action, object, *moment),
        Fact::Tick(t) => put_tick(out, *t),
    }
}

fn put_facts(alloc: Global, out: &mut Vec<u8>, facts: &[Fact]) -> Result<(), NoMemory>
    ensures { OnOk result (out.new.items ≡ out.old.items ++ facts_spelling facts.now) }
{
    for fact in facts {
        put_fact(alloc, out, fact)?;
    }
    Ok(())
}

/// Adds the line on a predicate.
fn put_predicate(out: &mut Vec<u8>, why: &Why) -> Result<(), NoMemory>
    ensures { OnOk result (out.new.items
        ≡ out.old.items ++ (codes "pre " ++ why.now.label ++ 32 ∷ factor_word why.now.factor ++ 32 ∷ truth_word why.now.truth ++ 10 ∷ [])) }
{
    put(out, b"pre ")?;
    put_name(out, &why.label)?;
    put(out, factor_word(why.factor))?;
    put(out, b" ")?;
    put(out, truth_word(why.truth))?;
    put(out, b"\n")
}

fn put_why(alloc: Global, out: &mut Vec<u8>, why: &Why) -> Result<(), NoMemory>
    ensures { OnOk result (out.new.items ≡ out.old.items ++ why_spelling (why_of why.now)) }
{
    put_predicate(out, why)?;
    put_facts(alloc, out, why.reads.slice())
}

fn put_whys(alloc: Global, out: &mut Vec<u8>, whys: &[Why]) -> Result<(), NoMemory>
    ensures { OnOk result (out.new.items ≡ out.old.items ++ whys_spelling (map why_of whys.now)) }
{
    for why in whys {
        put_why(alloc, out, why)?;
    }
    Ok(())
}

/// Adds a word, a label and a newline.
fn put_labelled(out: &mut Vec<u8>, word: &[u8], label: &Name) -> Result<(), NoMemory>
    ensures { OnOk result (out.new.items ≡ out.old.items ++ (word.now ++ label.now ++ 10 ∷ [])) }
{
    put(out, word)?;
    put(out, label.bytes())?;
    put(out, b"\n")
}

fn put_verdict(out: &mut Vec<u8>, verdict: &Verdict) -> Result<(), NoMemory>
    ensures { OnOk result (out.new.items ≡ out.old.items ++ verdict_spelling verdict.now) }
{
    match verdict {
        Verdict::Permit => put(out, b"verdict permit\n"),
        Verdict::Deny(label) => put_labelled(out, b"verdict deny ", label),
        Verdict::Wait(label) => put_labelled(out, b"verdict wait ", label),
    }
}

/// An explanation as it is printed. It has a line for each predicate, `pre LABEL KIND TRUTH`. Below it stands one for each fact that the predicate
/// reads, behind two spaces. A fact is `read s.ATTR VALUE`, `read o.ATTR VALUE`, `read env.VAR VALUE`, `act SUBJECT ACTION OBJECT TICK`, the same
/// with `never`, or `tick T`. The last line is `verdict permit`, `verdict deny LABEL` or `verdict wait LABEL`.
pub fn explanation_text(alloc: Global, e: &Explanation) -> Result<Vec<u8>, NoMemory>
    ensures { IfOk result (λ t. t.items ≡ explanation_spelling (explanation_of e.now)) }
{
    let mut text = Vec::new(alloc);
    put_whys(alloc, &mut text, e.whys.slice())?;
    put_verdict(&mut text, &e.verdict)?;
    Ok(text)
}
