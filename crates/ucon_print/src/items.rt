//! Attributes, variables, predicates and updates, each on a line of its own.

ghost use Rattle.std.specs.Prelude.{◌≡◌, ◌++◌, OnOk};
ghost use Rattle.ucon_model.specs.Views.{test_of, predicate_of, update_of};
ghost use Rattle.ucon_model.specs.Printing.{kind_printing, declared_printing, attr_printing, env_printing, form_printing, party_printing};
ghost use Rattle.ucon_model.specs.Printing.{duty_printing, letter_printing, test_printing, phase_printing, predicate_printing, when_printing};
ghost use Rattle.ucon_model.specs.Printing.{update_printing};

use crate::expr::put_expr;
use crate::formula::put_formula;
use crate::words::put_literal;
use ucon_base::{Kind, Name, NoMemory, Value, put, put_integer, put_quoted};
use ucon_model::{AttrDecl, EnvDecl, Form, Obligation, Phase, Predicate, Test, Update, When};

fn put_kind(out: &mut Vec<u8>, kind: &Kind) -> Result<(), NoMemory>
    ensures { OnOk result (out.new.items ≡ out.old.items ++ kind_printing kind.now) }
{
    match kind {
        Kind::Int { low, high } => {
            put(out, b"int ")?;
            put_integer(out, *low)?;
            put(out, b"..")?;
            put_integer(out, *high)
        }
        Kind::Text => put(out, b"text"),
        Kind::Set => put(out, b"set"),
    }
}

/// What stands behind the name of an attribute or a variable.
fn put_declared(out: &mut Vec<u8>, kind: &Kind, start: &Value) -> Result<(), NoMemory>
    ensures { OnOk result (out.new.items ≡ out.old.items ++ declared_printing kind.now start.now) }
{
    put(out, b" : ")?;
    put_kind(out, kind)?;
    put(out, b" = ")?;
    put_literal(out, start)?;
    put(out, b";\n")
}

/// Adds an attribute's declaration, as the printer writes it. `Err` if there is no memory.
pub fn put_attr(out: &mut Vec<u8>, attr: &AttrDecl) -> Result<(), NoMemory>
    ensures { OnOk result (out.new.items ≡ out.old.items ++ attr_printing attr.now) }
{
    put(out, b"attr ")?;
    put(out, attr.side.word())?;
    put(out, b" ")?;
    put(out, attr.name.bytes())?;
    put_declared(out, &attr.kind, &attr.start)
}

/// Adds a variable's declaration, as the printer writes it. `Err` if there is no memory.
pub fn put_env(out: &mut Vec<u8>, env: &EnvDecl) -> Result<(), NoMemory>
    ensures { OnOk result (out.new.items ≡ out.old.items ++ env_printing env.now) }
{
    put(out, b"env ")?;
    put(out, env.name.bytes())?;
    put_declared(out, &env.kind, &env.start)
}

fn put_form(out: &mut Vec<u8>, form: &Form) -> Result<(), NoMemory>
    ensures { OnOk result (out.new.items ≡ out.old.items ++ form_printing form.now) }
{
    match form {
        Form::Done => put(out, b"done "),
        Form::Within(n) => {
            put(out, b"within ")?;
            put_integer(out, *n)?;
            put(out, b" ")
        }
        Form::Every(n) => {
            put(out, b"every ")?;
            put_integer(out, *n)?;
            put(out, b" ")
        }
    }
}

/// By whom, or on what.
fn put_party(out: &mut Vec<u8>, word: &[u8], name: &Option<Name>) -> Result<(), NoMemory>
    ensures { OnOk result (out.new.items ≡ out.old.items ++ party_printing word.now name.now) }
{
    match name {
        None => Ok(()),
        Some(name) => {
            put(out, word)?;
            put_quoted(out, name.bytes())
        }
    }
}

fn put_duty(out: &mut Vec<u8>, duty: &Obligation) -> Result<(), NoMemory>
    ensures { OnOk result (out.new.items ≡ out.old.items ++ duty_printing duty.now) }
{
    put_form(out, &duty.form)?;
    put(out, duty.action.bytes())?;
    put_party(out, b" by ", &duty.by_subject)?;
    put_party(out, b" on ", &duty.on_object)
}

fn letter(test: &Test) -> &'static [u8]
    ensures { result.now ≡ letter_printing (test_of test.now) }
{
    match test {
        Test::Authorisation(_) => b"a ",
        Test::Obligation(_) => b"b ",
        Test::Condition(_) => b"c ",
    }
}

fn put_test(out: &mut Vec<u8>, test: &Test) -> Result<(), NoMemory>
    ensures { OnOk result (out.new.items ≡ out.old.items ++ test_printing (test_of test.now)) }
{
    match test {
        Test::Authorisation(f) => put_formula(out, f, 0),
        Test::Obligation(duty) => put_duty(out, duty),
        Test::Condition(f) => put_formula(out, f, 0),
    }
}

fn phase_text(phase: Phase) -> &'static [u8]
    ensures { result.now ≡ phase_printing phase }
{
    match phase {
        Phase::Pre => b"  pre ",
        Phase::Ongoing => b"  on ",
    }
}

/// Adds a predicate, as the printer writes it. `Err` if there is no memory.
pub fn put_predicate(out: &mut Vec<u8>, predicate: &Predicate) -> Result<(), NoMemory>
    ensures { OnOk result (out.new.items ≡ out.old.items ++ predicate_printing (predicate_of predicate.now)) }
{
    put(out, phase_text(predicate.phase))?;
    put(out, letter(&predicate.test))?;
    put(out, predicate.label.bytes())?;
    put(out, b": ")?;
    put_test(out, &predicate.test)?;
    put(out, b";\n")?;
    Ok(())
}

fn when_text(when: When) -> &'static [u8]
    ensures { result.now ≡ when_printing when }
{
    match when {
        When::Before => b"  before ",
        When::During => b"  during ",
        When::AfterEnd => b"  after_end ",
        When::AfterRevoke => b"  after_revoke ",
    }
}

/// Adds an update, as the printer writes it. `Err` if there is no memory.
pub fn put_update(out: &mut Vec<u8>, update: &Update) -> Result<(), NoMemory>
    ensures { OnOk result (out.new.items ≡ out.old.items ++ update_printing (update_of update.now)) }
{
    put(out, when_text(update.when))?;
    put(out, update.side.word())?;
    put(out, b".")?;
    put(out, update.attr.bytes())?;
    put(out, b" = ")?;
    put_expr(out, &update.value, 0)?;
    put(out, b";\n")?;
    Ok(())
}
