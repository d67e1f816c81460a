//! Builds a command from its line, whose words are known.

ghost use Rattle.std.specs.Prelude.{◌≡◌, ◌<◌, ◌≤◌, drop, length, IfOk, OnErr, OnOk, IsSome, IsTrue, Some};
ghost use Rattle.ucon_base.specs.Reading.{value_read};
ghost use Rattle.ucon_model.specs.CommandLine.{amendment_in, integer_in, value_in};
ghost use Rattle.ucon_syntax.specs.Policies.{accepted};
ghost use Rattle.ucon_command.specs.Cuts.{command_cut, ends_in_name, has_name, HasWords};
ghost use Rattle.ucon_reply.specs.Words.{between};

use crate::amendment::amendment_in;
use crate::cuts::Cuts;
use std::alloc::Global;
use ucon_base::{Int, Name, NoMemory, Side, Value, ValueFault};
use ucon_model::{Amend, Command};
use ucon_reply::digits_in;

/// Writes the command that these cuts of a line give over another one. A command is large, and isn't moved so.
#[inline(always)]
#[tactic(auto, using(crate::proofs::KnownWords::some_mapped))]
pub fn command_into(
    alloc: Global,
    line: &[u8],
    cuts: Cuts,
    out: &mut Command,
) -> Result<(), NoMemory>
    requires words { HasWords cuts line.now }
    requires some { IsSome (command_cut cuts line.now) }
    ensures ok { OnOk result (command_cut cuts line.now ≡ Some out.new) }
    ensures err { OnErr result (out.new ≡ out.old) }
{
    match cuts {
        Cuts::Subject { name } => subject_into(line, name, out),
        Cuts::Object { name } => object_into(line, name, out),
        Cuts::Set {
            side,
            name,
            attr,
            value,
        } => set_into(alloc, line, side, name, attr, value, out)?,
        Cuts::Env { name, value } => env_into(alloc, line, name, value, out)?,
        Cuts::Tick { tick } => tick_into(line, tick, out),
        Cuts::Act {
            subject,
            action,
            object,
        } => act_into(line, subject, action, object, out),
        Cuts::Try {
            subject,
            right,
            object,
        } => try_into(line, subject, right, object, out),
        Cuts::Again(n) => again_into(n, out),
        Cuts::Beat(n) => beat_into(n, out),
        Cuts::End(n) => end_into(n, out),
        Cuts::Look(n) => look_into(n, out),
        Cuts::Value { side, name, attr } => value_into(line, side, name, attr, out),
        Cuts::Amend { policy } => amend_into(alloc, line, policy, out)?,
    }
    Ok(())
}

/// Writes a command over another one. Most own no memory, and are written over without being let go.
#[inline(always)]
fn write_over(out: &mut Command, command: Command)
    ensures { out.new ≡ command }
{
    match out {
        Command::Tick(_)
        | Command::Act { .. }
        | Command::Try { .. }
        | Command::Again(_)
        | Command::Beat(_)
        | Command::End(_)
        | Command::Look(_)
        | Command::Value { .. } => *out = command,
        _ => write_over_owner(out, command),
    }
}

/// Writes a command over one that may own memory. All forms do it here: wherever a command is dropped, the proof goes through each part of each form.
#[inline(never)]
fn write_over_owner(out: &mut Command, command: Command)
    ensures { out.new ≡ command }
{
    *out = command;
}

/// `subject`, by where its name begins.
fn subject_into(line: &[u8], name: u16, out: &mut Command)
    requires { IsTrue (ends_in_name name line.now) }
    ensures { command_cut (Cuts.Subject name) line.now ≡ Some out.new }
{
    write_over(out, Command::Subject(last_name(line, name)));
}

/// `object`, by where its name begins.
fn object_into(line: &[u8], name: u16, out: &mut Command)
    requires { IsTrue (ends_in_name name line.now) }
    ensures { command_cut (Cuts.Object name) line.now ≡ Some out.new }
{
    write_over(out, Command::Object(last_name(line, name)));
}

/// `set`, by where its names and its value begin.
fn set_into(
    alloc: Global,
    line: &[u8],
    side: Side,
    name: u16,
    attr: u16,
    value: u16,
    out: &mut Command,
) -> Result<(), NoMemory>
    requires name { IsTrue (has_name name attr line.now) }
    requires attr { IsTrue (has_name attr value line.now) }
    requires value { IsSome (value_in (drop value line.now)) }
    ensures ok { OnOk result (command_cut (Cuts.Set side name attr value) line.now ≡ Some out.new) }
    ensures err { OnErr result (out.new ≡ out.old) }
{
    match digits_in(&line[value as usize..]) {
        Some(n) => {
            set_integer_into(line, side, name, attr, value, n, out);
            Ok(())
        }
        None => set_over(alloc, line, side, name, attr, value, out),
    }
}

/// `set` of an integer. Another `set` of an integer stays where it is, and gets its parts one by one.
#[inline(always)]
fn set_integer_into(
    line: &[u8],
    side: Side,
    name: u16,
    attr: u16,
    value: u16,
    n: Int,
    out: &mut Command,
)
    requires name { IsTrue (has_name name attr line.now) }
    requires attr { IsTrue (has_name attr value line.now) }
    requires value { value_in (drop value line.now) ≡ Some (Value.Int n) }
    ensures { command_cut (Cuts.Set side name attr value) line.now ≡ Some out.new }
{
    if let Command::Set {
        side: other_side,
        name: other_name,
        attr: other_attr,
        value: other,
    } = out
    {
        if let Value::Int(_) = other {
            *other_side = side;
            *other_name = name_between(line, name, attr);
            *other_attr = name_between(line, attr, value);
            *other = Value::Int(n);
            return;
        }
    }
    set_integer_over(line, side, name, attr, value, n, out);
}

/// `set` of an integer over a command of any form.
#[inline(never)]
fn set_integer_over(
    line: &[u8],
    side: Side,
    name: u16,
    attr: u16,
    value: u16,
    n: Int,
    out: &mut Command,
)
    requires name { IsTrue (has_name name attr line.now) }
    requires attr { IsTrue (has_name attr value line.now) }
    requires value { value_in (drop value line.now) ≡ Some (Value.Int n) }
    ensures { command_cut (Cuts.Set side name attr value) line.now ≡ Some out.new }
{
    let command = Command::Set {
        side,
        name: name_between(line, name, attr),
        attr: name_between(line, attr, value),
        value: Value::Int(n),
    };
    write_over(out, command);
}

/// `set` over a command of any form.
#[inline(never)]
fn set_over(
    alloc: Global,
    line: &[u8],
    side: Side,
    name: u16,
    attr: u16,
    value: u16,
    out: &mut Command,
) -> Result<(), NoMemory>
    requires name { IsTrue (has_name name attr line.now) }
    requires attr { IsTrue (has_name attr value line.now) }
    requires value { IsSome (value_in (drop value line.now)) }
    ensures ok { OnOk result (command_cut (Cuts.Set side name attr value) line.now ≡ Some out.new) }
    ensures err { OnErr result (out.new ≡ out.old) }
{
    let command = Command::Set {
        side,
        name: name_between(line, name, attr),
        attr: name_between(line, attr, value),
        value: last_value(alloc, line, value)?,
    };
    write_over(out, command);
    Ok(())
}

/// `env`, by where its name and its value begin.
fn env_into(
    alloc: Global,
    line: &[u8],
    name: u16,
    value: u16,
    out: &mut Command,
) -> Result<(), NoMemory>
    requires name { IsTrue (has_name name value line.now) }
    requires value { IsSome (value_in (drop value line.now)) }
    ensures ok { OnOk result (command_cut (Cuts.Env name value) line.now ≡ Some out.new) }
    ensures err { OnErr result (out.new ≡ out.old) }
{
    let command = Command::Env {
        name: name_between(line, name, value),
        value: last_value(alloc, line, value)?,
    };
    write_over(out, command);
    Ok(())
}

/// `tick`, by where its integer begins.
fn tick_into(line: &[u8], tick: u16, out: &mut Command)
    requires within { tick ≤ length line.now }
    requires integer { IsSome (integer_in (drop tick line.now)) }
    ensures { command_cut (Cuts.Tick tick) line.now ≡ Some out.new }
{
    write_over(out, Command::Tick(last_integer(line, tick)));
}

/// `act`, by where its names begin.
fn act_into(line: &[u8], subject: u16, action: u16, object: u16, out: &mut Command)
    requires subject { IsTrue (has_name subject action line.now) }
    requires action { IsTrue (has_name action object line.now) }
    requires object { IsTrue (ends_in_name object line.now) }
    ensures { command_cut (Cuts.Act subject action object) line.now ≡ Some out.new }
{
    let command = Command::Act {
        subject: name_between(line, subject, action),
        action: name_between(line, action, object),
        object: last_name(line, object),
    };
    write_over(out, command);
}

/// `try`, by where its names begin. Another `try` stays where it is, and gets its names one by one.
#[inline(always)]
fn try_into(line: &[u8], subject: u16, right: u16, object: u16, out: &mut Command)
    requires subject { IsTrue (has_name subject right line.now) }
    requires right { IsTrue (has_name right object line.now) }
    requires object { IsTrue (ends_in_name object line.now) }
    ensures { command_cut (Cuts.Try subject right object) line.now ≡ Some out.new }
{
    if let Command::Try {
        subject: subject_name,
        right: right_name,
        object: object_name,
    } = out
    {
        *subject_name = name_between(line, subject, right);
        *right_name = name_between(line, right, object);
        *object_name = last_name(line, object);
        return;
    }
    try_over(line, subject, right, object, out);
}

/// `try` over a command of any form.
#[inline(never)]
fn try_over(line: &[u8], subject: u16, right: u16, object: u16, out: &mut Command)
    requires subject { IsTrue (has_name subject right line.now) }
    requires right { IsTrue (has_name right object line.now) }
    requires object { IsTrue (ends_in_name object line.now) }
    ensures { command_cut (Cuts.Try subject right object) line.now ≡ Some out.new }
{
    let command = Command::Try {
        subject: name_between(line, subject, right),
        right: name_between(line, right, object),
        object: last_name(line, object),
    };
    write_over(out, command);
}

/// `again`, by its session's number.
#[inline(never)]
fn again_into(n: u32, out: &mut Command)
    ensures { out.new ≡ Command.Again n }
{
    write_over(out, Command::Again(n));
}

/// `beat`, by its session's number.
#[inline(never)]
fn beat_into(n: u32, out: &mut Command)
    ensures { out.new ≡ Command.Beat n }
{
    write_over(out, Command::Beat(n));
}

/// `end`, by its session's number.
#[inline(never)]
fn end_into(n: u32, out: &mut Command)
    ensures { out.new ≡ Command.End n }
{
    write_over(out, Command::End(n));
}

/// `look`, by its session's number.
#[inline(never)]
fn look_into(n: u32, out: &mut Command)
    ensures { out.new ≡ Command.Look n }
{
    write_over(out, Command::Look(n));
}

/// `value`, by where its names begin.
fn value_into(line: &[u8], side: Side, name: u16, attr: u16, out: &mut Command)
    requires name { IsTrue (has_name name attr line.now) }
    requires attr { IsTrue (ends_in_name attr line.now) }
    ensures { command_cut (Cuts.Value side name attr) line.now ≡ Some out.new }
{
    let command = Command::Value {
        side,
        name: name_between(line, name, attr),
        attr: last_name(line, attr),
    };
    write_over(out, command);
}

/// `amend`, by where its policy begins.
fn amend_into(alloc: Global, line: &[u8], policy: u32, out: &mut Command) -> Result<(), NoMemory>
    requires within { policy ≤ length line.now }
    requires amendment { IsSome (amendment_in accepted (drop policy line.now)) }
    ensures ok { OnOk result (command_cut (Cuts.Amend policy) line.now ≡ Some out.new) }
    ensures err { OnErr result (out.new ≡ out.old) }
{
    write_over(out, Command::Amend(last_amendment(alloc, line, policy)?));
    Ok(())
}

/// The name from one place up to the space before another.
fn name_between(line: &[u8], at: u16, next: u16) -> Name
    requires { IsTrue (has_name at next line.now) }
    ensures { result ≡ between at next line.now }
{
    Name::known(&line[at as usize..next as usize - 1])
}

/// The name that takes the rest of the line.
fn last_name(line: &[u8], at: u16) -> Name
    requires { IsTrue (ends_in_name at line.now) }
    ensures { result ≡ drop at line.now }
{
    Name::known(&line[at as usize..])
}

/// The value that takes the rest of the line.
fn last_value(alloc: Global, line: &[u8], at: u16) -> Result<Value, NoMemory>
    requires within { at ≤ length line.now }
    requires value { IsSome (value_in (drop at line.now)) }
    ensures { IfOk result (λ v. value_in (drop at line.now) ≡ Some v) }
{
    let bytes = &line[at as usize..];
    if let Some(n) = digits_in(bytes) {
        return Ok(Value::Int(n));
    }
    match Value::read(alloc, bytes) {
        Ok(value) => Ok(value),
        Err(ValueFault::NoMemory(refused)) => Err(refused),
        Err(_) => unreachable!(),
    }
}

/// The integer that takes the rest of the line.
fn last_integer(line: &[u8], at: u16) -> Int
    requires within { at ≤ length line.now }
    requires integer { IsSome (integer_in (drop at line.now)) }
    ensures { integer_in (drop at line.now) ≡ Some result }
{
    match Int::read(&line[at as usize..]) {
        Some(n) => n,
        None => unreachable!(),
    }
}

/// The amendment whose policy takes the rest of the line.
fn last_amendment(alloc: Global, line: &[u8], at: u32) -> Result<Amend, NoMemory>
    requires within { at ≤ length line.now }
    requires amendment { IsSome (amendment_in accepted (drop at line.now)) }
    ensures { IfOk result (λ a. amendment_in accepted (drop at line.now) ≡ Some a) }
{
    match amendment_in(alloc, &line[at as usize..])? {
        Some(amend) => Ok(amend),
        None => unreachable!(),
    }
}
