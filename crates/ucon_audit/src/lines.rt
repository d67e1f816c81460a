//! How an audit is printed.

ghost use Rattle.std.specs.Prelude.{◌≡◌, ◌++◌, codes, map, IfOk, OnOk};
ghost use Rattle.std.specs.List.{flat_map};
ghost use Rattle.ucon_actions.specs.Leads.{AfterEach, IsFollowing};
ghost use Rattle.ucon_audit.specs.Lines.{audit_lines, changed_line, count_line, extends_line, head_line, usages_lines, verdict_words, yes_or_no};
ghost use Rattle.ucon_engine.specs.Engine.{IsIdle};
ghost use Rattle.ucon_model.specs.Action.{Trace};
ghost use Rattle.ucon_model.specs.Plain.{PlainPolicy};
ghost use Rattle.ucon_state.specs.Shown.{shown};

use crate::accessing::{changed_usages, usages};
use crate::auditing::Audited;
use crate::head::head_text;
use crate::parallel::Changed;
use std::alloc::Global;
use std::thread::Threads;
use ucon_base::{NoMemory, put, put_number};
use ucon_engine::Engine;
use ucon_model::Verdict;
use ucon_state::State;

/// What is printed of an audit.
pub(crate) fn lines_of<E: Engine, R: Threads + Sync>(
    rt: &R,
    alloc: Global,
    audited: &Audited<E>,
) -> Result<Vec<u8>, NoMemory>
    requires { IsIdle E.follows audited.now.engine }
    ensures { IfOk result (λ text. (P : PlainPolicy) (T : Trace) → E.follows audited.now.engine P T
        → text.items ≡ audit_lines audited.now.records audited.now.entries audited.now.head audited.now.extends P T) }
{
    let mut text = Vec::new(alloc);
    put_count(&mut text, b"records", audited.records)?;
    put_count(&mut text, b"entries", audited.entries)?;
    put_head(&mut text, &audited.head)?;
    put_extends(&mut text, audited.extends)?;
    put_usages(rt, alloc, &mut text, audited.engine.state())?;
    Ok(text)
}

/// Adds a word and a number as a line.
fn put_count(out: &mut Vec<u8>, word: &[u8], n: u64) -> Result<(), NoMemory>
    ensures { OnOk result (out.new.items ≡ out.old.items ++ count_line word.now n) }
{
    put(out, word)?;
    put(out, b" ")?;
    put_number(out, n)?;
    put(out, b"\n")
}

/// Adds the line of a head.
fn put_head(out: &mut Vec<u8>, head: &[u8; 32]) -> Result<(), NoMemory>
    ensures { OnOk result (out.new.items ≡ out.old.items ++ head_line head.now) }
{
    put(out, b"head ")?;
    put(out, head_text(head).as_slice())?;
    put(out, b"\n")
}

/// Adds the line that tells whether the journal goes on from what was kept, if something was.
fn put_extends(out: &mut Vec<u8>, extends: Option<bool>) -> Result<(), NoMemory>
    ensures { OnOk result (out.new.items ≡ out.old.items ++ extends_line extends) }
{
    let Some(extends) = extends else {
        return Ok(());
    };
    put(out, b"extends ")?;
    put(out, yes_or_no(extends))?;
    put(out, b"\n")
}

fn yes_or_no(answer: bool) -> &'static [u8]
    ensures { result.now ≡ yes_or_no answer }
{
    if answer { b"yes" } else { b"no" }
}

/// Adds how many uses go on, and a line for each that wouldn't be permitted now.
fn put_usages<R: Threads + Sync>(
    rt: &R,
    alloc: Global,
    out: &mut Vec<u8>,
    state: &State,
) -> Result<(), NoMemory>
    requires { IsFollowing (shown state.now) }
    ensures { OnOk result (AfterEach (shown state.now) (λ P T. out.new.items ≡ out.old.items ++ usages_lines P T)) }
{
    let accessing = usages(alloc, state)?.len() as u64;
    let changed = changed_usages(rt, alloc, state)?;
    put_count(out, b"accessing", accessing)?;
    put_all_changed(out, changed.slice())
}

fn put_all_changed(out: &mut Vec<u8>, changed: &[Changed]) -> Result<(), NoMemory>
    ensures { OnOk result (out.new.items ≡ out.old.items ++ flat_map changed_line changed.now) }
{
    for one in changed {
        put_changed(out, one)?;
    }
    Ok(())
}

/// Adds the line of a session that wouldn't be permitted now.
fn put_changed(out: &mut Vec<u8>, changed: &Changed) -> Result<(), NoMemory>
    ensures { OnOk result (out.new.items ≡ out.old.items ++ changed_line changed.now) }
{
    put(out, b"session ")?;
    put_number(out, u64::from(changed.session))?;
    put_verdict(out, &changed.verdict)?;
    put(out, b"\n")
}

/// Adds a verdict that isn't to permit, behind a space.
fn put_verdict(out: &mut Vec<u8>, verdict: &Verdict) -> Result<(), NoMemory>
    ensures { OnOk result (out.new.items ≡ out.old.items ++ verdict_words verdict.now) }
{
    match verdict {
        Verdict::Permit => Ok(()),
        Verdict::Deny(label) => {
            put(out, b" deny ")?;
            put(out, label.bytes())
        }
        Verdict::Wait(label) => {
            put(out, b" wait ")?;
            put(out, label.bytes())
        }
    }
}
