//! The indexed monitor beside the plain one, a step that is undone and drafted again, and runs in which few are touched or nobody.

ghost use Rattle.std.specs.Prelude.{⊤};

use crate::runs::{over, stopping};
use std::alloc::{AllocError, Global};
use std::sync::Wait;
use std::test::Fail;
use std::thread::Threads;
use ucon_base::{NoMemory, Steps};
use ucon_cascade::Monitor;
use ucon_check::check;
use ucon_client::OpenGate;
use ucon_engine::{Engine, RestoreFault};
use ucon_model::{Caller, Checked, Command, Reply, SessionState};
use ucon_plain::PlainMonitor;
use ucon_script::{generate, policy_part, read_script};
use ucon_state::State;
use ucon_syntax::read_policy;
use ucon_top::Outcome;
use ucon_trial::trial_output;
use ucon_vectors::{AMENDED_ROWS, TIMED_ROWS, WORKED_ROWS, document};

/// Drafts each step and undoes it, before it drafts it again.
#[derive(Drop)]
struct Redrafting<E: Engine> {
    engine: E,
}

impl<E: Engine> Engine for Redrafting<E> {
    ghost follows = { λ e. E.follows e.engine };

    ghost has_pending = { λ e. E.has_pending e.engine };

    // Nothing is promised of what a draft costs.
    ghost costs = { λ _ _ _ _ _ _. ⊤ };

    fn begin(alloc: Global, checked: Checked) -> Result<Redrafting<E>, NoMemory> {
        let engine = E::begin(alloc, checked)?;
        Ok(Redrafting { engine })
    }

    fn draft(
        &mut self,
        caller: Caller,
        command: &Command,
        steps: &mut Steps,
    ) -> Result<Reply, NoMemory> {
        let first = self.engine.draft(caller, command, steps)?;
        if first.changes() {
            self.engine.undo();
        }
        self.engine.draft(caller, command, steps)
    }

    fn keep(&mut self) {
        self.engine.keep();
    }

    fn undo(&mut self) {
        self.engine.undo();
    }

    fn status(&self, session: u32) -> Option<SessionState> {
        self.engine.status(session)
    }

    fn state(&self) -> &State {
        self.engine.state()
    }

    fn into_state(self) -> State {
        self.engine.into_state()
    }

    fn restore(alloc: Global, state: State) -> Result<Redrafting<E>, RestoreFault> {
        let engine = E::restore(alloc, state)?;
        Ok(Redrafting { engine })
    }
}

/// What `trial` prints of a document by an engine.
pub fn printed_by<E: Engine>(alloc: Global, document: &[u8]) -> Result<Vec<u8>, Fail> {
    if document.len() > 4_194_304 {
        return Err("a long document".into());
    }
    let checked = check(read_policy(alloc, policy_part(document))?)?;
    let script = read_script(alloc, document)?;
    Ok(trial_output::<E>(alloc, checked, &script)?)
}

#[test]
fn engines_answer_alike(rt: HostRuntime) -> Result<(), Fail> {
    let alloc = rt.alloc();
    let text = generate(alloc, 3, 2000)?;
    let plain = printed_by::<PlainMonitor>(alloc, &text)?;
    let indexed = printed_by::<Monitor>(alloc, &text)?;
    assert!(rt; plain.starts_with(b"0 1 ok\n".as_slice()));
    assert!(rt; indexed.as_slice() == plain.as_slice());
    Ok(())
}

/// A step that is undone leaves nothing behind.
#[test]
fn steps_are_drafted_again(rt: HostRuntime) -> Result<(), Fail> {
    let alloc = rt.alloc();
    for rows in [WORKED_ROWS, AMENDED_ROWS, TIMED_ROWS] {
        for row in rows {
            let document = document(alloc, row.policy, row.script)?;
            let again = printed_by::<Redrafting<Monitor>>(alloc, &document)?;
            assert!(rt; again.as_slice() == row.output, "{}", row.name);
        }
    }
    Ok(())
}

/// Uses go on while the subject's own attribute is 0.
const READERS: &[u8] = b"attr s k : int 0..1 = 0;
right w { on a t: s.k = 0; }
";

/// Steps of one client: their document, what is answered, and the journal of them.
#[derive(Drop)]
struct Dialogue {
    document: Vec<u8>,
    output: Vec<u8>,
    file: Vec<u8>,
}

impl Dialogue {
    /// No step yet.
    fn new(alloc: Global, policy: &[u8]) -> Result<Dialogue, Fail> {
        let mut document = Vec::from_slice(alloc, policy)?;
        document.extend_from_slice(b"%%\nclient 0\n")?;
        let mut file = Vec::from_slice(alloc, b"UCONJR02")?;
        put_record(&mut file, policy)?;
        Ok(Dialogue {
            document,
            output: Vec::new(alloc),
            file,
        })
    }

    /// A step with its place and the reply to it.
    fn put(&mut self, alloc: Global, command: &str, place: u32, reply: &str) -> Result<(), Fail> {
        self.document.extend_from_slice(command.as_bytes())?;
        self.document.push(b'\n')?;
        let line = format!(in alloc; "0 {place} {reply}\n")?;
        self.output.extend_from_slice(line.as_bytes())?;
        let payload = format!(in alloc; "0 {command}\n{reply}")?;
        put_record(&mut self.file, payload.as_bytes())
    }
}

/// A record that counts.
fn put_record(file: &mut Vec<u8>, payload: &[u8]) -> Result<(), Fail> {
    let length = u32::try_from(payload.len()).unwrap_or(u32::MAX);
    file.push(1)?;
    file.extend_from_slice(&length.to_be_bytes())?;
    file.extend_from_slice(payload)?;
    Ok(())
}

/// 60,000 usages of one subject, and 100,000 writes to another's attribute.
fn many_readers(alloc: Global) -> Result<Dialogue, Fail> {
    let mut readers = Dialogue::new(alloc, READERS)?;
    readers.put(alloc, "subject a", 1, "ok")?;
    readers.put(alloc, "subject b", 2, "ok")?;
    readers.put(alloc, "object x", 3, "ok")?;
    for n in 1..60_001u32 {
        let reply = format!(in alloc; "permitted {n}")?;
        readers.put(alloc, "try a w x", n + 3, reply.as_str())?;
    }
    for place in 60_004..160_004u32 {
        readers.put(alloc, "set s b k 1", place, "ok")?;
    }
    readers.file.push(0)?;
    Ok(readers)
}

/// Whether a form answers one step more behind the readers' file.
fn is_next<R: Threads + Wait + Sync>(
    rt: &R,
    alloc: Global,
    form: &str,
    file: &[u8],
) -> Result<bool, Fail> {
    let one_more = document(alloc, READERS, b"client 0\nsubject c\n")?;
    let disk = stopping(alloc, file, None)?;
    let end = over(rt, alloc, form, &one_more, disk, &OpenGate)?;
    let is_done = matches!(end.outcome, Outcome::Done);
    Ok(is_done && end.output.as_slice() == b"0 160004 ok\n".as_slice())
}

/// A step that touches nobody asks nobody: with all asked this would be thousands of millions of judgements, three times.
#[test]
fn who_is_not_touched_is_not_asked(rt: HostRuntime) -> Result<(), Fail> {
    let readers = many_readers(rt.alloc())?;
    let found = printed_by::<Monitor>(rt.alloc(), &readers.document)?;
    assert!(rt; found == readers.output);
    assert!(rt; is_next(&rt, rt.alloc(), "play", &readers.file)?);
    assert!(rt; is_next(&rt, rt.alloc(), "serve", &readers.file)?);
    Ok(())
}

/// Answers no step that asks more than one session: it is undone, as if there were no memory for it.
#[derive(Drop)]
struct Sparing<E: Engine> {
    engine: E,
}

impl<E: Engine> Engine for Sparing<E> {
    ghost follows = { λ e. E.follows e.engine };

    ghost has_pending = { λ e. E.has_pending e.engine };

    // Nothing is promised of what a draft costs.
    ghost costs = { λ _ _ _ _ _ _. ⊤ };

    fn begin(alloc: Global, checked: Checked) -> Result<Sparing<E>, NoMemory> {
        let engine = E::begin(alloc, checked)?;
        Ok(Sparing { engine })
    }

    fn draft(
        &mut self,
        caller: Caller,
        command: &Command,
        _steps: &mut Steps,
    ) -> Result<Reply, NoMemory> {
        let mut asked = Steps::new();
        let drafted = self.engine.draft(caller, command, &mut asked)?;
        if asked.count() <= 1 {
            return Ok(drafted);
        }
        if drafted.changes() {
            self.engine.undo();
        }
        Err(NoMemory::from(AllocError))
    }

    fn keep(&mut self) {
        self.engine.keep();
    }

    fn undo(&mut self) {
        self.engine.undo();
    }

    fn status(&self, session: u32) -> Option<SessionState> {
        self.engine.status(session)
    }

    fn state(&self) -> &State {
        self.engine.state()
    }

    fn into_state(self) -> State {
        self.engine.into_state()
    }

    fn restore(alloc: Global, state: State) -> Result<Sparing<E>, RestoreFault> {
        let engine = E::restore(alloc, state)?;
        Ok(Sparing { engine })
    }
}

/// A usage may last 10 ticks.
const TIMED: &[u8] = b"right w { on c t: lasts 10; }\n";

/// 1,000 usages: one from tick 0 on, and 999 from tick 5 on.
fn many_timed(alloc: Global) -> Result<Dialogue, Fail> {
    let mut timed = Dialogue::new(alloc, TIMED)?;
    timed.put(alloc, "subject a", 1, "ok")?;
    timed.put(alloc, "object x", 2, "ok")?;
    timed.put(alloc, "try a w x", 3, "permitted 1")?;
    timed.put(alloc, "tick 5", 4, "ok")?;
    for n in 2..1_001u32 {
        let reply = format!(in alloc; "permitted {n}")?;
        timed.put(alloc, "try a w x", n + 3, reply.as_str())?;
    }
    Ok(timed)
}

/// A tick asks those whose limit it passes, and nobody else.
#[test]
fn a_tick_asks_who_is_due(rt: HostRuntime) -> Result<(), Fail> {
    let alloc = rt.alloc();
    let mut timed = many_timed(alloc)?;
    timed.put(alloc, "tick 11", 1_004, "ok revoked 1 t")?;
    timed.put(alloc, "tick 15", 1_005, "ok")?;
    // Here all the others are due, so this step asks more than one.
    timed.document.extend_from_slice(b"tick 16\n")?;
    timed.output.extend_from_slice(b"0 - no memory\n")?;
    let found = printed_by::<Sparing<Monitor>>(alloc, &timed.document)?;
    assert!(rt; found == timed.output);
    Ok(())
}
