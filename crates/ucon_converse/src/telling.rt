//! Answers lines that are no client's request: a reading is told, and else why the line is none.

ghost use Rattle.std.specs.Prelude.{◌≡◌, ◌∷◌, ◌++◌, [], codes, IfOk, OnOk, None, Some};
ghost use Rattle.ucon_command.specs.Requests.{IsAskedBy, IsOfClient, IsRefusedTo};
ghost use Rattle.ucon_model.specs.declared.command.Caller.{Caller as Caller'};
ghost use Rattle.ucon_model.specs.History.{History};
ghost use Rattle.ucon_model.specs.Output.{Lacks};
ghost use Rattle.ucon_model.specs.Plain.{Bytes, PlainPolicy};
ghost use Rattle.ucon_store.specs.Whole.{IsFront};
ghost use Rattle.ucon_syntax.specs.Policies.{accepted};
ghost use Rattle.ucon_tell.specs.Told.{IsReplied};
ghost use Rattle.ucon_converse.specs.Keeping.{IsLed};
ghost use Rattle.ucon_converse.specs.Readings.{line_told, reading_line, text_told};
ghost use Rattle.ucon_converse.specs.Replies.{IsToldSo};
ghost use Rattle.ucon_converse.specs.Unasked.{IsToldUnasked};

use crate::lines::{put_fault, put_refusal};
use crate::reading::{Reading, read_reading};
use crate::reading_texts::{
    explain_text, quoted_text, session_text, state_text, using_of_text, using_text,
};
use std::alloc::Global;
use ucon_base::{NoMemory, put, put_number};
use ucon_command::RequestFault;
use ucon_disk::Disk;
use ucon_engine::Engine;
use ucon_model::texts_lack_bytes;
use ucon_store::Store;

/// Adds the line to one that is no request, for this reason. Where it is a reading it is told, of what the store stands for, and no step is made.
pub(crate) fn answer_unasked<E: Engine, D: Disk>(
    alloc: Global,
    store: &Store<E, D>,
    line: &[u8],
    fault: RequestFault,
    out: &mut Vec<u8>,
) -> Result<(), NoMemory>
    requires led { IsLed store.now }
    requires client { IsOfClient line.now fault }
    requires refused { (caller : Caller') (text : Bytes) → IsAskedBy line.now caller text → IsRefusedTo caller text fault }
    requires unpointed { line.now ≡ codes "point" → ⊥ }
    ensures { OnOk result (IsReplied (IsToldUnasked D.seen store.now line.now) out.old.items out.new.items) }
{
    texts_lack_bytes();
    match read_reading(line) {
        Some(reading) => tell_reading(alloc, store, &reading, out),
        None => put_fault(out, fault, store.is_stopped()),
    }
}

/// Adds the line of a reading. Behind a disk fault none is told, since the step that met it may be on the disk or not.
fn tell_reading<E: Engine, D: Disk>(
    alloc: Global,
    store: &Store<E, D>,
    reading: &Reading,
    out: &mut Vec<u8>,
) -> Result<(), NoMemory>
    requires { IsLed store.now }
    ensures { OnOk result (IsReplied (λ reply. (P : PlainPolicy) (G : History) → accepted store.now.policy ≡ Some P → IsFront P store.now G
        → IsToldSo store.now.mark (line_told P store.now.policy (G ++ store.now.entries) reading.now) reply) out.old.items out.new.items) }
{
    texts_lack_bytes();
    if store.is_stopped() {
        return put_refusal(out, b"stopped");
    }
    match reading_text(alloc, store, reading) {
        Ok(text) => put_reading(out, store.place(), &text),
        Err(_) => put_refusal(out, b"no memory"),
    }
}

/// Adds the line of what a reading is told, with the number of the steps.
fn put_reading(out: &mut Vec<u8>, steps: u64, told: &[u8]) -> Result<(), NoMemory>
    ensures { OnOk result (out.new.items ≡ out.old.items ++ reading_line steps told.now) }
{
    put(out, b"- ")?;
    put_number(out, steps)?;
    put(out, b" ")?;
    put(out, told)?;
    put(out, b"\n")
}

/// What a reading is told.
fn reading_text<E: Engine, D: Disk>(
    alloc: Global,
    store: &Store<E, D>,
    reading: &Reading,
) -> Result<Vec<u8>, NoMemory>
    requires led { IsLed store.now }
    requires unmarked { store.now.mark ≡ None }
    ensures told { IfOk result (λ told. (P : PlainPolicy) (G : History) → accepted store.now.policy ≡ Some P → IsFront P store.now G
        → told.items ≡ text_told P store.now.policy (G ++ store.now.entries) reading.now) }
    ensures bare { IfOk result (λ told. Lacks 10 told.items) }
{
    texts_lack_bytes();
    match reading {
        Reading::State => state_text(alloc, store.place(), store.state()),
        Reading::Session(n) => session_text(alloc, store.state(), *n),
        Reading::Using => using_text(alloc, store.state()),
        Reading::UsingOf { side, name } => using_of_text(alloc, store.state(), *side, name),
        Reading::Explain {
            subject,
            right,
            object,
        } => explain_text(alloc, store.state(), subject, right, object),
        Reading::Policy => quoted_text(alloc, store.policy_in_force()),
        Reading::Steps => Ok(Vec::from_slice(alloc, b"steps")?),
    }
}
