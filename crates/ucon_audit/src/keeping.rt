//! What a full check keeps of a history: an engine behind it, without its entries.

ghost use Rattle.std.specs.Prelude.{◌≡◌, ◌<◌, ◌≤◌, ◌^◌, ◌∷◌, [], ◌+◌, ◌++◌, ◌&&◌, length, true, false, Some, None, Ok, IfOk, OnOk, MatchOption, MatchBool, if◌then◌else◌};
ghost use Rattle.std.specs.Str.{bytes_eq};
ghost use Rattle.ucon_audit.specs.Keeping.{Keeps};
ghost use Rattle.ucon_engine.specs.Engine.{IsIdle};
ghost use Rattle.ucon_model.specs.Action.{Trace};
ghost use Rattle.ucon_model.specs.Found.{taken};
ghost use Rattle.ucon_model.specs.History.{History, trace};
ghost use Rattle.ucon_model.specs.Payload.{Told, entry_told, payload_read};
ghost use Rattle.ucon_model.specs.Plain.{Bytes, PlainPolicy};
ghost use Rattle.ucon_store.specs.Points.{checkpoint, is_point, takes_with, text_behind};
ghost use Rattle.ucon_syntax.specs.Policies.{accepted};
ghost use Rattle.ucon_command.specs.Payloads.{entry_read};

use std::alloc::Global;
use ucon_base::{NoMemory, Steps};
use ucon_command::{
    PayloadFault, read_accepted, read_entry, steps_are_taken_as_spelled, tells_reply,
};
use ucon_engine::Engine;
use ucon_journal::MAX_PAYLOAD;
use ucon_model::{Caller, Command, Entry};
use ucon_point::point_text;

/// A history under a policy, kept by an engine. Of its entries only their number is kept, and the text of the policy in force behind them.
#[derive(Drop)]
pub(crate) struct Keeping<E: Engine> {
    pub engine: E,
    pub entries: u64,
    pub in_force: Vec<u8>,
    /// Where replies are spelled. Its memory is kept for the next one.
    pub payload: Vec<u8>,
}

impl<E: Engine> Keeping<E> {
    /// No entry yet, under the policy of this text. None where the text is none of a policy.
    pub(crate) fn begin(alloc: Global, text: &[u8]) -> Result<Option<Keeping<E>>, NoMemory>
        ensures { IfOk result (λ o. MatchOption o (accepted text.now ≡ None)
            (λ k. (P : PlainPolicy) × (accepted text.now ≡ Some P) × Keeps E.follows k text.now P [])) }
    {
        let Some(checked) = read_accepted(alloc, text)? else {
            return Ok(None);
        };
        let in_force = Vec::from_slice(alloc, text)?;
        let engine = E::begin(alloc, checked)?;
        Ok(Some(Keeping {
            engine,
            entries: 0,
            in_force,
            payload: Vec::new(alloc),
        }))
    }

    /// Takes in what the payload of a record behind record 0 tells, where there may be checkpoints or not. False where the record is wrong; what
    /// is kept is then of no more use.
    pub(crate) fn take(
        &mut self,
        alloc: Global,
        points: bool,
        payload: &[u8],
    ) -> Result<bool, NoMemory>
        requires idle { IsIdle E.follows self.old.engine }
        requires few { self.old.entries < 2 ^ 63 }
        requires short { length payload.now ≤ MAX_PAYLOAD }
        ensures taken { IfOk result (λ right. (text : Bytes) (P : PlainPolicy) (H : History) → Keeps E.follows self.old text P H
            → MatchBool right
            ((G : History) × (takes_with points text P H payload.now ≡ Some G) × (length G ≤ length H + 1) × Keeps E.follows self.new text P G)
            (takes_with points text P H payload.now ≡ None)) }
    {
        if is_point(points, payload) {
            return self.is_checkpoint(alloc, payload);
        }
        self.take_step(alloc, payload)
    }

    /// Whether the payload is the checkpoint of what is kept, byte for byte.
    fn is_checkpoint(&self, alloc: Global, payload: &[u8]) -> Result<bool, NoMemory>
        ensures { IfOk result (λ same. (text : Bytes) (P : PlainPolicy) (H : History) → Keeps E.follows self.now text P H
            → same ≡ bytes_eq payload.now (checkpoint text P H)) }
    {
        let text = point_text(alloc, self.entries, &self.in_force, self.engine.state())?;
        Ok(payload == text.as_slice())
    }

    /// Takes the step of a payload in, if it is the next one: the engine's reply changes something, and the step with it is spelled as the
    /// payload. The payload's own reply isn't read. False if it isn't the next one.
    fn take_step(&mut self, alloc: Global, payload: &[u8]) -> Result<bool, NoMemory>
        requires idle { IsIdle E.follows self.old.engine }
        requires few { self.old.entries < 2 ^ 63 }
        requires short { length payload.now ≤ MAX_PAYLOAD }
        ensures taken { IfOk result (λ right. (text : Bytes) (P : PlainPolicy) (H : History) → Keeps E.follows self.old text P H
            → MatchBool right
            ((e : Entry) × (taken accepted P H payload.now ≡ Some (H ++ e ∷ [])) × Keeps E.follows self.new text P (H ++ e ∷ []))
            (taken accepted P H payload.now ≡ None)) }
    {
        steps_are_taken_as_spelled();
        let mut entry = Entry {
            caller: Caller(0),
            command: Command::Look(0),
        };
        let rest = match read_entry(alloc, payload, &mut entry) {
            Ok(rest) => rest,
            Err(PayloadFault::BadPlace(_)) => return Ok(false),
            Err(PayloadFault::NoMemory(refused)) => return Err(refused),
        };
        if !self.drafts(alloc, &entry, payload, rest)? {
            return Ok(false);
        }
        self.put_in_force(alloc, &entry.command)?;
        self.engine.keep();
        self.entries += 1;
        Ok(true)
    }

    /// Drafts the entry of a payload. Whether the engine's reply changes something, and its text stands behind the entry: then the step is pending.
    fn drafts(
        &mut self,
        alloc: Global,
        entry: &Entry,
        payload: &[u8],
        rest: &[u8],
    ) -> Result<bool, NoMemory>
        requires idle { IsIdle E.follows self.old.engine }
        requires short { length payload.now ≤ MAX_PAYLOAD }
        requires read { entry_read accepted payload.now ≡ Ok (entry.now, rest.now) }
        requires told { (t : Told) → payload_read accepted payload.now ≡ Ok t → entry.now ≡ entry_told t }
        ensures pending { IfOk result (λ same. same ≡ true → (P : PlainPolicy) (T : Trace) → E.follows self.old.engine P T
            → E.has_pending self.new.engine P T entry.now) }
        ensures taken { IfOk result (λ same. (P : PlainPolicy) (H : History) → E.follows self.old.engine P (trace P H)
            → taken accepted P H payload.now ≡ (if same then Some (H ++ entry.now ∷ []) else None)) }
        ensures rest { self.new ≡ record self.old { engine = self.new.engine; payload = self.new.payload } }
    {
        steps_are_taken_as_spelled();
        let mut steps = Steps::new();
        let drafted = self.engine.draft(entry.caller, &entry.command, &mut steps)?;
        if !drafted.changes() {
            return Ok(false);
        }
        tells_reply(alloc, &mut self.payload, rest, &drafted)
    }

    /// The text of the policy in force behind a command: that of an amendment, or the one before it.
    fn put_in_force(&mut self, alloc: Global, command: &Command) -> Result<(), NoMemory>
        ensures text { OnOk result (self.new.in_force.items ≡ text_behind self.old.in_force.items command.now) }
        ensures rest { self.new ≡ record self.old { in_force = self.new.in_force } }
    {
        if let Command::Amend(amend) = command {
            self.in_force.clear();
            self.in_force.extend_from_slice(amend.text())?;
        }
        Ok(())
    }
}

/// Whether a payload has to be a checkpoint: where there may be any, it begins as one does.
fn is_point(points: bool, payload: &[u8]) -> bool
    ensures { result ≡ (points && is_point payload.now) }
{
    points && payload.starts_with(b"point ")
}
