//! The text of the policy in force.

ghost use Rattle.std.specs.Prelude.{◌≡◌, OnOk};
ghost use Rattle.ucon_store.specs.Points.{HoldsAmendment, text_behind};

use std::alloc::Global;
use std::mem;
use ucon_base::NoMemory;
use ucon_model::Command;

/// The text of the policy in force, and room for that of an amendment.
#[derive(Drop)]
pub(crate) struct InForce {
    pub text: Vec<u8>,
    /// The text of the amendment that was prepared last. Its memory is kept for the next one.
    next: Vec<u8>,
}

impl InForce {
    /// Keeps the text of the policy that is in force at the beginning.
    pub fn new(alloc: Global, text: Vec<u8>) -> InForce
        ensures { result.text ≡ text }
    {
        InForce {
            text,
            next: Vec::new(alloc),
        }
    }

    /// Takes the memory that is needed for a command to be done: that of its text, where it is an amendment.
    pub fn prepare(&mut self, command: &Command) -> Result<(), NoMemory>
        ensures text { self.new.text.items ≡ self.old.text.items }
        ensures ready { OnOk result (HoldsAmendment self.new.next.items command.now) }
    {
        if let Command::Amend(amend) = command {
            self.next.clear();
            self.next.extend_from_slice(amend.text())?;
        }
        Ok(())
    }

    /// The text after the command that was prepared is done.
    pub fn go_on(&mut self, command: &Command)
        requires ready { HoldsAmendment self.old.next.items command.now }
        ensures { self.new.text.items ≡ text_behind self.old.text.items command.now }
    {
        if let Command::Amend(_) = command {
            mem::swap(&mut self.text, &mut self.next);
        }
    }
}
