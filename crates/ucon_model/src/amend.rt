//! A policy that replaces the one in force.

ghost use Rattle.std.specs.Prelude.{◌≡◌, IfOk};
ghost use Rattle.ucon_model.specs.Amending.{IsAmendment};
ghost use Rattle.ucon_model.specs.Checked.{checked_policy};

use crate::Checked;
use std::alloc::Global;
use std::marker::Model;
use ucon_base::{NoMemory, Rows};

/// A checked policy, and the one line that spells it.
#[derive(Drop)]
pub struct Amend {
    text: Rows<u8>,
    checked: Checked,
}

impl Model for Amend {
    ghost use Rattle.ucon_model.specs.Plain.{Amendment};
    ghost use Rattle.ucon_model.specs.Coded.{amendment_code};

    ghost Value = { Amendment };

    ghost coded = { amendment_code };

    ghost use Rattle.ucon_model.specs.Amending.{IsAmendment};
    ghost use Rattle.ucon_model.specs.Checked.{checked_policy};

    ghost view = { λ a. record { text = a.text.items; policy = checked_policy a.checked } };

    ghost invariant = { λ a. IsAmendment (record { text = a.text.items; policy = checked_policy a.checked }) };
}

impl Amend {
    /// Joins a policy with its text. The text must be one line that spells this policy.
    pub fn new(text: Rows<u8>, checked: Checked) -> Amend
        requires { IsAmendment (record { text = text.items; policy = checked_policy checked }) }
        ensures { result ≡ record { text = text.items; policy = checked_policy checked } }
    {
        Amend { text, checked }
    }

    /// The line that spells the policy.
    pub fn text(&self) -> &[u8]
        ensures text { result.now ≡ self.now.text }
        ensures spells { IsAmendment self.now }
    {
        self.text.slice()
    }

    /// The policy that the text spells.
    pub fn checked(&self) -> &Checked
        ensures policy { checked_policy result.now ≡ self.now.policy }
        ensures spells { IsAmendment self.now }
    {
        &self.checked
    }

    /// Copies the text and the policy. `Err` if there is no memory.
    pub fn copy(&self, alloc: Global) -> Result<Amend, NoMemory>
        ensures { IfOk result (λ a. a ≡ self.now) }
    {
        let mut text = Vec::new(alloc);
        text.extend_from_slice(self.text.slice())?;
        let checked = self.checked.copy(alloc)?;
        Ok(Amend::new(Rows::from(text), checked))
    }
}
