//! Amendments from their texts.

ghost use Rattle.std.specs.Prelude.{◌≡◌, ◌==◌, option_map, IfOk, IfSome};
ghost use Rattle.ucon_model.specs.Amending.{has_newline};
ghost use Rattle.ucon_model.specs.Checked.{checked_policy};
ghost use Rattle.ucon_model.specs.CommandLine.{amendment_in};
ghost use Rattle.ucon_model.specs.Spells.{Spells};
ghost use Rattle.ucon_syntax.specs.Policies.{accepted};

use std::alloc::Global;
use ucon_base::{NoMemory, Rows};
use ucon_check::check;
use ucon_model::{Amend, Checked};
use ucon_syntax::{SyntaxFault, read_policy};

/// The policy that the text spells, if it is one and well typed.
pub fn read_accepted(alloc: Global, text: &[u8]) -> Result<Option<Checked>, NoMemory>
    ensures policy { IfOk result (λ read. accepted text.now ≡ option_map checked_policy read) }
    ensures spelled { IfOk result (λ read. IfSome read (λ c. Spells text.now (checked_policy c))) }
{
    let policy = match read_policy(alloc, text) {
        Ok(policy) => policy,
        Err(SyntaxFault::NoMemory(e)) => return Err(e),
        Err(_) => return Ok(None),
    };
    match check(policy) {
        Ok(checked) => Ok(Some(checked)),
        Err(_) => Ok(None),
    }
}

fn has_newline(text: &[u8]) -> bool
    ensures { result ≡ has_newline text.now }
{
    text.iter().any(|b| *b == b'\n')
}

/// The amendment whose policy the text spells.
pub fn amendment_in(alloc: Global, text: &[u8]) -> Result<Option<Amend>, NoMemory>
    ensures { IfOk result (λ a. a ≡ amendment_in accepted text.now) }
{
    if has_newline(text) {
        return Ok(None);
    }
    match read_accepted(alloc, text)? {
        Some(checked) => {
            let text = Rows::from(Vec::from_slice(alloc, text)?);
            Ok(Some(Amend::new(text, checked)))
        }
        None => Ok(None),
    }
}
