//! What a word of a command says, by its kind.

ghost use Rattle.std.specs.Prelude.{◌≡◌, IfOk, IsTrue, MatchResult};
ghost use Rattle.ucon_base.specs.NameBytes.{is_name};
ghost use Rattle.ucon_model.specs.CommandLine.{side_in, name_in, value_in, integer_in, number_in, amendment_in, said};
ghost use Rattle.ucon_syntax.specs.Policies.{accepted};
ghost use Rattle.ucon_command.specs.Faults.{IsRefusal, IsSure, IsTold};
ghost use Rattle.ucon_reply.specs.Words.{word_of};

use crate::amendment::amendment_in;
use crate::line_fault::LineFault;
use std::alloc::Global;
use ucon_base::{Int, Side, Value};
use ucon_model::Amend;
use ucon_reply::{Word, digits_in, is_name, number_in, side_in, value_in};

/// The side that a word names.
pub fn side_word(w: &Word<'_>) -> Result<Side, LineFault>
    ensures { MatchResult result (λ s. said side_in (word_of w.now) ≡ Ok s) (IsTold (said side_in (word_of w.now))) }
{
    side_in(w.text).ok_or(LineFault::BadWord(w.at))
}

/// That a word is a name.
pub fn name_word(w: &Word<'_>) -> Result<(), LineFault>
    ensures said { MatchResult result (λ _. said name_in (word_of w.now) ≡ Ok w.now.text.now) (IsTold (said name_in (word_of w.now))) }
    ensures name { IfOk result (λ _. IsTrue (is_name w.now.text.now)) }
{
    seen_name(w, is_name(w.text))
}

/// The same of a word of which it is known whether it is a name.
pub fn seen_name(w: &Word<'_>, seen: bool) -> Result<(), LineFault>
    requires { seen ≡ is_name w.now.text.now }
    ensures said { MatchResult result (λ _. said name_in (word_of w.now) ≡ Ok w.now.text.now) (IsTold (said name_in (word_of w.now))) }
    ensures name { IfOk result (λ _. IsTrue (is_name w.now.text.now)) }
{
    if seen {
        Ok(())
    } else {
        Err(LineFault::BadWord(w.at))
    }
}

/// The value that a word spells. An integer is read as one: that needs no room for a value of any kind.
#[inline(always)]
pub fn value_word(alloc: Global, w: &Word<'_>) -> Result<Value, LineFault>
    ensures { MatchResult result (λ v. said value_in (word_of w.now) ≡ Ok v) (IsSure (said value_in (word_of w.now))) }
{
    if let Some(n) = digits_in(w.text) {
        return Ok(Value::Int(n));
    }
    value_in(alloc, w.text)?.ok_or(LineFault::BadWord(w.at))
}

/// The integer that a word spells.
pub fn integer_word(w: &Word<'_>) -> Result<Int, LineFault>
    ensures { MatchResult result (λ n. said integer_in (word_of w.now) ≡ Ok n) (IsTold (said integer_in (word_of w.now))) }
{
    Int::read(w.text).ok_or(LineFault::BadWord(w.at))
}

/// The number that a word spells.
pub fn number_word(w: &Word<'_>) -> Result<u32, LineFault>
    ensures { MatchResult result (λ n. said number_in (word_of w.now) ≡ Ok n) (IsTold (said number_in (word_of w.now))) }
{
    number_in(w.text).ok_or(LineFault::BadWord(w.at))
}

/// The amendment whose policy a word spells.
pub fn amendment_word(alloc: Global, w: &Word<'_>) -> Result<Amend, LineFault>
    ensures { MatchResult result
        (λ a. said (amendment_in accepted) (word_of w.now) ≡ Ok a)
        (IsRefusal (said (amendment_in accepted) (word_of w.now))) }
{
    amendment_in(alloc, w.text)?.ok_or(LineFault::BadWord(w.at))
}
