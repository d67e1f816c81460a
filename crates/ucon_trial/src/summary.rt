//! The summary of a run: how many lines there were, and how many answers of each kind.

ghost use Rattle.std.specs.Prelude.{◌≡◌, ◌^◌, ◌<◌, ◌++◌, IfOk, OnOk};
ghost use Rattle.ucon_model.specs.Summary.{count_line, no_lines, summary};
ghost use Rattle.ucon_model.specs.Views.{reply_of};
ghost use Rattle.ucon_trial.specs.Tallies.{IsTally, after_head, after_line, after_reply, counts_of, revocations};

use crate::hearer::Hearer;
use itoa::Buffer;
use std::alloc::Global;
use ucon_base::NoMemory;
use ucon_model::{Head, Reply};
use ucon_script::LineText;

/// What is counted of the answers so far. 128 bits hold each count of fewer than 2^64 lines, whatever their replies revoke; a count
/// that would not fit stands at the last value.
#[derive(Drop)]
pub struct Tally {
    pub lines: u128,
    /// Replies that change something.
    pub steps: u128,
    pub permitted: u128,
    pub denied: u128,
    pub waiting: u128,
    pub ended: u128,
    /// Revocations in all replies.
    pub revoked: u128,
    /// Replies that are refusals.
    pub refused: u128,
}

impl Tally {
    /// Begins with every count at 0.
    pub fn new() -> Tally
        ensures { counts_of result ≡ no_lines }
    {
        Tally {
            lines: 0,
            steps: 0,
            permitted: 0,
            denied: 0,
            waiting: 0,
            ended: 0,
            revoked: 0,
            refused: 0,
        }
    }

    fn count_line(&mut self)
        ensures { self.new ≡ after_line self.old }
    {
        self.lines = self.lines.saturating_add(1);
    }

    fn count_head(&mut self, head: &Head)
        ensures { self.new ≡ after_head head.now self.old }
    {
        match head {
            Head::Ok => {}
            Head::Permitted(_) => self.permitted = self.permitted.saturating_add(1),
            Head::Denied(_, _) => self.denied = self.denied.saturating_add(1),
            Head::Waiting(_, _) => self.waiting = self.waiting.saturating_add(1),
            Head::Ended(_) => self.ended = self.ended.saturating_add(1),
        }
    }

    fn count_reply(&mut self, reply: &Reply)
        ensures counted { self.new ≡ after_reply (reply_of reply.now) self.old }
        ensures few { revocations (reply_of reply.now) < 2 ^ 64 }
    {
        match reply {
            Reply::Refused(_) => self.refused = self.refused.saturating_add(1),
            Reply::Made { head, revoked } => {
                self.steps = self.steps.saturating_add(1);
                self.revoked = self.revoked.saturating_add(revoked.len() as u128);
                self.count_head(head);
            }
            Reply::Value(_) | Reply::Status(_, _) => {}
        }
    }

    /// The summary's eight lines.
    pub fn text(&self, alloc: Global) -> Result<Vec<u8>, NoMemory>
        ensures { IfOk result (λ text. text.items ≡ summary (counts_of self.now)) }
    {
        let mut text = Vec::new(alloc);
        put_count(&mut text, b"lines", self.lines)?;
        put_count(&mut text, b"steps", self.steps)?;
        put_count(&mut text, b"permitted", self.permitted)?;
        put_count(&mut text, b"denied", self.denied)?;
        put_count(&mut text, b"waiting", self.waiting)?;
        put_count(&mut text, b"ended", self.ended)?;
        put_count(&mut text, b"revoked", self.revoked)?;
        put_count(&mut text, b"refused", self.refused)?;
        Ok(text)
    }
}

impl Hearer for Tally {
    ghost hears = { λ tally told. IsTally tally told };

    fn reply(
        &mut self,
        _alloc: Global,
        _line: &LineText<'_>,
        _place: u64,
        reply: &Reply,
    ) -> Result<(), NoMemory> {
        self.count_line();
        self.count_reply(reply);
        Ok(())
    }

    fn no_memory(&mut self, _line: &LineText<'_>) -> Result<(), NoMemory> {
        self.count_line();
        Ok(())
    }
}

/// Adds a word, a space, a count and a newline.
fn put_count(out: &mut Vec<u8>, word: &[u8], n: u128) -> Result<(), NoMemory>
    ensures { OnOk result (out.new.items ≡ out.old.items ++ count_line word.now n) }
{
    out.extend_from_slice(word)?;
    out.push(b' ')?;
    let mut digits = Buffer::new();
    out.extend_from_slice(digits.format(n).as_bytes())?;
    out.push(b'\n')?;
    Ok(())
}
