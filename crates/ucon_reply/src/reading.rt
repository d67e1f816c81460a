//! Reads a reply from its text.

ghost use Rattle.std.specs.Prelude.{◌≡◌, List, ℕ, map, MatchResult, Some};
ghost use Rattle.ucon_model.specs.declared.reply.Head.TheVariants as heads;
ghost use Rattle.ucon_model.specs.ReplyText.{refusal_read, state_read, labelled_read, one_revoked, revoked_read, made_read, numbered_reply};
ghost use Rattle.ucon_model.specs.ReplyText.{labelled_reply, value_reply, status_of, status_reply, told_read, reply_read};
ghost use Rattle.ucon_model.specs.Spelling.{reply_spelling};
ghost use Rattle.ucon_model.specs.Views.{reply_of};
ghost use Rattle.ucon_reply.specs.Words.{word_of, BeginWithin};
ghost use Rattle.ucon_reply.specs.Replies.{Gives, GivesReply, IsNoReply, IsUnread};

use crate::kinds::{name_in, number_in, value_in};
use crate::laws::replies_are_read_back;
use crate::line_words::{Word, last_word, words};
use crate::replies::{refusal_words, state_word};
use crate::reply_fault::ReplyFault;
use std::alloc::Global;
use ucon_base::{Name, Rows};
use ucon_model::{Head, Refusal, Reply, Revoked, SessionState};

const REFUSALS: [Refusal; 20] = [
    Refusal::NotAdmin,
    Refusal::NoRight,
    Refusal::NoSubject,
    Refusal::NoObject,
    Refusal::NoAttribute,
    Refusal::NoVariable,
    Refusal::NoAct,
    Refusal::NoSession,
    Refusal::NotYours,
    Refusal::NotAccessing,
    Refusal::NotRequesting,
    Refusal::AlreadyThere,
    Refusal::BadValue,
    Refusal::TickBack,
    Refusal::KindChanged,
    Refusal::FullSubjects,
    Refusal::FullObjects,
    Refusal::FullActs,
    Refusal::FullSessions,
    Refusal::FullAccessing,
];

const STATES: [SessionState; 5] = [
    SessionState::Requesting,
    SessionState::Denied,
    SessionState::Accessing,
    SessionState::Revoked,
    SessionState::Ended,
];

/// The reply of which the bytes are the text.
#[tactic(auto, using(crate::proofs::ReadReplies::unread))]
pub fn read_reply(alloc: Global, bytes: &[u8]) -> Result<Reply, ReplyFault>
    ensures read { GivesReply result (reply_read bytes.now) }
    ensures text { MatchResult result (λ r. reply_spelling (reply_of r) ≡ bytes.now) (IsNoReply bytes.now) }
{
    replies_are_read_back();
    reply(alloc, bytes)
}

#[tactic(auto, unfolding(ucon_model::specs::ReplyText::reply_read))]
fn reply(alloc: Global, bytes: &[u8]) -> Result<Reply, ReplyFault>
    ensures { GivesReply result (reply_read bytes.now) }
{
    match refusal_in(bytes) {
        Some(r) => Ok(Reply::Refused(r)),
        None => {
            let words = words(alloc, bytes)?;
            told(alloc, bytes, &words)
        }
    }
}

fn refusal_in(bytes: &[u8]) -> Option<Refusal>
    ensures { result ≡ refusal_read bytes.now }
{
    REFUSALS
        .iter()
        .copied()
        .find(|r| bytes == refusal_words(*r))
}

fn state_in(bytes: &[u8]) -> Option<SessionState>
    ensures { result ≡ state_read bytes.now }
{
    STATES.iter().copied().find(|s| bytes == state_word(*s))
}

/// A reply that is no refusal, by its first word.
#[tactic(auto, unfolding(ucon_model::specs::ReplyText::told_read))]
fn told<'a>(alloc: Global, bytes: &'a [u8], words: &[Word<'a>]) -> Result<Reply, ReplyFault>
    requires { BeginWithin bytes.now words.now }
    ensures { GivesReply result (told_read bytes.now (map word_of words.now)) }
{
    match words {
        [] => Err(ReplyFault::BadReply),
        [first, rest @ ..] => {
            let first = first.text;
            if first == b"ok".as_slice() {
                made(alloc, Head::Ok, rest)
            } else if first == b"permitted".as_slice() {
                permitted(alloc, rest)
            } else if first == b"denied".as_slice() {
                denied(alloc, rest)
            } else if first == b"waiting".as_slice() {
                waiting(alloc, rest)
            } else if first == b"ended".as_slice() {
                ended(alloc, rest)
            } else if first == b"value".as_slice() {
                value_reply(alloc, bytes, rest)
            } else if first == b"status".as_slice() {
                status_reply(rest)
            } else {
                Err(ReplyFault::BadReply)
            }
        }
    }
}

/// What was made: a head, and the revocations behind it.
#[tactic(auto, unfolding(ucon_model::specs::ReplyText::made_read))]
fn made(alloc: Global, head: Head, words: &[Word<'_>]) -> Result<Reply, ReplyFault>
    ensures { GivesReply result (made_read head (map word_of words.now)) }
{
    let revoked = revoked(alloc, words)?;
    Ok(Reply::Made { head, revoked })
}

#[tactic(auto, unfolding(ucon_model::specs::ReplyText::numbered_reply))]
fn permitted(alloc: Global, words: &[Word<'_>]) -> Result<Reply, ReplyFault>
    ensures { GivesReply result (numbered_reply heads.Permitted (map word_of words.now)) }
{
    match words {
        [number, behind @ ..] => {
            let n = number_in(number.text).ok_or(ReplyFault::BadReply)?;
            made(alloc, Head::Permitted(n), behind)
        }
        [] => Err(ReplyFault::BadReply),
    }
}

#[tactic(auto, unfolding(ucon_model::specs::ReplyText::labelled_reply))]
fn denied(alloc: Global, words: &[Word<'_>]) -> Result<Reply, ReplyFault>
    ensures { GivesReply result (labelled_reply heads.Denied (map word_of words.now)) }
{
    match words {
        [number, label, behind @ ..] => {
            let (n, label) = labelled(number, label)?;
            made(alloc, Head::Denied(n, label), behind)
        }
        _ => Err(ReplyFault::BadReply),
    }
}

#[tactic(auto, unfolding(ucon_model::specs::ReplyText::labelled_reply))]
fn waiting(alloc: Global, words: &[Word<'_>]) -> Result<Reply, ReplyFault>
    ensures { GivesReply result (labelled_reply heads.Waiting (map word_of words.now)) }
{
    match words {
        [number, label, behind @ ..] => {
            let (n, label) = labelled(number, label)?;
            made(alloc, Head::Waiting(n, label), behind)
        }
        _ => Err(ReplyFault::BadReply),
    }
}

#[tactic(auto, unfolding(ucon_model::specs::ReplyText::numbered_reply))]
fn ended(alloc: Global, words: &[Word<'_>]) -> Result<Reply, ReplyFault>
    ensures { GivesReply result (numbered_reply heads.Ended (map word_of words.now)) }
{
    match words {
        [number, behind @ ..] => {
            let n = number_in(number.text).ok_or(ReplyFault::BadReply)?;
            made(alloc, Head::Ended(n), behind)
        }
        [] => Err(ReplyFault::BadReply),
    }
}

#[tactic(auto, unfolding(ucon_model::specs::ReplyText::labelled_read))]
fn labelled(number: &Word<'_>, label: &Word<'_>) -> Result<(u32, Name), ReplyFault>
    ensures { Gives result (labelled_read (word_of number.now) (word_of label.now)) }
{
    let n = number_in(number.text).ok_or(ReplyFault::BadReply)?;
    let label = name_in(label.text).ok_or(ReplyFault::BadReply)?;
    Ok((n, label))
}

/// The revocations of these words.
fn revoked(alloc: Global, words: &[Word<'_>]) -> Result<Rows<Revoked>, ReplyFault>
    ensures { MatchResult result (λ rs. revoked_read (map word_of words.now) ≡ Some rs.items) (IsUnread (revoked_read (map word_of words.now))) }
{
    let mut rows = Vec::new(alloc);
    let mut rest = words;
    while let [word, number, label, behind @ ..] = rest {
        rows.push(one_revoked(word, number, label)?)?;
        rest = behind;
    }
    if rest.is_empty() {
        Ok(Rows::from(rows))
    } else {
        Err(ReplyFault::BadReply)
    }
}

#[tactic(auto, unfolding(ucon_model::specs::ReplyText::one_revoked))]
fn one_revoked(word: &Word<'_>, number: &Word<'_>, label: &Word<'_>) -> Result<Revoked, ReplyFault>
    ensures { Gives result (one_revoked (word_of word.now) (word_of number.now) (word_of label.now)) }
{
    if word.text == b"revoked".as_slice() {
        let (session, label) = labelled(number, label)?;
        Ok(Revoked { session, label })
    } else {
        Err(ReplyFault::BadReply)
    }
}

/// A value, which takes the rest of the text.
#[tactic(auto, unfolding(ucon_model::specs::ReplyText::value_reply))]
fn value_reply<'a>(alloc: Global, bytes: &'a [u8], words: &[Word<'a>]) -> Result<Reply, ReplyFault>
    requires { BeginWithin bytes.now words.now }
    ensures { GivesReply result (value_reply bytes.now (map word_of words.now)) }
{
    match words {
        [value, ..] => {
            let value = last_word(bytes, value.at);
            let v = value_in(alloc, value.text)?.ok_or(ReplyFault::BadReply)?;
            Ok(Reply::Value(v))
        }
        [] => Err(ReplyFault::BadReply),
    }
}

#[tactic(auto, unfolding(ucon_model::specs::ReplyText::status_of))]
fn status_of(number: &Word<'_>, state: &Word<'_>) -> Result<Reply, ReplyFault>
    ensures { GivesReply result (status_of (word_of number.now) (word_of state.now)) }
{
    let n = number_in(number.text).ok_or(ReplyFault::BadReply)?;
    let state = state_in(state.text).ok_or(ReplyFault::BadReply)?;
    Ok(Reply::Status(n, state))
}

/// A session's number and its state.
#[tactic(auto, unfolding(ucon_model::specs::ReplyText::status_reply))]
fn status_reply(words: &[Word<'_>]) -> Result<Reply, ReplyFault>
    ensures { GivesReply result (status_reply (map word_of words.now)) }
{
    match words {
        [number, state] => status_of(number, state),
        _ => Err(ReplyFault::BadReply),
    }
}
