//! Replies as text.

ghost use Rattle.std.specs.Prelude.{◌≡◌, ◌≤◌, ◌++◌, ◌∷◌, length, IfOk, OnOk, Some};
ghost use Rattle.std.specs.Fmt.{decimal};
ghost use Rattle.ucon_base.specs.Elements.{Each};
ghost use Rattle.ucon_model.specs.Output.{Lacks};
ghost use Rattle.ucon_model.specs.ReplyText.{IsHead, IsLabelled, IsReply, reply_read};
ghost use Rattle.ucon_model.specs.Spelling.{refusal_words, state_word, head_spelling, revoked_spelling, reply_spelling};
ghost use Rattle.ucon_model.specs.Views.{reply_of};
ghost use Rattle.ucon_reply.specs.Replies.{most_reply};

use crate::laws::replies_are_read_back;
use crate::spelling::{put_name, put_session, put_value};
use std::alloc::Global;
use ucon_base::{Name, NoMemory, put};
use ucon_model::{Head, Refusal, Reply, Revoked, SessionState};

/// The one text of a reply, which has no newline in it: at most 4306 bytes, and 52 for each revocation.
pub fn reply_text(alloc: Global, reply: &Reply) -> Result<Vec<u8>, NoMemory>
    ensures text { IfOk result (λ t. t.items ≡ reply_spelling (reply_of reply.now)) }
    ensures read_back { IfOk result (λ t. reply_read t.items ≡ Some (reply_of reply.now)) }
    ensures one_line { IfOk result (λ t. Lacks 10 t.items) }
    ensures short { IfOk result (λ t. length t.items ≤ most_reply (reply_of reply.now)) }
{
    let mut text = Vec::new(alloc);
    put_reply(alloc, &mut text, reply)?;
    Ok(text)
}

/// Adds the one text of a reply, which has no newline in it: at most 4306 bytes, and 52 for each revocation. If there is no memory, some of it may
/// stand there, so a caller gives the text up.
pub fn put_reply(alloc: Global, out: &mut Vec<u8>, reply: &Reply) -> Result<(), NoMemory>
    ensures text { OnOk result (out.new.items ≡ out.old.items ++ reply_spelling (reply_of reply.now)) }
    ensures read_back { OnOk result (reply_read (reply_spelling (reply_of reply.now)) ≡ Some (reply_of reply.now)) }
    ensures one_line { OnOk result (Lacks 10 (reply_spelling (reply_of reply.now))) }
    ensures short { OnOk result (length (reply_spelling (reply_of reply.now)) ≤ most_reply (reply_of reply.now)) }
{
    replies_are_read_back();
    put_spelling(alloc, out, reply)
}

/// Adds the one text of a reply, and tells that the reply is in form, from which what [`put_reply`] tells follows. If there is no memory, some of
/// it may stand there: a caller gives the text up.
#[inline(always)]
pub fn put_spelling(alloc: Global, out: &mut Vec<u8>, reply: &Reply) -> Result<(), NoMemory>
    ensures text { OnOk result (out.new.items ≡ out.old.items ++ reply_spelling (reply_of reply.now)) }
    ensures in_form { OnOk result (IsReply (reply_of reply.now)) }
{
    match reply {
        Reply::Refused(r) => put(out, refusal_words(*r)),
        Reply::Made { head, revoked } => {
            put_head(out, head)?;
            put_revoked(out, revoked.slice())
        }
        Reply::Value(v) => {
            put(out, b"value")?;
            put_value(alloc, out, v)
        }
        Reply::Status(n, state) => {
            put_session(out, b"status ", *n)?;
            put(out, b" ")?;
            put(out, state_word(*state))
        }
    }
}

/// The text of a refusal.
pub fn refusal_words(r: Refusal) -> &'static [u8]
    ensures { result.now ≡ refusal_words r }
{
    match r {
        Refusal::NotAdmin => b"not admin",
        Refusal::NoRight => b"no right",
        Refusal::NoSubject => b"no subject",
        Refusal::NoObject => b"no object",
        Refusal::NoAttribute => b"no attribute",
        Refusal::NoVariable => b"no variable",
        Refusal::NoAct => b"no act",
        Refusal::NoSession => b"no session",
        Refusal::NotYours => b"not yours",
        Refusal::NotAccessing => b"not accessing",
        Refusal::NotRequesting => b"not requesting",
        Refusal::AlreadyThere => b"already there",
        Refusal::BadValue => b"bad value",
        Refusal::TickBack => b"tick back",
        Refusal::KindChanged => b"kind changed",
        Refusal::FullSubjects => b"full subjects",
        Refusal::FullObjects => b"full objects",
        Refusal::FullActs => b"full acts",
        Refusal::FullSessions => b"full sessions",
        Refusal::FullAccessing => b"full accessing",
    }
}

/// The word for a session's state.
pub fn state_word(state: SessionState) -> &'static [u8]
    ensures { result.now ≡ state_word state }
{
    match state {
        SessionState::Requesting => b"requesting",
        SessionState::Denied => b"denied",
        SessionState::Accessing => b"accessing",
        SessionState::Revoked => b"revoked",
        SessionState::Ended => b"ended",
    }
}

/// Adds a word, a session's number, a space and a label.
#[inline(always)]
fn put_labelled(out: &mut Vec<u8>, word: &[u8], n: u32, label: &Name) -> Result<(), NoMemory>
    ensures text { OnOk result (out.new.items ≡ out.old.items ++ (word.now ++ decimal n ++ 32 ∷ label.now)) }
    ensures in_form { OnOk result (IsLabelled n label.now) }
{
    put_session(out, word, n)?;
    put_name(out, label)
}

#[inline(always)]
fn put_head(out: &mut Vec<u8>, head: &Head) -> Result<(), NoMemory>
    ensures text { OnOk result (out.new.items ≡ out.old.items ++ head_spelling head.now) }
    ensures in_form { OnOk result (IsHead head.now) }
{
    match head {
        Head::Ok => put(out, b"ok"),
        Head::Permitted(n) => put_session(out, b"permitted ", *n),
        Head::Denied(n, label) => put_labelled(out, b"denied ", *n, label),
        Head::Waiting(n, label) => put_labelled(out, b"waiting ", *n, label),
        Head::Ended(n) => put_session(out, b"ended ", *n),
    }
}

#[inline(always)]
fn put_revoked(out: &mut Vec<u8>, revoked: &[Revoked]) -> Result<(), NoMemory>
    ensures text { OnOk result (out.new.items ≡ out.old.items ++ revoked_spelling revoked.now) }
    ensures in_form { OnOk result (Each (λ r. IsLabelled r.session r.label) revoked.now) }
{
    for r in revoked {
        put_labelled(out, b" revoked ", r.session, &r.label)?;
    }
    Ok(())
}
