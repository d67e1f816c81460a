//! Whom a command's own actions concern, read off the command and the head of its reply.

ghost use Rattle.std.specs.Prelude.{◌≡◌, ◌<◌, ◌∷◌, ℕ, [], length, Some, IsTrue};
ghost use Rattle.ucon_model.specs.declared.reply.Head.TheVariants as heads;
ghost use Rattle.ucon_model.specs.Reach.{attribute_of, targets, variable_of};
ghost use Rattle.ucon_model.specs.Views.{update_of};
ghost use Rattle.ucon_model.specs.declared.session.SessionRow.{SessionRow};
ghost use Rattle.ucon_state.specs.Shown.{shown};
ghost use Rattle.ucon_state.specs.Tables.{session_in};
ghost use Rattle.ucon_cascade.specs.Putting.{AllBelow, GainsFirsts, GoesOn, IsCommandWork, IsOwnWork, IsPermitWork, StandsAt, StandsAtOne};
ghost use Rattle.ucon_cascade.specs.Putting.{targets_in};
ghost use Rattle.ucon_readers.specs.Readers.{first_of, readers_at};

use crate::places::{attribute_place, place_of_session, variable_place};
use ucon_actions::{is_accessing, is_of};
use ucon_base::{Name, Side};
use ucon_collections::NumberSet;
use ucon_engine::{session_state, sessions};
use ucon_model::{Command, Head, Update, View, When};
use ucon_readers::Readers;
use ucon_state::State;

/// Puts into the work who reads an attribute of an entity; of each list its first, as everywhere here.
fn put_attribute(
    state: &State,
    readers: &Readers,
    side: Side,
    name: &Name,
    attr: &Name,
    work: &mut NumberSet,
)
    requires { AllBelow (readers_at readers.now) work.old.limit }
    ensures limit { work.new.limit ≡ work.old.limit }
    ensures members { GainsFirsts (first_of readers.now) work.old.members work.new.members
        (StandsAt (shown state.now) (readers_at readers.now) (attribute_of side name.now attr.now)) }
{
    let Some(place) = attribute_place(state, side, name, attr) else {
        return;
    };
    readers.put(place, work);
}

/// Puts into the work who reads a variable.
fn put_variable(state: &State, readers: &Readers, name: &Name, work: &mut NumberSet)
    requires { AllBelow (readers_at readers.now) work.old.limit }
    ensures limit { work.new.limit ≡ work.old.limit }
    ensures members { GainsFirsts (first_of readers.now) work.old.members work.new.members
        (StandsAt (shown state.now) (readers_at readers.now) (variable_of name.now)) }
{
    let Some(place) = variable_place(state, name) else {
        return;
    };
    readers.put(place, work);
}

/// Puts into the work who reads where an update of session n's right writes, if it is of this time.
fn put_target(
    state: &State,
    readers: &Readers,
    n: u32,
    u: &Update,
    when: When,
    work: &mut NumberSet,
)
    requires { AllBelow (readers_at readers.now) work.old.limit }
    ensures limit { work.new.limit ≡ work.old.limit }
    ensures members { (row : SessionRow) → session_in (shown state.now).tables n ≡ Some row
        → GainsFirsts (first_of readers.now) work.old.members work.new.members
        (StandsAtOne (shown state.now) (readers_at readers.now) (targets row when (update_of u.now ∷ []))) }
{
    if !is_of(u, when) {
        return;
    }
    let Some(place) = place_of_session(state, n, u.side, &u.attr) else {
        return;
    };
    readers.put(place, work);
}

/// Puts into the work who reads where the updates of a time of session n write.
#[inline(always)]
pub fn put_targets(state: &State, readers: &Readers, n: u32, when: When, work: &mut NumberSet)
    requires { AllBelow (readers_at readers.now) work.old.limit }
    ensures limit { work.new.limit ≡ work.old.limit }
    ensures members { GainsFirsts (first_of readers.now) work.old.members work.new.members
        (StandsAtOne (shown state.now) (readers_at readers.now) (targets_in (shown state.now) n when)) }
{
    if has_no_update(state, n) {
        return;
    }
    put_each_target(state, readers, n, when, work);
}

/// Whether session n's right is in the policy in force and has no update.
#[inline(always)]
fn has_no_update(state: &State, n: u32) -> bool
    ensures { IsTrue result → (when : When) → targets_in (shown state.now) n when ≡ [] }
{
    match state.right(n) {
        Some(right) => right.updates.slice().is_empty(),
        None => false,
    }
}

/// The same of all updates, one after the other.
#[inline(never)]
fn put_each_target(state: &State, readers: &Readers, n: u32, when: When, work: &mut NumberSet)
    requires { AllBelow (readers_at readers.now) work.old.limit }
    ensures limit { work.new.limit ≡ work.old.limit }
    ensures members { GainsFirsts (first_of readers.now) work.old.members work.new.members
        (StandsAtOne (shown state.now) (readers_at readers.now) (targets_in (shown state.now) n when)) }
{
    let Some(right) = state.right(n) else {
        return;
    };
    for u in right.updates.slice() {
        put_target(state, readers, n, u, when, work);
    }
}

/// Puts into the work whom a permit concerns, if the head tells one: its session, and who reads where the updates before its usage wrote.
fn put_permitted(state: &State, readers: &Readers, head: &Head, work: &mut NumberSet)
    requires below { AllBelow (readers_at readers.now) work.old.limit }
    requires permitted { (n : ℕ) → head.now ≡ heads.Permitted n → n < work.old.limit }
    ensures limit { work.new.limit ≡ work.old.limit }
    ensures members { GainsFirsts (first_of readers.now) work.old.members work.new.members
        (IsPermitWork (shown state.now) (readers_at readers.now) head.now) }
{
    let Head::Permitted(n) = head else {
        return;
    };
    put_targets(state, readers, *n, When::Before, work);
    put_first(readers, *n, work);
}

/// Puts session n into the work, if it is the first of its list.
#[inline(always)]
fn put_first(readers: &Readers, n: u32, work: &mut NumberSet)
    requires { n < work.old.limit }
    ensures limit { work.new.limit ≡ work.old.limit }
    ensures members { GainsFirsts (first_of readers.now) work.old.members work.new.members (λ m. m ≡ n) }
{
    if readers.first(n) == n {
        work.put(n);
    }
}

/// Puts session n into the work, if it is accessing and the first of its list.
fn put_if_accessing(state: &State, readers: &Readers, n: u32, work: &mut NumberSet)
    requires { n < work.old.limit }
    ensures limit { work.new.limit ≡ work.old.limit }
    ensures members { GainsFirsts (first_of readers.now) work.old.members work.new.members (λ m. (m ≡ n) × GoesOn (shown state.now) n) }
{
    if let Some(session) = session_state(state, n) {
        if is_accessing(session) {
            put_first(readers, n, work);
        }
    }
}

/// Puts the first of each list of accessing sessions into the work.
fn put_accessing(state: &State, readers: &Readers, work: &mut NumberSet)
    requires { length (shown state.now).tables.sessions < work.old.limit }
    ensures limit { work.new.limit ≡ work.old.limit }
    ensures members { GainsFirsts (first_of readers.now) work.old.members work.new.members (GoesOn (shown state.now)) }
{
    for before in 0..sessions(state) {
        put_if_accessing(state, readers, before + 1, work);
    }
}

/// Puts into the work whom a command concerns else.
fn put_commanded(state: &State, readers: &Readers, command: &Command, work: &mut NumberSet)
    requires below { AllBelow (readers_at readers.now) work.old.limit }
    requires few { length (shown state.now).tables.sessions < work.old.limit }
    ensures limit { work.new.limit ≡ work.old.limit }
    ensures members { GainsFirsts (first_of readers.now) work.old.members work.new.members
        (IsCommandWork (shown state.now) (readers_at readers.now) command.now) }
{
    match command {
        Command::Set {
            side,
            name,
            attr,
            ..
        } => put_attribute(state, readers, *side, name, attr, work),
        Command::Env { name, .. } => put_variable(state, readers, name, work),
        Command::Beat(n) => put_targets(state, readers, *n, When::During, work),
        Command::End(n) => put_targets(state, readers, *n, When::AfterEnd, work),
        Command::Amend(_) => put_accessing(state, readers, work),
        _ => {}
    }
}

/// Puts into the work, after a command's own actions, whoever they may have made fail: who is permitted, who reads where they wrote, and
/// everybody if the policy was replaced; of each list its first, which is judged for all. An act makes nobody fail, and nobody reads of
/// an entity that is new. Whom a tick concerns is in the work already.
pub fn put_own_work(
    state: &State,
    readers: &Readers,
    command: &Command,
    head: &Head,
    work: &mut NumberSet,
)
    requires below { AllBelow (readers_at readers.now) work.old.limit }
    requires few { length (shown state.now).tables.sessions < work.old.limit }
    requires permitted { (n : ℕ) → head.now ≡ heads.Permitted n → n < work.old.limit }
    ensures limit { work.new.limit ≡ work.old.limit }
    ensures members { GainsFirsts (first_of readers.now) work.old.members work.new.members
        (IsOwnWork (shown state.now) (readers_at readers.now) command.now head.now) }
{
    put_commanded(state, readers, command, work);
    put_permitted(state, readers, head, work);
}
