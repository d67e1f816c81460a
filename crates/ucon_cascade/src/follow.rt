//! Who reads what after a command's own actions.

ghost use Rattle.std.specs.Prelude.{◌≡◌, ◌<◌, ◌+◌, ℕ, [], false, IfOk, IfSome, IsFalse, IsTrue, OnOk, Some};
ghost use Rattle.ucon_actions.specs.Gives.{is_amendment};
ghost use Rattle.ucon_cascade.specs.Cascading.{WereExact};
ghost use Rattle.ucon_cascade.specs.Numbering.{AreNumbered, IsExact, place_numbers};
ghost use Rattle.ucon_cascade.specs.Grouping.{AreGrouped, GetsFirst};
ghost use Rattle.ucon_cascade.specs.Kinds.{IsOfKind};
ghost use Rattle.ucon_readers.specs.Joining.{StandsAlone};
ghost use Rattle.ucon_cascade.specs.Putting.{GoesOn};
ghost use Rattle.ucon_cascade.specs.Reading.{AreReadBelow, StandAsTheyRead};
ghost use Rattle.ucon_readers.specs.Readers.{IsKept, UndoGives, first_of, readers_at};
ghost use Rattle.ucon_readers.specs.Listing.{ComesTo, StandsNowhere, StandsSomewhere};
ghost use Rattle.ucon_model.specs.declared.reply.Head.TheVariants as heads;
ghost use Rattle.ucon_model.specs.declared.session.SessionRow.{SessionRow};
ghost use Rattle.ucon_model.specs.Decision.{right_named};
ghost use Rattle.ucon_model.specs.Views.{right_of};
ghost use Rattle.ucon_model.specs.Usages.{going_on};
ghost use Rattle.ucon_state.specs.Shown.{shown};
ghost use Rattle.ucon_state.specs.Tables.{session_in};

use crate::kinds::{asks_while_it_goes_on, is_of_kind, kind_of};
use crate::places::place_numbers;
use std::alloc::Global;
use ucon_actions::is_accessing;
use ucon_base::NoMemory;
use ucon_check::places_read;
use ucon_engine::{session, session_state, sessions};
use ucon_model::{Command, Head, Right, SessionRow, View};
use ucon_readers::{Kind, Readers, undoing_gives_what_is_kept};
use ucon_state::State;

/// All is read anew if the command replaced the policy. Else a permitted session begins to read, and an ended one reads nothing any more.
pub fn follow_actions(
    alloc: Global,
    state: &State,
    readers: &mut Readers,
    command: &Command,
    head: &Head,
) -> Result<(), NoMemory>
    requires kept { IsKept readers.old }
    requires were { is_amendment command.now ≡ false → WereExact (shown state.now) (readers_at readers.old) (first_of readers.old) head.now }
    ensures exact { OnOk result (IsExact (shown state.now) (readers_at readers.new)) }
    ensures grouped { OnOk result (AreGrouped (shown state.now) (first_of readers.new)) }
    ensures alone { OnOk result ((k n : ℕ) → is_amendment command.now ≡ false → head.now ≡ heads.Permitted k
        → GoesOn (shown state.now) n → first_of readers.new n ≡ k → n ≡ k) }
    ensures undo { UndoGives readers.new (readers_at readers.old) (first_of readers.old) }
{
    if is_amendment(command) {
        return read_anew(alloc, state, readers);
    }
    follow_head(alloc, state, readers, head)
}

/// Whether a command replaces the policy.
fn is_amendment(command: &Command) -> bool
    ensures { result ≡ is_amendment command.now }
{
    matches!(command, Command::Amend(_))
}

/// A permitted session begins to read, and an ended one reads nothing any more.
fn follow_head(
    alloc: Global,
    state: &State,
    readers: &mut Readers,
    head: &Head,
) -> Result<(), NoMemory>
    requires kept { IsKept readers.old }
    requires were { WereExact (shown state.now) (readers_at readers.old) (first_of readers.old) head.now }
    ensures exact { OnOk result (IsExact (shown state.now) (readers_at readers.new)) }
    ensures grouped { OnOk result (AreGrouped (shown state.now) (first_of readers.new)) }
    ensures alone { OnOk result ((k n : ℕ) → head.now ≡ heads.Permitted k → GoesOn (shown state.now) n → first_of readers.new n ≡ k → n ≡ k) }
    ensures undo { UndoGives readers.new (readers_at readers.old) (first_of readers.old) }
{
    undoing_gives_what_is_kept();
    match head {
        Head::Permitted(n) => begin_to_read(alloc, state, readers, *n),
        Head::Ended(n) => {
            readers.hide(*n)?;
            Ok(())
        }
        _ => Ok(()),
    }
}

/// Session n, which is permitted, begins to read.
fn begin_to_read(
    alloc: Global,
    state: &State,
    readers: &mut Readers,
    n: u32,
) -> Result<(), NoMemory>
    requires kept { IsKept readers.old }
    requires were { WereExact (shown state.now) (readers_at readers.old) (first_of readers.old) (heads.Permitted n) }
    ensures exact { OnOk result (IsExact (shown state.now) (readers_at readers.new)) }
    ensures grouped { OnOk result (AreGrouped (shown state.now) (first_of readers.new)) }
    ensures alone { OnOk result ((m : ℕ) → GoesOn (shown state.now) m → first_of readers.new m ≡ n → m ≡ n) }
    ensures undo { UndoGives readers.new (readers_at readers.old) (first_of readers.old) }
{
    if !asks_while_it_goes_on(state, n) {
        return readers.lead(n, &[]);
    }
    add_reader(alloc, state, readers, n)
}

/// From here on session n reads the places of its right. It joins the list of one that is judged like it, if one is known, and otherwise has a
/// list of its own.
fn add_reader(alloc: Global, state: &State, readers: &mut Readers, n: u32) -> Result<(), NoMemory>
    requires kept { IsKept readers.old }
    requires nowhere { StandsNowhere (readers_at readers.old) n }
    requires exact { StandAsTheyRead (shown state.now) readers.old n }
    ensures comes { OnOk result ((row : SessionRow) → session_in (shown state.now).tables n ≡ Some row
        → ComesTo (readers_at readers.old) (readers_at readers.new) n (place_numbers (shown state.now) row)) }
    ensures first { OnOk result (GetsFirst (shown state.now) (first_of readers.old) (first_of readers.new) n) }
    ensures numbered { OnOk result ((row : SessionRow) → session_in (shown state.now).tables n ≡ Some row → AreNumbered (shown state.now) row) }
    ensures undo { UndoGives readers.new (readers_at readers.old) (first_of readers.old) }
{
    let Some(right) = state.right(n) else {
        return readers.lead(n, &[]);
    };
    let Some(kind) = kind_of(state, n, right) else {
        return lead_list(alloc, state, readers, n, right);
    };
    if let Some(first) = first_of_kind(state, readers, n, &kind) {
        return readers.join(n, first);
    }
    lead_list(alloc, state, readers, n, right)?;
    readers.remember(kind, n)
}

/// The first of a list that session n may join: one whose usage goes on, that is below it, and that is of its kind. A session that is
/// below the first of a list doesn't join it, since who is judged for the others would change.
fn first_of_kind(state: &State, readers: &Readers, n: u32, kind: &Kind) -> Option<u32>
    ensures below { IfSome result (λ m. m < n) }
    ensures on { IfSome result (GoesOn (shown state.now)) }
    ensures itself { IfSome result (λ m. first_of readers.now m ≡ m) }
    ensures kind { IfSome result (λ m. IsOfKind state.now m kind.now) }
    ensures stands { IfSome result (StandsSomewhere (readers_at readers.now)) }
{
    let first = readers.guess(*kind)?;
    if first < n && goes_on(state, first) && is_of_kind(state, first, kind) {
        Some(first)
    } else {
        None
    }
}

/// From here on session n reads the places of its right, in a list of its own.
fn lead_list(
    alloc: Global,
    state: &State,
    readers: &mut Readers,
    n: u32,
    right: &Right,
) -> Result<(), NoMemory>
    requires kept { IsKept readers.old }
    requires right { (row : SessionRow) → session_in (shown state.now).tables n ≡ Some row
        → right_named (shown state.now).policy.rights row.right ≡ Some (right_of right.now) }
    requires nowhere { StandsNowhere (readers_at readers.old) n }
    ensures comes { OnOk result ((row : SessionRow) → session_in (shown state.now).tables n ≡ Some row
        → ComesTo (readers_at readers.old) (readers_at readers.new) n (place_numbers (shown state.now) row)) }
    ensures alone { OnOk result (StandsAlone (first_of readers.old) (first_of readers.new) n) }
    ensures numbered { OnOk result ((row : SessionRow) → session_in (shown state.now).tables n ≡ Some row → AreNumbered (shown state.now) row) }
    ensures undo { UndoGives readers.new (readers_at readers.old) (first_of readers.old) }
{
    undoing_gives_what_is_kept();
    let places = places_read(alloc, right)?;
    let numbers = place_numbers(alloc, state, n, places.slice())?;
    readers.lead(n, numbers.slice())
}

/// Who reads what now takes the place of who did before.
fn read_anew(alloc: Global, state: &State, readers: &mut Readers) -> Result<(), NoMemory>
    requires kept { IsKept readers.old }
    ensures exact { OnOk result (IsExact (shown state.now) (readers_at readers.new)) }
    ensures grouped { OnOk result (AreGrouped (shown state.now) (first_of readers.new)) }
    ensures undo { UndoGives readers.new (readers_at readers.old) (first_of readers.old) }
{
    undoing_gives_what_is_kept();
    let all = all_readers(alloc, state)?;
    readers.replace(all);
    Ok(())
}

/// Who reads what.
pub fn all_readers(alloc: Global, state: &State) -> Result<Readers, NoMemory>
    ensures exact { IfOk result (λ r. IsExact (shown state.now) (readers_at r)) }
    ensures grouped { IfOk result (λ r. AreGrouped (shown state.now) (first_of r)) }
{
    let mut readers = Readers::new(alloc)?;
    for before in 0..sessions(state) {
        add_accessing(alloc, state, &mut readers, before + 1)?;
        readers.keep();
    }
    Ok(readers)
}

/// Whether the usage of session n goes on.
fn goes_on(state: &State, n: u32) -> bool
    ensures on { IsTrue result → GoesOn (shown state.now) n }
    ensures over { IsFalse result → GoesOn (shown state.now) n → ⊥ }
{
    match session_state(state, n) {
        Some(it) => is_accessing(it),
        None => false,
    }
}

/// Session n while its usage goes on. A row is built of no other.
pub fn going_on(state: &State, n: u32) -> Option<SessionRow>
    ensures { result ≡ going_on (session_in (shown state.now).tables n) }
{
    if !is_accessing(session_state(state, n)?) {
        return None;
    }
    session(state, n)
}

/// Adds session n, if it is accessing, to those below it.
fn add_accessing(
    alloc: Global,
    state: &State,
    readers: &mut Readers,
    n: u32,
) -> Result<(), NoMemory>
    requires kept { IsKept readers.old }
    requires below { AreReadBelow (shown state.now) n readers.old }
    ensures { OnOk result (AreReadBelow (shown state.now) (n + 1) readers.new) }
{
    if !goes_on(state, n) {
        return Ok(());
    }
    add_reader(alloc, state, readers, n)
}
