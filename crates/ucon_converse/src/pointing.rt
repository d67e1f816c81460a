//! Checkpoints in a conversation: those that are asked for, and those that it makes by itself.

ghost use Rattle.std.specs.Prelude.{◌≡◌, ◌++◌, ℕ, List, None, Some};
ghost use Rattle.ucon_model.specs.Action.{Trace};
ghost use Rattle.ucon_model.specs.History.{History};
ghost use Rattle.ucon_model.specs.Plain.{PlainPolicy};
ghost use Rattle.ucon_state.specs.Following.{Follows};
ghost use Rattle.ucon_state.specs.Held.{held_after};
ghost use Rattle.ucon_state.specs.Shown.{shown};
ghost use Rattle.ucon_store.specs.Whole.{IsFront};
ghost use Rattle.ucon_syntax.specs.Policies.{accepted};
ghost use Rattle.ucon_converse.specs.Answering.{answering};
ghost use Rattle.ucon_converse.specs.Due.{is_due, is_due_after, size_of};
ghost use Rattle.ucon_converse.specs.Holding.{standing};
ghost use Rattle.ucon_converse.specs.Keeping.{IsDated, IsLed, Keeps};
ghost use Rattle.ucon_converse.specs.Reached.{MayStop, reached_by};
ghost use Rattle.ucon_converse.specs.Replies.{GoesOn, IsPointed};
ghost use Rattle.ucon_converse.specs.Together.{IsNoneDueBefore};

use crate::points::Points;
use std::alloc::Global;
use ucon_base::Side;
use ucon_disk::Disk;
use ucon_engine::Engine;
use ucon_state::{State, states_hold_what_they_follow};
use ucon_store::{PointFault, Store};

/// The fewest steps between two checkpoints that a conversation tries by itself.
pub const FEWEST_STEPS: u64 = 4_096;

/// Makes a checkpoint by itself, if one is due. Nothing is told of it: behind a disk fault the store is stopped, and after any other refusal the next one
/// is due only after as many steps more.
pub(crate) fn rest<E: Engine, D: Disk>(alloc: Global, store: &mut Store<E, D>, points: &mut Points)
    requires led { IsLed store.old }
    requires unmarked { store.old.mark ≡ None }
    ensures goes_on { (P : PlainPolicy) (G : History) (places : List ℕ) → accepted store.old.policy ≡ Some P → IsFront P store.old G
        → GoesOn (IsDated (D.seen store.old.disk).contents) P store.old.policy (standing G places (answering store.old points.old))
        (standing G places (answering store.new points.new)) }
    ensures still { (P : PlainPolicy) (T : Trace) → MayStop (reached_by P T store.old) (reached_by P T store.new) }
    ensures keeps { Keeps D.seen (answering store.old points.old) (answering store.new points.new) }
{
    if is_due_after(store, points.tried) {
        let _told = try_point(alloc, store, points);
    }
}

/// Tries to make a checkpoint. But for a disk fault, which stops the store, a refusal changes nothing that is told.
pub(crate) fn try_point<E: Engine, D: Disk>(
    alloc: Global,
    store: &mut Store<E, D>,
    points: &mut Points,
) -> Result<u64, PointFault>
    requires { IsLed store.old }
    ensures pointed { (P : PlainPolicy) (G : History) (places : List ℕ) → accepted store.old.policy ≡ Some P → IsFront P store.old G
        → IsPointed (IsDated (D.seen store.old.disk).contents) P store.old.policy (standing G places (answering store.old points.old))
        (standing G places (answering store.new points.new)) result }
    ensures still { (P : PlainPolicy) (T : Trace) → MayStop (reached_by P T store.old) (reached_by P T store.new) }
    ensures keeps { Keeps D.seen (answering store.old points.old) (answering store.new points.new) }
{
    let said = store.point(alloc);
    points.note(&said, store.place());
    said
}

/// Whether a store makes a checkpoint by itself, where one was last tried behind so many steps.
fn is_due_after<E: Engine, D: Disk>(store: &Store<E, D>, tried: u64) -> bool
    requires { store.now.mark ≡ None }
    ensures { (P : PlainPolicy) (G : History) → accepted store.now.policy ≡ Some P → IsFront P store.now G
        → result ≡ is_due_after P tried (G ++ store.now.entries) }
{
    is_due(store.place().saturating_sub(tried), size_of(store.state()))
}

/// Before how many steps more no checkpoint is due, whatever they are, where one was last tried behind so many steps.
pub(crate) fn steps_until_due<E: Engine, D: Disk>(store: &Store<E, D>, tried: u64) -> usize
    requires unmarked { store.now.mark ≡ None }
    ensures { (P : PlainPolicy) (G : History) → accepted store.now.policy ≡ Some P → IsFront P store.now G
        → IsNoneDueBefore P tried (G ++ store.now.entries) result }
{
    let since = store.place().saturating_sub(tried);
    let due = FEWEST_STEPS.max(size_of(store.state()).saturating_add(1));
    due.saturating_sub(since) as usize
}

/// Whether a checkpoint is due so many steps behind the last one that was tried, where there is so much.
fn is_due(since: u64, size: u64) -> bool
    ensures { result ≡ is_due since size }
{
    since >= FEWEST_STEPS && since > size
}

/// How many entities, acts and sessions there are.
fn size_of(state: &State) -> u64
    ensures { (P : PlainPolicy) (T : Trace) → Follows (shown state.now) P T → result ≡ size_of (held_after P T) }
{
    states_hold_what_they_follow();
    let subjects = u64::from(state.entity_count(Side::Subject));
    let objects = u64::from(state.entity_count(Side::Object));
    let acts = u64::from(state.act_count());
    subjects + objects + acts + u64::from(state.counts().sessions)
}
