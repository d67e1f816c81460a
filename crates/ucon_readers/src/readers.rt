//! Which usages read which places, who of them share a judgement, and what a draft has changed of it.

ghost use Rattle.std.specs.Prelude.{◌≡◌, ◌≢◌, ◌↔◌, ◌⊎◌, ◌<◌, ◌≤◌, ℕ, [], None, Some, List, OnOk, IfOk, IfSome};
ghost use Rattle.std.specs.List.{All, Contains};
ghost use Rattle.ucon_links.specs.Lists.{IsDistinct};
ghost use Rattle.ucon_readers.specs.Joining.{Joins, StandsAlone};
ghost use Rattle.ucon_readers.specs.Listing.{ComesTo, StandsNowhere, StandsSomewhere};

use crate::kind::Kind;
use crate::standing::Standing;
use indexmap::IndexMap;
use std::alloc::Global;
use std::mem;
use ucon_base::NoMemory;
use ucon_collections::NumberSet;

/// Forgets those who were replaced, if some were: most often none were, and to move none costs as much as to move some.
#[inline(always)]
fn forget(replaced: &mut Option<Standing>)
    ensures { replaced.new ≡ None }
{
    if replaced.is_some() {
        forget_some(replaced);
    }
}

/// Forgets those who were replaced. It stands alone, so that who forgets none makes no room for one.
#[inline(never)]
fn forget_some(replaced: &mut Option<Standing>)
    ensures { replaced.new ≡ None }
{
    *replaced = None;
}

/// For each place the accessing sessions that read it, in lists of such as share one judgement. What a draft changes can be undone until
/// it is kept.
#[derive(Drop)]
pub struct Readers {
    standing: Standing,
    /// Who stood where before the draft, if the draft has put others in their place.
    replaced: Option<Standing>,
    /// By its kind the leader whose list a session might join: a guess, which has to be checked, and of which nothing is undone.
    guesses: IndexMap<Kind, u32>,
}

impl Readers {
    ghost use Rattle.ucon_readers.specs.Readers.{first_of, readers_at, IsKept, UndoGives};

    /// Nobody reads anything.
    pub fn new(alloc: Global) -> Result<Readers, NoMemory>
        ensures nobody { IfOk result (λ r. (place : ℕ) → readers_at r place ≡ []) }
        ensures kept { IfOk result IsKept }
    {
        let standing = Standing::new(alloc)?;
        Ok(Readers {
            standing,
            replaced: None,
            guesses: IndexMap::new(alloc),
        })
    }

    /// The first of the list in which a session is, who is judged for it. The session itself if it is in none.
    pub fn first(&self, session: u32) -> u32
        ensures { result ≡ first_of self.now session }
    {
        self.standing.first(session)
    }

    /// The first of a list that a session of this kind might join. None if none is known.
    pub fn guess(&self, kind: Kind) -> Option<u32>
        ensures itself { IfSome result (λ m. first_of self.now m ≡ m) }
        ensures stands { IfSome result (StandsSomewhere (readers_at self.now)) }
    {
        let leader = self.guesses.get(&kind)?;
        self.standing.first_led(*leader)
    }

    /// Remembers a leader for sessions of this kind.
    pub fn remember(&mut self, kind: Kind, leader: u32) -> Result<(), NoMemory>
        ensures read { readers_at self.new ≡ readers_at self.old }
        ensures firsts { first_of self.new ≡ first_of self.old }
        ensures undo { (standing : ℕ → List ℕ) (first : ℕ → ℕ) → UndoGives self.old standing first → UndoGives self.new standing first }
        ensures kept { IsKept self.old → IsKept self.new }
    {
        self.guesses.insert(kind, leader)?;
        Ok(())
    }

    /// From here on a session reads, in a list of its own, these places. One that reads none isn't kept. A session founds one list: a
    /// second is answered as out of memory.
    pub fn lead(&mut self, session: u32, places: &[u32]) -> Result<(), NoMemory>
        requires kept { IsKept self.old }
        requires distinct { IsDistinct places.now }
        requires nowhere { StandsNowhere (readers_at self.old) session }
        ensures comes { OnOk result (ComesTo (readers_at self.old) (readers_at self.new) session places.now) }
        ensures alone { OnOk result (StandsAlone (first_of self.old) (first_of self.new) session) }
        ensures undo { UndoGives self.new (readers_at self.old) (first_of self.old) }
    {
        self.standing.lead(session, places)
    }

    /// From here on a session reads, in the list of another, what that one reads.
    pub fn join(&mut self, session: u32, other: u32) -> Result<(), NoMemory>
        requires kept { IsKept self.old }
        requires stands { StandsSomewhere (readers_at self.old) other }
        requires nowhere { StandsNowhere (readers_at self.old) session }
        ensures comes { OnOk result ((n place : ℕ) → Contains (readers_at self.new place) n
            ↔ (((n ≡ session) × Contains (readers_at self.old place) other) ⊎ Contains (readers_at self.old place) n)) }
        ensures joins { OnOk result (first_of self.old other ≡ other → other < session
            → Joins (first_of self.old) (first_of self.new) session other) }
        ensures undo { UndoGives self.new (readers_at self.old) (first_of self.old) }
    {
        self.standing.join(session, other)
    }

    /// From here on a session reads nothing. If it was the first of others, that gives who is their first from here on.
    pub fn hide(&mut self, session: u32) -> Result<Option<u32>, NoMemory>
        ensures read { OnOk result ((n place : ℕ) → Contains (readers_at self.new place) n
            ↔ ((n ≢ session) × Contains (readers_at self.old place) n)) }
        ensures same { OnOk result ((n : ℕ) → n ≢ session → first_of self.old n ≢ session → first_of self.new n ≡ first_of self.old n) }
        ensures next { IfOk result (λ next. (n : ℕ) → n ≢ session → first_of self.old n ≡ session → next ≡ Some (first_of self.new n)) }
        ensures first { IfOk result (λ next. IfSome next (λ m.
            (m ≢ session) × (first_of self.old m ≡ session) × (first_of self.new m ≡ m))) }
        ensures stands { IfOk result (λ next. IfSome next (λ m. (place : ℕ) × Contains (readers_at self.old place) m)) }
        ensures low { OnOk result ((n : ℕ) → first_of self.new n ≤ n) }
        ensures undo { (standing : ℕ → List ℕ) (first : ℕ → ℕ) → UndoGives self.old standing first → UndoGives self.new standing first }
    {
        self.standing.hide(session)
    }

    /// Puts those into the work who are judged for whoever reads a place.
    pub fn put(&self, place: u32, work: &mut NumberSet)
        requires { All (λ n. n < work.old.limit) (readers_at self.now place) }
        ensures limit { work.new.limit ≡ work.old.limit }
        ensures members { (n : ℕ) → Contains work.new.members n
            ↔ ((Contains (readers_at self.now place) n × (first_of self.now n ≡ n)) ⊎ Contains work.old.members n) }
    {
        self.standing.put(place, work);
    }

    /// From here on these are who reads what. Undoing gives back who did before.
    pub fn replace(&mut self, others: Readers)
        requires kept { IsKept self.old }
        ensures read { (place : ℕ) → readers_at self.new place ≡ readers_at others place }
        ensures firsts { (n : ℕ) → first_of self.new n ≡ first_of others n }
        ensures undo { UndoGives self.new (readers_at self.old) (first_of self.old) }
    {
        let before = mem::replace(&mut self.standing, others.standing);
        self.guesses = others.guesses;
        self.replaced = Some(before);
    }

    /// Gives back who read what at the last keep. It takes no memory.
    pub fn undo(&mut self)
        requires { (standing : ℕ → List ℕ) × (first : ℕ → ℕ) × UndoGives self.old standing first }
        ensures read { (standing : ℕ → List ℕ) (first : ℕ → ℕ) → UndoGives self.old standing first
            → (place : ℕ) → readers_at self.new place ≡ standing place }
        ensures firsts { (standing : ℕ → List ℕ) (first : ℕ → ℕ) → UndoGives self.old standing first → (n : ℕ) → first_of self.new n ≡ first n }
        ensures kept { IsKept self.new }
    {
        match self.replaced.take() {
            Some(before) => self.standing = before,
            None => self.standing.undo(),
        }
    }

    /// From here on undoing gives what is there now.
    #[inline(always)]
    pub fn keep(&mut self)
        ensures read { (n place : ℕ) → Contains (readers_at self.new place) n ↔ Contains (readers_at self.old place) n }
        ensures firsts { (n : ℕ) → first_of self.new n ≡ first_of self.old n }
        ensures kept { IsKept self.new }
    {
        self.standing.keep();
        forget(&mut self.replaced);
    }
}
