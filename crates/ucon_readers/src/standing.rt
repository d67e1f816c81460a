//! Who stands at which place, in lists under their leaders.

ghost use Rattle.std.specs.Prelude.{◌≡◌, ◌≢◌, ◌↔◌, ◌⊎◌, ◌<◌, ◌≤◌, ℕ, [], None, Some, false, true, IsSome, List, OnOk, IfNone, IfOk, IfSome, length};
ghost use Rattle.std.specs.List.{All, Contains};
ghost use Rattle.ucon_links.specs.Lists.{IsDistinct};
ghost use Rattle.ucon_links.specs.Dependents.{Dependents, UnhideGives, hide, is_there, others, stands_in};
ghost use Rattle.ucon_collections.specs.Lists.{is_joined, leader_in};
ghost use Rattle.ucon_readers.specs.Listing.{AreLed, TakingOutGives, standing_by};
ghost use Rattle.ucon_readers.specs.Joining.{Joins, StandsAlone};
ghost use Rattle.ucon_readers.specs.Lists.{first_in, led_by};

use std::alloc::{AllocError, Global};
use std::marker::Model;
use ucon_base::NoMemory;
use ucon_collections::{Lists, NumberSet};
use ucon_links::{Index, walks_meet_who_stands};

/// Sessions in lists, of which all members read the same, and at each place the leaders of the lists that read it. What a draft changes
/// can be undone until it is kept.
#[derive(Drop)]
pub struct Standing {
    lists: Lists,
    /// At each place the leaders of the lists that have members and read it.
    index: Index,
    /// The leader that the draft has added to the index.
    added: Option<u32>,
}

impl Model for Standing {
    ghost use Rattle.ucon_readers.specs.Listing.{Listing, AreLed};

    ghost Value = { Listing };

    ghost view = { λ s. record { lists = s.lists; index = s.index; added = s.added } };

    ghost invariant = { λ s. AreLed s.lists.members s.index };
}

impl Standing {
    ghost use Rattle.ucon_readers.specs.Listing.{ChangesGive, ComesTo, IsKept, StandsNowhere, StandsSomewhere, readers_in};

    /// Nobody stands anywhere.
    pub(crate) fn new(alloc: Global) -> Result<Standing, NoMemory>
        ensures nobody { IfOk result (λ s. (place : ℕ) → readers_in s place ≡ []) }
        ensures kept { IfOk result IsKept }
    {
        let lists = Lists::new(alloc)?;
        let index = Index::new(alloc)?;
        Ok(Standing {
            lists,
            index,
            added: None,
        })
    }

    /// The first of the list in which a session is. The session itself if it is in none.
    pub(crate) fn first(&self, session: u32) -> u32
        ensures { result ≡ first_in self.now.lists.members session }
    {
        let Some(leader) = self.lists.leader(session) else {
            return session;
        };
        self.lists.first(leader).unwrap_or(session)
    }

    /// The first of a leader's list. None if nobody is in it.
    pub(crate) fn first_led(&self, leader: u32) -> Option<u32>
        ensures itself { IfSome result (λ m. first_in self.now.lists.members m ≡ m) }
        ensures stands { IfSome result (StandsSomewhere (readers_in self.now)) }
    {
        if self.index.is_there(leader) {
            first_in_list(&self.lists, leader)
        } else {
            None
        }
    }

    /// A session comes, in a list of its own, to these places. One that comes to none isn't kept. A list has its founder's number, and a
    /// session founds one: a second is answered as out of memory.
    pub(crate) fn lead(&mut self, session: u32, places: &[u32]) -> Result<(), NoMemory>
        requires kept { IsKept self.old }
        requires distinct { IsDistinct places.now }
        requires nowhere { StandsNowhere (readers_in self.old) session }
        ensures comes { OnOk result (ComesTo (readers_in self.old) (readers_in self.new) session places.now) }
        ensures alone { OnOk result (StandsAlone (first_in self.old.lists.members) (first_in self.new.lists.members) session) }
        ensures undo { ChangesGive self.new (readers_in self.old) (first_in self.old.lists.members) }
    {
        if places.is_empty() {
            return Ok(());
        }
        if self.index.is_there(session) {
            return Err(NoMemory::from(AllocError));
        }
        if self.lists.is_joined(session) {
            return Err(NoMemory::from(AllocError));
        }
        make_room(&mut self.index, session, places)?;
        self.index.add(session, places);
        self.added = Some(session);
        Ok(())
    }

    /// A session comes into the list of another, and stands where that one does.
    pub(crate) fn join(&mut self, session: u32, other: u32) -> Result<(), NoMemory>
        requires kept { IsKept self.old }
        requires stands { StandsSomewhere (readers_in self.old) other }
        requires nowhere { StandsNowhere (readers_in self.old) session }
        ensures comes { OnOk result ((n place : ℕ) → Contains (readers_in self.new place) n
            ↔ (((n ≡ session) × Contains (readers_in self.old place) other) ⊎ Contains (readers_in self.old place) n)) }
        ensures joins { OnOk result (first_in self.old.lists.members other ≡ other → other < session
            → Joins (first_in self.old.lists.members) (first_in self.new.lists.members) session other) }
        ensures undo { ChangesGive self.new (readers_in self.old) (first_in self.old.lists.members) }
    {
        let leader = self.lists.leader(other).unwrap_or(other);
        self.lists.join(leader, session)
    }

    /// A session leaves its list and its places. If it was the first of others, that gives who is their first from here on.
    pub(crate) fn hide(&mut self, session: u32) -> Result<Option<u32>, NoMemory>
        ensures read { OnOk result ((n place : ℕ) → Contains (readers_in self.new place) n
            ↔ ((n ≢ session) × Contains (readers_in self.old place) n)) }
        ensures same { OnOk result ((n : ℕ) → n ≢ session → first_in self.old.lists.members n ≢ session
            → first_in self.new.lists.members n ≡ first_in self.old.lists.members n) }
        ensures next { IfOk result (λ next. (n : ℕ) → n ≢ session → first_in self.old.lists.members n ≡ session
            → next ≡ Some (first_in self.new.lists.members n)) }
        ensures first { IfOk result (λ next. IfSome next (λ m.
            (m ≢ session) × (first_in self.old.lists.members m ≡ session) × (first_in self.new.lists.members m ≡ m))) }
        ensures stands { IfOk result (λ next. IfSome next (λ m. (place : ℕ) × Contains (readers_in self.old place) m)) }
        ensures low { OnOk result ((n : ℕ) → first_in self.new.lists.members n ≤ n) }
        ensures undo { (standing : ℕ → List ℕ) (first : ℕ → ℕ) → ChangesGive self.old standing first → ChangesGive self.new standing first }
    {
        let Some(leader) = self.lists.leader(session) else {
            hide_alone(&self.lists, &mut self.index, session);
            return Ok(None);
        };
        let first = self.lists.first(leader);
        let next = self.lists.next(leader, session);
        self.lists.leave(leader, session)?;
        if_empty_hide(&mut self.index, leader, first_without(session, first, next));
        Ok(next_first(session, first, next))
    }

    /// Puts the firsts of the lists that stand at a place into the work.
    pub(crate) fn put(&self, place: u32, work: &mut NumberSet)
        requires { All (λ n. n < work.old.limit) (readers_in self.now place) }
        ensures limit { work.new.limit ≡ work.old.limit }
        ensures members { (n : ℕ) → Contains work.new.members n
            ↔ ((Contains (readers_in self.now place) n × (first_in self.now.lists.members n ≡ n)) ⊎ Contains work.old.members n) }
    {
        put_firsts(&self.lists, &self.index, place, work);
    }

    /// Takes back each change of the index and of the lists. It takes no memory.
    pub(crate) fn undo(&mut self)
        requires { (standing : ℕ → List ℕ) × (first : ℕ → ℕ) × ChangesGive self.old standing first }
        ensures read { (standing : ℕ → List ℕ) (first : ℕ → ℕ) → ChangesGive self.old standing first
            → (place : ℕ) → readers_in self.new place ≡ standing place }
        ensures firsts { (standing : ℕ → List ℕ) (first : ℕ → ℕ) → ChangesGive self.old standing first
            → (n : ℕ) → first_in self.new.lists.members n ≡ first n }
        ensures kept { IsKept self.new }
    {
        self.lists.undo();
        self.index.unhide_everybody();
        take_out(&mut self.index, self.added);
        self.added = None;
    }

    /// From here on undoing gives what is there now.
    pub(crate) fn keep(&mut self)
        ensures read { (n place : ℕ) → Contains (readers_in self.new place) n ↔ Contains (readers_in self.old place) n }
        ensures firsts { (n : ℕ) → first_in self.new.lists.members n ≡ first_in self.old.lists.members n }
        ensures kept { IsKept self.new }
    {
        self.index.forget_hidden();
        self.lists.keep();
        self.added = None;
    }
}

/// Makes room for a leader at these places.
fn make_room(index: &mut Index, leader: u32, places: &[u32]) -> Result<(), NoMemory>
    ensures stands { (place : ℕ) → stands_in index.new place ≡ stands_in index.old place }
    ensures hidden { index.new.hidden ≡ index.old.hidden }
    ensures there { (l : ℕ) → is_there l index.new.places ≡ is_there l index.old.places }
    ensures exist { OnOk result (All (λ place. place < length index.new.places) places.now) }
    ensures leader { OnOk result (leader < index.new.sessions) }
    ensures room { OnOk result (length places.now ≤ index.new.spare) }
{
    for place in places {
        let Some(count) = place.checked_add(1) else {
            return Err(NoMemory::from(AllocError));
        };
        index.grow(count)?;
    }
    let Some(leaders) = leader.checked_add(1) else {
        return Err(NoMemory::from(AllocError));
    };
    index.grow_sessions(leaders)?;
    let Ok(nodes) = u32::try_from(places.len()) else {
        return Err(NoMemory::from(AllocError));
    };
    if index.node_count() >= u32::MAX - nodes {
        return Err(NoMemory::from(AllocError));
    }
    index.reserve(nodes)
}

/// Takes a session that is in no list out of the index, if it stands there alone.
fn hide_alone(lists: &Lists, index: &mut Index, session: u32)
    ensures stays { is_joined lists.now.members session ≡ true → index.new ≡ index.old }
    ensures stands { is_joined lists.now.members session ≡ false → (l place : ℕ)
        → Contains (stands_in index.new place) l ↔ ((l ≢ session) × Contains (stands_in index.old place) l) }
    ensures hidden { (index.new ≡ index.old) ⊎ ((index.new ≡ hide index.old session) × UnhideGives 1 index.new index.old) }
{
    if lists.is_joined(session) {
        return;
    }
    if index.is_there(session) {
        index.hide(session);
    }
}

/// Takes a leader out of the index if its list has no first.
fn if_empty_hide(index: &mut Index, leader: u32, first: Option<u32>)
    requires { is_there leader index.old.places ≡ true }
    ensures led { IsSome first → index.new ≡ index.old }
    ensures stands { first ≡ None → (place : ℕ) → stands_in index.new place ≡ others leader (stands_in index.old place) }
    ensures hidden { first ≡ None → index.new ≡ hide index.old leader }
    ensures restored { first ≡ None → UnhideGives 1 index.new index.old }
{
    if first.is_none() {
        index.hide(leader);
    }
}

/// The first of a list that a session has left.
fn first_without(session: u32, first: Option<u32>, next: Option<u32>) -> Option<u32>
    ensures was { first ≡ Some session → result ≡ next }
    ensures other { (first ≡ Some session → ⊥) → result ≡ first }
{
    if first == Some(session) { next } else { first }
}

/// The next first of a list that a session has left, if that was its first.
fn next_first(session: u32, first: Option<u32>, next: Option<u32>) -> Option<u32>
    ensures was { first ≡ Some session → result ≡ next }
    ensures other { (first ≡ Some session → ⊥) → result ≡ None }
{
    if first == Some(session) { next } else { None }
}

/// Takes the leader out of the index that was added, if one was.
fn take_out(index: &mut Index, added: Option<u32>)
    requires { (base : Dependents) × TakingOutGives added index.old base }
    ensures { (base : Dependents) → TakingOutGives added index.old base → index.new ≡ base }
{
    if let Some(leader) = added {
        index.remove(leader);
    }
}

/// Puts the firsts of the lists whose leaders stand at a place into the work.
fn put_firsts(lists: &Lists, index: &Index, place: u32, work: &mut NumberSet)
    requires below { All (λ n. n < work.old.limit) (standing_by lists.now.members index.now place) }
    requires led { AreLed lists.now.members index.now }
    ensures limit { work.new.limit ≡ work.old.limit }
    ensures members { (n : ℕ) → Contains work.new.members n
        ↔ ((Contains (standing_by lists.now.members index.now place) n × (first_in lists.now.members n ≡ n)) ⊎ Contains work.old.members n) }
{
    walks_meet_who_stands();
    if place >= index.place_count() {
        return;
    }
    let mut at = index.first(place);
    while let Some(node) = at {
        put_first(lists, index.owner(node), work);
        at = index.next(node);
    }
}

/// Puts the first of a leader's list into the work.
fn put_first(lists: &Lists, leader: u32, work: &mut NumberSet)
    requires below { All (λ n. n < work.old.limit) (led_by lists.now.members leader) }
    requires alone { is_joined lists.now.members leader ≡ false → leader_in lists.now.members leader ≡ None }
    ensures limit { work.new.limit ≡ work.old.limit }
    ensures members { (n : ℕ) → Contains work.new.members n
        ↔ ((Contains (led_by lists.now.members leader) n × (first_in lists.now.members n ≡ n)) ⊎ Contains work.old.members n) }
{
    if let Some(first) = first_in_list(lists, leader) {
        work.put(first);
    }
}

/// The first of a leader's list. None if nobody is in it.
fn first_in_list(lists: &Lists, leader: u32) -> Option<u32>
    ensures there { IfSome result (λ m. Contains (led_by lists.now.members leader) m) }
    ensures least { IfSome result (λ m. (n : ℕ) → Contains (led_by lists.now.members leader) n → m ≤ n) }
    ensures none { IfNone result ((n : ℕ) → Contains (led_by lists.now.members leader) n → ⊥) }
{
    if lists.is_joined(leader) {
        lists.first(leader)
    } else {
        Some(leader)
    }
}
