//! The turn itself.
ghost use Rattle.std.specs.Prelude.{◌≡◌, ◌≢◌, ◌⊎◌, ◌<◌, List, [], ◌∷◌, IfOk, IfErr};
ghost use Rattle.ucon_base.specs.Elements.{Each};
ghost use Rattle.ucon_turn.specs.Lists.{Has, Begins, Continues, ByOthers};
ghost use Rattle.ucon_turn.specs.Turns.{IsSeatOf};

use crate::bells::Bells;
use crate::seat::{Seat, SeatToken};
use crate::steps::{give, meet, note, part, take, wait_turn};
use crate::table::{TurnTable, VALUE};
use crate::value::{Job, Turned};
use atomic_table::{Refused, Table};
use std::alloc::{AllocFailed, Global};
use std::marker::Model;
use std::snapshot::Snapshot;
use std::sync::Wait;
use ucon_base::NoMemory;

/// One value, and whose turn it is.
pub struct Turn<E: Turned> {
    table: TurnTable<E>,
    bells: Bells,
}

impl<E: Turned> Model for Turn<E> {
    ghost use Rattle.std.specs.Prelude.{◌≡◌};
    ghost use Rattle.ucon_turn.specs.Turns.{Opening};

    ghost Value = { Opening E };

    ghost view = { λ t. record { turn = t.table.shared.table_id; opened = t.table.shared.key.value } };

    ghost invariant = { λ t. (t.table.shared.table_id.words ≡ 3) × (t.table.shared.table_id.slots ≡ 1) };
}

impl<E: Turned> Turn<E> {
    /// The seat has number 0, and has seen the opening list. Where there is no memory for the turn,
    /// the value comes back.
    pub fn open(alloc: Global, value: E) -> Result<(Turn<E>, Seat<E>), (E, NoMemory)>
        ensures turn { IfOk result (λ t. (t.0.opened ≡ value) × IsSeatOf t.0 t.1) }
        ensures seat { IfOk result (λ t. (t.1.number ≡ 0) × (t.1.seen ≡ E.entries value)
            × (t.1.given ≡ []) × (t.1.taken ≡ [])) }
        ensures err { IfErr result (λ e. e.0 ≡ value) }
    {
        let about = Snapshot::of(&value);
        let mut slots = Vec::new(alloc);
        if let Err(failed) = slots.push(Some(value)) {
            let (value, refused) = NoMemory::handed_back(failed);
            slots.destroy_empty();
            let Some(value) = value else { unreachable!() };
            return Err((value, refused));
        }
        match Table::new(alloc, &[0, 0, 0], slots, &about) {
            Ok((table, place)) => {
                let bells = Bells::new();
                Ok((Turn { table, bells }, SeatToken { place, number: 0 }))
            }
            Err(Refused { mut slots }) => {
                let value = slots.pop();
                slots.destroy_empty();
                let Some(Some(value)) = value else {
                    unreachable!()
                };
                // The table's refusal is want of memory, and hands back its slots alone.
                Err(NoMemory::handed_back(AllocFailed { value }))
            }
        }
    }

    /// A seat with this number, which has seen what the first seat has seen.
    pub fn split(&self, seat: &mut Seat<E>, number: u32) -> Seat<E>
        requires turn { IsSeatOf self.now seat.old }
        requires first { seat.old.number ≡ 0 }
        requires above { (0 < number) × Each (λ k. k < number) seat.old.given }
        ensures turn { IsSeatOf self.now seat.new × IsSeatOf self.now result }
        ensures given { seat.new.given ≡ number ∷ seat.old.given }
        ensures kept { (seat.new.number ≡ 0) × (seat.new.seen ≡ seat.old.seen)
            × (seat.new.taken ≡ seat.old.taken) }
        ensures made { (result.number ≡ number) × (result.seen ≡ seat.old.seen)
            × (result.given ≡ []) × (result.taken ≡ []) }
        ensures begins { Begins (E.entries self.now.opened) result.seen }
    {
        let table = &self.table.shared;
        let place = &mut seat.place;
        note(table, place, number);
        let place = part(table, place);
        SeatToken { place, number }
    }

    /// Waits for its turn, and runs the job on the value. What the job did is true of the list before
    /// and of the list after, which the seat has then seen. It takes no memory, and it need not return.
    pub fn call<J: Job<E>, R: Wait>(&self, rt: &R, seat: &mut Seat<E>, job: &mut J) -> J::Answer
        requires turn { IsSeatOf self.now seat.old }
        requires number { J.by job.old ≡ seat.old.number }
        requires asks { J.asks job.old (E.base self.now.opened) }
        ensures turn { IsSeatOf self.now seat.new }
        ensures kept { (seat.new.number ≡ seat.old.number) × (seat.new.given ≡ seat.old.given)
            × (seat.new.taken ≡ seat.old.taken) }
        ensures job { J.by job.new ≡ J.by job.old }
        ensures begins { Begins (E.entries self.now.opened) seat.new.seen }
        ensures did { (before : List E.Entry)
            × Continues (ByOthers E.caller seat.old.number seat.old.taken) seat.old.seen before
            × Continues (λ e. E.caller e ≡ seat.old.number) before seat.new.seen
            × J.did job.old (E.base self.now.opened) before seat.new.seen result job.new }
    {
        let table = &self.table.shared;
        let place = &mut seat.place;
        wait_turn(rt, table, &self.bells, place);
        let mut value = take(table, place);
        let before = value.len();
        let answer = job.run(&mut value);
        let count = value.len() - before;
        give(table, &self.bells, place, value, count);
        answer
    }

    /// Takes the other seat back. The first seat has then seen the longer of the two lists.
    pub fn join(&self, seat: &mut Seat<E>, other: Seat<E>)
        requires turn { IsSeatOf self.now seat.old × IsSeatOf self.now other }
        requires first { seat.old.number ≡ 0 }
        ensures turn { IsSeatOf self.now seat.new }
        ensures kept { (seat.new.number ≡ 0) × (seat.new.given ≡ seat.old.given) }
        ensures taken { seat.new.taken ≡ other.number ∷ seat.old.taken }
        ensures longer { (seat.new.seen ≡ seat.old.seen) ⊎ (seat.new.seen ≡ other.seen) }
        ensures begins { Begins (E.entries self.now.opened) seat.new.seen }
        ensures ours { Continues (ByOthers E.caller 0 seat.old.taken) seat.old.seen seat.new.seen }
        ensures theirs { Continues (ByOthers E.caller other.number []) other.seen seat.new.seen }
    {
        meet(&self.table.shared, &mut seat.place, other.into_place());
    }

    /// Gives the value, which stands for the list that the seat has seen. It wants all seats that were split
    /// joined again, so a seat that is dropped keeps the turn open for ever.
    pub fn close(self, seat: Seat<E>) -> E
        requires turn { IsSeatOf self seat }
        requires first { seat.number ≡ 0 }
        requires joined { Each (λ k. Has seat.taken k) seat.given }
        ensures base { E.base result ≡ E.base self.opened }
        ensures stays { E.stays self.opened result }
        ensures list { E.entries result ≡ seat.seen }
        ensures callers { Continues (λ e. Has (0 ∷ seat.taken) (E.caller e))
            (E.entries self.opened) (E.entries result) }
    {
        let Turn { table, bells: _ } = self;
        let mut closed = table.close_with(seat.into_place());
        let value = closed.take(VALUE);
        closed.free();
        value.unwrap()
    }
}
