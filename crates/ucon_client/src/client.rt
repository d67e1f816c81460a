//! A client: its part of the document, its seat, and what it reads off a board.

ghost use Rattle.std.specs.Prelude.{◌≡◌, ◌↔◌, ◌+◌, ◌^◌, ◌<◌, ◌≤◌, true, false, None, [], length, IfSome};
ghost use Rattle.ucon_turn.specs.Turns.{IsSeatOf};
ghost use Rattle.ucon_client.specs.Answers.{IsPart, IsAnswered, IsReaderAt, Keeps, ServesWith, AnswersOne, held_by, taken};
ghost use Rattle.ucon_store.specs.Events.{events_of};

use crate::boarded::Boarded;
use crate::gate::Gate;
use crate::looks::{Looks, take_in};
use crate::part::Part;
use crate::step::{Confirm, ConfirmedStep, Step};
use std::alloc::Global;
use std::sync::Wait;
use ucon_board::BoardReader;
use ucon_disk::Disk;
use ucon_engine::Engine;
use ucon_turn::{Seat, Turn};

/// A client of a store behind a turn. If it has a reader of the store's board, it reads looks there without a turn, and its next turn confirms
/// them.
pub struct Client<E: Engine, D: Disk> {
    pub part: Part,
    pub seat: Seat<Boarded<E, D>>,
    /// What it reads off the board. None where it goes by the turn for looks, too.
    pub looks: Option<Looks>,
}

impl<E: Engine, D: Disk> Client<E, D> {
    /// A client none of whose lines is answered, with a seat that has seen nothing yet but the opening list. If it has a reader, that has read nothing
    /// yet but the board as it was opened.
    pub fn new(
        alloc: Global,
        turn: &Turn<Boarded<E, D>>,
        part: Part,
        seat: Seat<Boarded<E, D>>,
        reader: Option<BoardReader>,
    ) -> Client<E, D>
        requires seat { IsSeatOf turn.now seat × (seat.number ≡ part.number + 1) }
        requires part { IsPart part × (part.answers.items ≡ []) }
        requires unmarked { turn.now.opened.store.mark ≡ None }
        requires seen { seat.seen ≡ events_of turn.now.opened.store }
        requires reader { IfSome reader (IsReaderAt turn.now.opened) }
        ensures client { (result.part ≡ part) × (result.seat ≡ seat) }
        ensures serves { ServesWith turn.now result.part result.seat result.looks }
        ensures none_held { held_by result.looks ≡ [] }
        ensures alone { reader ≡ None → result.looks ≡ None }
    {
        let looks = match reader {
            Some(reader) => Some(Looks::new(alloc, reader)),
            None => None,
        };
        Client { part, seat, looks }
    }

    /// Takes one line more: answers it in the client's turn, which it waits for, or reads it off the board. Behind the last line it has what was read
    /// confirmed. False where all lines are answered.
    pub fn turn<R: Wait>(&mut self, rt: &R, alloc: Global, turn: &Turn<Boarded<E, D>>) -> bool
        requires { ServesWith turn.now self.old.part self.old.seat self.old.looks }
        ensures serves { ServesWith turn.now self.new.part self.new.seat self.new.looks }
        ensures ends { (result ≡ false) ↔ IsAnswered self.old.part }
        ensures still { result ≡ false → self.new ≡ self.old }
        ensures answers { result ≡ true → self.old.looks ≡ None
            → AnswersOne turn.now self.old.part self.new.part self.old.seat self.new.seat.seen }
        ensures kept { Keeps self.old.part self.new.part }
    {
        if self.part.is_answered() {
            return false;
        }
        if self.taken() < self.part.lines.len() {
            self.take_next(rt, alloc, turn);
        } else {
            self.settle(rt, alloc, turn);
        }
        true
    }

    /// How many lines are answered, with those whose answers are held.
    fn taken(&self) -> usize
        ensures taken { result ≡ taken self.now.part self.now.looks }
        ensures few { result + 1 < 2 ^ 64 }
    {
        let held = match &self.looks {
            Some(looks) => looks.held.slice().len(),
            None => 0,
        };
        self.part.answers.slice().len() + held
    }

    /// Takes one line more.
    fn take_next<R: Wait>(&mut self, rt: &R, alloc: Global, turn: &Turn<Boarded<E, D>>)
        requires serves { ServesWith turn.now self.old.part self.old.seat self.old.looks }
        requires more { taken self.old.part self.old.looks < length self.old.part.lines.items }
        ensures serves { ServesWith turn.now self.new.part self.new.seat self.new.looks }
        ensures taken { taken self.new.part self.new.looks ≡ taken self.old.part self.old.looks + 1 }
        ensures answers { self.old.looks ≡ None → AnswersOne turn.now self.old.part self.new.part self.old.seat self.new.seat.seen }
        ensures kept { Keeps self.old.part self.new.part }
    {
        if self.looks.is_none() {
            self.answer_next(rt, alloc, turn);
            return;
        }
        let count = self.taken() + 1;
        let read = match &mut self.looks {
            Some(looks) => looks.read_next(rt, &self.part),
            None => false,
        };
        if !read && !self.answer_behind(rt, alloc, turn) {
            self.answer_up_to(rt, alloc, turn, count);
        }
    }

    /// Answers the next line in the client's turn. It has no reader.
    pub(crate) fn answer_next<R: Wait>(&mut self, rt: &R, alloc: Global, turn: &Turn<Boarded<E, D>>)
        requires serves { ServesWith turn.now self.old.part self.old.seat self.old.looks }
        requires alone { self.old.looks ≡ None }
        requires more { length self.old.part.answers.items < length self.old.part.lines.items }
        ensures serves { ServesWith turn.now self.new.part self.new.seat self.new.looks }
        ensures alone { self.new.looks ≡ None }
        ensures answers { AnswersOne turn.now self.old.part self.new.part self.old.seat self.new.seat.seen }
        ensures kept { Keeps self.old.part self.new.part }
    {
        let line = &self.part.lines.slice()[self.part.answers.len()];
        let mut step = Step { rt, alloc, line };
        let answer = turn.call(rt, &mut self.seat, &mut step);
        self.part.add(answer);
    }

    /// Answers the next line in the client's turn, once that has confirmed what was read. False where it can't: then nothing is answered, and the
    /// client reads the board no more.
    fn answer_behind<R: Wait>(&mut self, rt: &R, alloc: Global, turn: &Turn<Boarded<E, D>>) -> bool
        requires serves { ServesWith turn.now self.old.part self.old.seat self.old.looks }
        requires more { taken self.old.part self.old.looks < length self.old.part.lines.items }
        ensures serves { ServesWith turn.now self.new.part self.new.seat self.new.looks }
        ensures answered { result ≡ true
            → (length self.new.part.answers.items ≡ taken self.old.part self.old.looks + 1) × (held_by self.new.looks ≡ []) }
        ensures unconfirmed { result ≡ false → (self.new.part ≡ self.old.part) × (self.new.looks ≡ None) }
        ensures kept { Keeps self.old.part self.new.part }
    {
        let place = self.taken();
        let Some(looks) = self.looks.take() else {
            return false;
        };
        let line = &self.part.lines.slice()[place];
        let mut step = ConfirmedStep {
            rt,
            alloc,
            line,
            looks,
        };
        let said = turn.call(rt, &mut self.seat, &mut step);
        let ConfirmedStep {
            rt: _,
            alloc: _,
            line: _,
            looks,
        } = step;
        let Some(answer) = said else {
            return false;
        };
        self.looks = take_in(alloc, &mut self.part, looks, answer);
        true
    }

    /// Answers as many lines as this in the client's turns, each in one.
    fn answer_up_to<R: Wait>(
        &mut self,
        rt: &R,
        alloc: Global,
        turn: &Turn<Boarded<E, D>>,
        count: usize,
    )
        requires serves { ServesWith turn.now self.old.part self.old.seat self.old.looks }
        requires alone { self.old.looks ≡ None }
        requires count { (length self.old.part.answers.items ≤ count) × (count ≤ length self.old.part.lines.items) }
        ensures serves { ServesWith turn.now self.new.part self.new.seat self.new.looks }
        ensures answered { (length self.new.part.answers.items ≡ count) × (self.new.looks ≡ None) }
        ensures kept { Keeps self.old.part self.new.part }
    {
        for _place in self.part.answers.len()..count {
            self.answer_next(rt, alloc, turn);
        }
    }

    /// Has what was read behind the last turn confirmed, if there is something.
    fn settle<R: Wait>(&mut self, rt: &R, alloc: Global, turn: &Turn<Boarded<E, D>>)
        requires serves { ServesWith turn.now self.old.part self.old.seat self.old.looks }
        requires all { taken self.old.part self.old.looks ≡ length self.old.part.lines.items }
        ensures serves { ServesWith turn.now self.new.part self.new.seat self.new.looks }
        ensures answered { IsAnswered self.new.part }
        ensures kept { Keeps self.old.part self.new.part }
    {
        if !self.part.is_answered() && !self.confirm(rt, alloc, turn) {
            let count = self.part.lines.len();
            self.answer_up_to(rt, alloc, turn, count);
        }
    }

    /// Has what was read confirmed in the client's turn. False where it can't be: then the client reads the board no more.
    fn confirm<R: Wait>(&mut self, rt: &R, alloc: Global, turn: &Turn<Boarded<E, D>>) -> bool
        requires { ServesWith turn.now self.old.part self.old.seat self.old.looks }
        ensures serves { ServesWith turn.now self.new.part self.new.seat self.new.looks }
        ensures confirmed { result ≡ true → length self.new.part.answers.items ≡ taken self.old.part self.old.looks }
        ensures unconfirmed { result ≡ false → (self.new.part ≡ self.old.part) × (self.new.looks ≡ None) }
        ensures kept { Keeps self.old.part self.new.part }
    {
        let Some(looks) = self.looks.take() else {
            return false;
        };
        let mut confirm = Confirm {
            rt,
            number: self.seat.number(),
            looks,
        };
        let confirmed = turn.call(rt, &mut self.seat, &mut confirm);
        let Confirm {
            rt: _,
            number: _,
            looks,
        } = confirm;
        if confirmed {
            self.looks = Some(looks.settle(alloc, &mut self.part));
        }
        confirmed
    }

    /// Takes all lines that are left, and tells the gate of each. In the end all are answered.
    pub(crate) fn serve<G: Gate, R: Wait>(
        &mut self,
        rt: &R,
        alloc: Global,
        turn: &Turn<Boarded<E, D>>,
        gate: &G,
    )
        requires { ServesWith turn.now self.old.part self.old.seat self.old.looks }
        ensures serves { ServesWith turn.now self.new.part self.new.seat self.new.looks }
        ensures all { IsAnswered self.new.part }
        ensures kept { Keeps self.old.part self.new.part }
    {
        for place in self.taken()..self.part.lines.len() {
            let line = self.part.lines.slice()[place].number;
            gate.before(self.part.number, line);
            self.take_next(rt, alloc, turn);
            gate.after(self.part.number, line);
        }
        self.settle(rt, alloc, turn);
    }
}
