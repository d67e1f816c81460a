//! What a client reads off a board.

ghost use Rattle.std.specs.Prelude.{◌≡◌, ◌+◌, ◌<◌, ◌≤◌, ◌++◌, ◌∷◌, [], true, false, length, IfSome};
ghost use Rattle.ucon_model.specs.LegalRun.{placed};
ghost use Rattle.ucon_board.specs.Board.{GoesOn};
ghost use Rattle.ucon_board.specs.States.{look_reply};
ghost use Rattle.ucon_client.specs.Answers.{AreHeld, IsPart, Keeps, answer_of, held_by, taken};
ghost use Rattle.ucon_client.specs.Reading.{HasRead, HoldsOn, GoesOnReading};

use crate::answer::Answer;
use crate::part::Part;
use std::alloc::Global;
use std::sync::Wait;
use ucon_base::Rows;
use ucon_board::{BoardReader, Seen};
use ucon_model::{Command, Refusal, Reply};
use ucon_store::Placed;

/// A client's reader of a board, and the answers to looks that it has read off it since its last turn. They are held until a turn confirms them.
#[derive(Drop)]
pub struct Looks {
    pub reader: BoardReader,
    pub held: Rows<Answer>,
    /// The last place that the client was told, or has read.
    pub last: u64,
}

impl Looks {
    /// None is held yet.
    pub fn new(alloc: Global, reader: BoardReader) -> Looks
        ensures { (result.reader ≡ reader) × (result.held.items ≡ []) × (result.last ≡ 0) }
    {
        Looks {
            reader,
            held: Rows::new(alloc),
            last: 0,
        }
    }

    /// Reads the next line of the part off the board, and holds its answer. False where the line is no look, where the board is behind what the
    /// client was told, or where there is no memory for the answer.
    pub(crate) fn read_next<R: Wait>(&mut self, rt: &R, part: &Part) -> bool
        requires part { IsPart part.now × AreHeld part.now self.old }
        requires more { length part.now.answers.items + length self.old.held.items < length part.now.lines.items }
        ensures reader { (self.new.reader.which ≡ self.old.reader.which) × (self.new.reader.board.opened_at ≡ self.old.reader.board.opened_at) }
        ensures held { AreHeld part.now self.new }
        ensures read { result ≡ true → length self.new.held.items ≡ length self.old.held.items + 1 }
        ensures not_read { result ≡ false → self.new.held.items ≡ self.old.held.items }
    {
        let place = part.answers.slice().len() + self.held.slice().len();
        let line = &part.lines.slice()[place];
        match line.command {
            Command::Look(session) => self.read(rt, session),
            _ => false,
        }
    }

    /// Reads a session's state off the board, and holds the answer.
    fn read<R: Wait>(&mut self, rt: &R, session: u32) -> bool
        ensures later { (self.new.reader.which ≡ self.old.reader.which) × GoesOn self.old.reader.board self.new.reader.board }
        ensures read { result ≡ true → HasRead self.old self.new session }
        ensures not_read { result ≡ false → (self.new.held.items ≡ self.old.held.items) × (self.new.last ≡ self.old.last) }
    {
        let seen = self.reader.look(rt, session);
        if seen.place < self.last || self.held.push(looked(session, seen)).is_err() {
            return false;
        }
        self.last = seen.place;
        true
    }

    /// Gives the answers that are held to the part, once they are confirmed. There is room for them.
    pub(crate) fn settle(self, alloc: Global, part: &mut Part) -> Looks
        requires room { length self.held.items ≤ part.old.answers.spare }
        ensures answers { part.new.answers.items ≡ part.old.answers.items ++ self.held.items }
        ensures spare { part.old.answers.spare ≤ part.new.answers.spare + length self.held.items }
        ensures kept { Keeps part.old part.new }
        ensures looks { (result.reader ≡ self.reader) × (result.held.items ≡ []) × (result.last ≡ self.last) }
    {
        let Looks { reader, held, last } = self;
        for answer in held.into_vec() {
            part.add(answer);
        }
        Looks {
            reader,
            held: Rows::new(alloc),
            last,
        }
    }

    /// Goes on reading behind an answer. Behind the client's own `disk fault`, or where it was stopped, it reads no more.
    pub(crate) fn after(self, answer: &Answer) -> Option<Looks>
        ensures { GoesOnReading self result (answer_of answer.now) }
    {
        let Looks { reader, held, last } = self;
        match answer {
            Answer::Placed(placed) => Some(Looks {
                reader,
                held,
                last: last.max(placed.place),
            }),
            Answer::NoMemory => Some(Looks { reader, held, last }),
            Answer::DiskFault | Answer::Stopped => None,
        }
    }
}

/// Puts the answer to the next line into the part, behind those that were held and are confirmed by now, and goes on reading behind it.
pub(crate) fn take_in(alloc: Global, part: &mut Part, looks: Looks, answer: Answer) -> Option<Looks>
    requires part { IsPart part.old }
    requires held { AreHeld part.old looks }
    requires more { length part.old.answers.items + length looks.held.items < length part.old.lines.items }
    ensures part { IsPart part.new }
    ensures answers { part.new.answers.items ≡ (part.old.answers.items ++ looks.held.items) ++ answer ∷ [] }
    ensures kept { Keeps part.old part.new }
    ensures looks { HoldsOn part.new looks result }
{
    let on = looks.settle(alloc, part).after(&answer);
    part.add(answer);
    on
}

/// The answer to a look at a session, by what the board shows.
fn looked(session: u32, seen: Seen) -> Answer
    ensures { answer_of result ≡ placed seen.place (look_reply session seen.state) }
{
    let reply = match seen.state {
        Some(state) => Reply::Status(session, state),
        None => Reply::Refused(Refusal::NoSession),
    };
    Answer::Placed(Placed {
        place: seen.place,
        reply,
    })
}
