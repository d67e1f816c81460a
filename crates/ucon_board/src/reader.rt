//! The readers' end.
ghost use Rattle.std.specs.Prelude.{◌≡◌, ◌⊎◌, Some};
ghost use Rattle.left_right.specs.Sides.{view};
ghost use Rattle.ucon_board.specs.Board.{GoesOn, place_of, state_in};
ghost use Rattle.ucon_board.specs.Rule.{Tied, Fits};
ghost use Rattle.ucon_board.specs.Told.{board_of, IsOpened};

use crate::history::Told;
use crate::rule::{End, Sees, Shows};
use crate::seen::Seen;
use crate::shown::Shown;
use core::mem::replace_with;
use left_right::reader::{Reader, Reading};
use std::marker::Model;
use std::sync::Wait;

/// A reader of a board. It takes no turn, and what it reads never goes back.
#[derive(Drop)]
pub struct BoardReader {
    pub(crate) inner: Reader<Shown, End, Shows>,
    pub(crate) told: Told,
}

impl Model for BoardReader {
    ghost use Rattle.std.specs.Prelude.{◌≡◌, Some};
    ghost use Rattle.left_right.specs.Sides.{view as known_at};
    ghost use Rattle.ucon_board.specs.Board.{Known};
    ghost use Rattle.ucon_board.specs.Told.{board_of, IsOpened};

    ghost Value = { Known };

    ghost view = { λ r. record { which = r.told.book; board = board_of r.told.log } };

    ghost invariant = { λ r. (known_at r.inner.place ≡ Some r.told) × IsOpened r.told.log };
}

/// What is shown, once the writer's end lets the reader in.
fn enter<R: Wait>(rt: &R, reader: Reader<Shown, End, Shows>) -> Reading<Shown, End, Shows>
    ensures { Tied result.part.value × Fits result.part.value (view reader.place) × (view result.place ≡ Some result.part.value.seen) }
{
    let mut reader = reader;
    for _ in rt.forever() {
        match reader.enter_as::<Sees>() {
            Ok(reading) => return reading,
            Err(back) => reader = back,
        }
    }
    unreachable!()
}

impl BoardReader {
    /// The board's place, and the state of a session, after a list of published replies that begins with all that this reader read before
    /// and was told of. It takes no turn, and may wait for as long as it is let in by no one.
    pub fn look<R: Wait>(&mut self, rt: &R, session: u32) -> Seen
        ensures which { self.new.which ≡ self.old.which }
        ensures later { GoesOn self.old.board self.new.board }
        ensures place { result.place ≡ place_of self.new.board }
        ensures state { result.state ≡ state_in self.new.board session }
    {
        replace_with(self, rt, |reader, rt| reader.looked(rt, session))
    }

    fn looked<R: Wait>(self, rt: &R, session: u32) -> (BoardReader, Seen)
        ensures which { result.0.which ≡ self.which }
        ensures later { GoesOn self.board result.0.board }
        ensures place { result.1.place ≡ place_of result.0.board }
        ensures state { result.1.state ≡ state_in result.0.board session }
    {
        let BoardReader { inner, told: _ } = self;
        let reading = enter(rt, inner);
        let shown = reading.get();
        let told = shown.seen.again();
        let seen = Seen {
            place: shown.place,
            state: shown.state(session),
        };
        let inner = reading.leave();
        (BoardReader { inner, told }, seen)
    }

    /// Whichever of this reader's history and another of the same board is longer goes on from the other.
    pub(crate) fn meets(&self, told: &Told)
        requires book { told.now.book ≡ self.now.which }
        requires opened { IsOpened told.now.log }
        ensures { GoesOn (board_of told.now.log) self.now.board ⊎ GoesOn self.now.board (board_of told.now.log) }
    {
        let mut both = told.again();
        both.learn(&self.told);
    }
}
