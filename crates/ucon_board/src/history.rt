//! The history of a board, as proofs know it. It has no bytes but a word with the number of its replies.
ghost use Rattle.std.specs.Prelude.{◌≡◌, ◌+◌, ◌<◌, ◌≤◌, ◌^◌, [], ◌∷◌, ◌++◌, length, IfOk, ⊤};
ghost use Rattle.ucon_board.specs.Told.{word_of, events, replied};

use crate::shown::Mark;
use logbook::{Gain, Offer, Opening, Plain, Play, Rule, Seen, Start, Word};
use std::alloc::AllocError;
use std::collections::LinkedList;
use ucon_model::{Head, Revoked, SessionState};

/// A reply that was published. No value of it is made.
pub struct Published {
    pub head: Head,
    pub revoked: LinkedList<Revoked>,
}

/// What a history has in order: how the board was opened, and then its replies. No value of it is made.
pub enum Event {
    Opened {
        place: u64,
        sessions: LinkedList<SessionState>,
    },
    Replied(Published),
}

/// The rule of the history: the word counts its replies.
pub struct Counted;

impl Rule<Event, u64> for Counted {
    ghost use Rattle.std.specs.Prelude.{[]};
    ghost use base.Fml.{ftrue};
    ghost use Rattle.ucon_board.specs.Told.{IsCounted};

    ghost holds = { λ cells log. IsCounted cells log };

    ghost first = { [] };

    ghost hinted = { λ n log. ⊤ };

    ghost shows = { λ log. [] };

    ghost keeps = { λ names log. ftrue };

    ghost moves = { λ ask before after answer. ⊤ };
}

/// A beginning of a board's history.
pub type Told = Seen<Event, u64, Counted>;

/// Callers trade nothing.
pub struct Nothing;

impl Gain<Event, u64> for Nothing {
    ghost use base.Fml.{ftrue};

    ghost after = { λ names about answer. ftrue };
}

/// A book that opens with how the board was opened: its place, and the sessions' states.
pub struct Begins;

impl<'a> Opening<(u64, &'a [SessionState]), Event> for Begins {
    ghost use Rattle.std.specs.Prelude.{[]};
    ghost use Rattle.ucon_board.specs.Told.{events};

    ghost log = { λ count about. events about.0 about.1.now [] };
}

/// A step that adds a reply.
pub struct Adds;

impl Play<Event, u64> for Adds {
    ghost use Rattle.ucon_board.specs.Told.{Adds};

    ghost then = { Adds };
}

impl Plain<Mark, Event, u64> for Adds {
    ghost use Rattle.std.specs.Prelude.{None};
    ghost use Rattle.ucon_board.specs.Told.{replied};

    ghost ask = { replied };

    ghost state = { λ _. None };
}

/// The writer's end of the history.
#[derive(Drop)]
pub struct History {
    word: Word<Event, u64, Counted>,
    count: u64,
    pub told: Told,
    ghost word_is: { word ≡ word_of told.book },
    ghost counted: { count + 1 ≡ length told.log },
}

impl History {
    /// Begins a history: the board was opened at this place, with the states of the sessions from number 1 on.
    pub fn open(place: u64, sessions: &[SessionState]) -> History
        ensures { result.told.log ≡ events place sessions.now [] }
    {
        let (told, mut pens) = Seen::open_row::<(u64, &[SessionState]), Begins>(
            &(place, sessions),
            Start::alone(),
            1,
        );
        let mut pen = pens.take();
        History {
            word: Word::tracked(0, &mut pen),
            count: 0,
            told,
        }
    }

    /// What the history is with one reply more. `AllocError` stands for what can't be: that the word isn't what was written last.
    pub fn with(&self, mark: &Mark) -> Result<Told, AllocError>
        requires { length self.now.told.log < 2 ^ 64 }
        ensures { IfOk result (λ s. (s.book ≡ self.now.told.book) × (s.log ≡ self.now.told.log ++ replied mark.now ∷ [])) }
    {
        let mut told = self.told.again();
        let mut offer: Offer<Event, u64, Counted, Nothing> = told.plain::<Nothing, Mark, Adds>(
            mark,
        );
        let mut pen = told.no_pen();
        let count = self.count;
        let found = self
            .word
            .compare_exchange::<Adds, Nothing>(count, count + 1, &mut told, &mut offer, &mut pen);
        if found == count {
            Ok(told)
        } else {
            Err(AllocError)
        }
    }

    /// The history is the longer one from now on.
    pub fn go_on(&mut self, told: Told)
        requires book { told.book ≡ self.old.told.book }
        requires longer { (length told.log ≡ length self.old.told.log + 1) × (length told.log ≤ 2 ^ 64) }
        ensures { self.new.told ≡ told }
    {
        let History {
            word: _,
            count,
            told: mine,
        } = self;
        *count += 1;
        *mine = told;
    }
}
