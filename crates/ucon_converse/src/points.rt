//! What a conversation knows of checkpoints.

ghost use Rattle.std.specs.Prelude.{◌≡◌, ◌∷◌, [], ◌++◌};
ghost use Rattle.ucon_converse.specs.Noted.{noted};

use logbook::{Opening, Rule, Seen, Start};
use std::marker::Model;
use ucon_store::PointFault;

/// Nothing is asked of a book.
pub struct Unruled;

impl Rule<u64, u64> for Unruled {
    ghost use Rattle.std.specs.Prelude.{[], ⊤};
    ghost use base.Fml.{ftrue};

    ghost holds = { λ cells log. ⊤ };

    ghost first = { [] };

    ghost hinted = { λ n log. ⊤ };

    ghost shows = { λ log. [] };

    ghost keeps = { λ names log. ftrue };

    ghost moves = { λ ask before after answer. ⊤ };
}

/// A book's list of places, which has no bytes.
pub type Told = Seen<u64, u64, Unruled>;

/// A book that opens with no places.
pub struct Empty;

impl Opening<(), u64> for Empty {
    ghost use Rattle.std.specs.Prelude.{[]};

    ghost log = { λ count about. [] };
}

/// A book that opens with the places of another one, and one more behind them.
pub struct Longer;

impl<'a> Opening<(&'a Told, u64), u64> for Longer {
    ghost use Rattle.std.specs.Prelude.{[], ◌∷◌, ◌++◌};

    ghost log = { λ count about. about.0.now.log ++ about.1 ∷ [] };
}

/// Places of checkpoints, in their order: how many steps stand before each. They stand in proofs alone.
#[derive(Drop)]
pub(crate) struct Places {
    told: Told,
}

impl Model for Places {
    ghost use Rattle.std.specs.Prelude.{ℕ, List};
    ghost use Rattle.std.specs.Coded.{coded_list, coded_ℕ};

    ghost Value = { List ℕ };

    ghost coded = { coded_list coded_ℕ };

    ghost view = { λ p. p.told.log };
}

impl Places {
    /// No places.
    pub fn new() -> Places
        ensures { result ≡ [] }
    {
        let (told, _) = Seen::open_row::<(), Empty>(&(), Start::alone(), 0);
        Places { told }
    }

    /// Adds a place. It takes no memory.
    pub fn push(&mut self, steps: u64)
        ensures { self.new ≡ self.old ++ steps ∷ [] }
    {
        let (told, _) = Seen::open_row::<(&Told, u64), Longer>(
            &(&self.told, steps),
            Start::alone(),
            0,
        );
        self.told = told;
    }
}

/// What a conversation knows of checkpoints.
#[derive(Drop)]
pub(crate) struct Points {
    /// Where it made some.
    pub made: Places,
    /// How many steps there were when it last tried to make one, or before the one behind which its store began.
    pub tried: u64,
}

impl Points {
    /// Notes what became of a checkpoint that was tried behind so many steps.
    pub fn note(&mut self, said: &Result<u64, PointFault>, steps: u64)
        ensures { self.new ≡ noted said.now steps self.old }
    {
        match said {
            Ok(steps) => {
                self.made.push(*steps);
                self.tried = *steps;
            }
            Err(PointFault::Stopped) => {}
            Err(_) => self.tried = steps,
        }
    }
}
