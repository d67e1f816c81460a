//! The rule of the two copies, and what each step tells. These types are for the proofs alone: no value of them is made.
ghost use Rattle.std.specs.Prelude.{None};
ghost use Rattle.ucon_board.specs.Rule.{Keeps, SeesOn};

use crate::history::Told;
use crate::shown::Shown;
use atomic_table::{Join, Split};
use crossbeam_utils::rule::{Outcome, Protocol};

/// What an end knows.
pub type End = Option<Told>;

/// The rule: what is shown is what its history makes, and each end's history begins it.
pub struct Shows;

impl Protocol<Shown, Option<Told>> for Shows {
    ghost use Rattle.std.specs.Prelude.{None};
    ghost use Rattle.ucon_board.specs.Rule.{Keeps};

    ghost holds = { Keeps };

    ghost first = { None };
}

/// The end then knows what is shown.
pub struct Sees;

impl Outcome<Shown, Option<Told>> for Sees {
    ghost use Rattle.ucon_board.specs.Rule.{SeesOn};

    ghost then = { SeesOn };
}

/// A note from the writer, which keeps what it knows.
pub struct Note;

impl Split<Option<Told>> for Note {
    ghost left = { λ v. v };

    ghost right = { λ v. v };
}

/// A reader takes in what the note says.
impl Join<Option<Told>> for Note {
    ghost use Rattle.std.specs.Prelude.{None};

    ghost both = { λ v w. w };

    ghost spent = { None };
}
