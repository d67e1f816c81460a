//! What an explanation says.

ghost use Rattle.std.specs.Prelude.{◌≡◌};
ghost use Rattle.ucon_model.specs.Views.{test_of};
ghost use Rattle.ucon_accept.specs.Explanation.{factor_of};

use ucon_base::{Int, Name, Rows, Value};
use ucon_model::{Ref, Test, Verdict};

/// What a predicate decides by: an authorisation (A), an obligation (B) or a condition (C).
#[derive(Clone, Copy)]
pub enum Factor {
    Authorisation,
    Obligation,
    Condition,
}

/// One thing that a predicate reads.
#[derive(Drop)]
pub enum Fact {
    /// What a place holds.
    Value {
        place: Ref,
        value: Value,
    },
    /// The tick at which an act was last done, or None if it never was.
    Moment {
        subject: Name,
        action: Name,
        object: Name,
        moment: Option<Int>,
    },
    /// The present tick.
    Tick(Int),
}

/// A predicate before the usage, with what it comes to.
#[derive(Drop)]
pub struct Why {
    /// Its number among all predicates of the right, from 0.
    pub pred: u32,
    pub label: Name,
    pub factor: Factor,
    pub truth: bool,
    /// What it reads, in the order of first reading.
    pub reads: Rows<Fact>,
}

/// What the try of a right by a subject on an object would meet: each predicate before the usage in written order, and the verdict.
#[derive(Drop)]
pub struct Explanation {
    pub subject: Name,
    pub right: Name,
    pub object: Name,
    pub whys: Rows<Why>,
    pub verdict: Verdict,
}

/// What a test decides by.
pub fn factor_of(test: &Test) -> Factor
    ensures { result ≡ factor_of (test_of test.now) }
{
    match test {
        Test::Authorisation(_) => Factor::Authorisation,
        Test::Obligation(_) => Factor::Obligation,
        Test::Condition(_) => Factor::Condition,
    }
}
