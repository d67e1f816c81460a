//! The rule of an inbox, and what each step tells. These types are for the proofs alone: no value of them is made.
ghost use Rattle.std.specs.Prelude.{◌≡◌, ⊤, true, false, ◌++◌};
ghost use Rattle.ucon_client.specs.Inbox.{items, told_after, nothing};
ghost use Rattle.ucon_client.specs.Rule.{known, InOrder};

use crate::Item;
use crossbeam_channel::protocol::{Join, Lesson, Outcome, Protocol, Split};
use std::collections::LinkedList;

/// The lines that went through an end, and whether the end word came behind them.
pub struct Told<T> {
    pub lines: LinkedList<T>,
    pub ended: bool,
}

/// What a pass may do, and what it has fed and taken.
pub struct Known<T> {
    pub feeds: bool,
    pub takes: bool,
    pub fed: Told<T>,
    pub taken: Told<T>,
}

/// The rule: what was fed is what was taken and then what the inbox holds. One pass at most feeds, and one at most takes.
pub struct Ordered;

impl<T> Protocol<Item<T>, Known<T>> for Ordered {
    ghost use Rattle.std.specs.Prelude.{true};
    ghost use Rattle.ucon_client.specs.Inbox.{nothing};
    ghost use Rattle.ucon_client.specs.Rule.{known, InOrder};

    ghost holds = { InOrder };

    ghost first = { known true true nothing nothing };
}

/// The first pass is cut into that of the feeder and that of the taker, and they are joined again.
pub struct Ends;

impl<T> Split<Known<T>> for Ends {
    ghost use Rattle.std.specs.Prelude.{true, false};
    ghost use Rattle.ucon_client.specs.Inbox.{nothing};
    ghost use Rattle.ucon_client.specs.Rule.{known};

    ghost left = { λ v. known true false v.fed nothing };

    ghost right = { λ v. known false true nothing v.taken };
}

impl<T> Join<Known<T>> for Ends {
    ghost use Rattle.std.specs.Prelude.{true, false};
    ghost use Rattle.ucon_client.specs.Inbox.{nothing};
    ghost use Rattle.ucon_client.specs.Rule.{known};

    ghost both = { λ v w. known true true v.fed w.taken };

    ghost spent = { known false false nothing nothing };
}

/// A step that feeds an item: the pass then knows one more as fed.
pub struct Feeds;

impl<T> Outcome<Item<T>, Known<T>> for Feeds {
    ghost then = { λ v x w. w ≡ record v { fed = told_after v.fed x } };
}

impl<T> Lesson<Item<T>, Known<T>> for Feeds {
    ghost fact = { λ v held. ⊤ };
}

/// A step that takes an item: the pass then knows one more as taken.
pub struct Takes;

impl<T> Outcome<Item<T>, Known<T>> for Takes {
    ghost then = { λ v x w. w ≡ record v { taken = told_after v.taken x } };
}

impl<T> Lesson<Item<T>, Known<T>> for Takes {
    ghost fact = { λ v held. ⊤ };
}

/// What is learned once both ends are one pass again: what was fed is what was taken and then what the inbox holds.
pub struct Total;

impl<T> Lesson<Item<T>, Known<T>> for Total {
    ghost fact = { λ v held. items v.fed ≡ items v.taken ++ held };
}
