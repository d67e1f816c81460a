//! The table that the seats of a turn share: three words, a slot for the value, and what is kept of each seat.

use crate::value::Turned;
use atomic_table::{Seat, Shared, Table, TableRule};
use std::alloc::Global;
use std::collections::LinkedList;
use std::marker::PhantomData;
use std::snapshot::Snapshot;

/// The word with the next ticket.
pub const NEXT: usize = 0;

/// The word with the ticket that is up.
pub const NOW: usize = 1;

/// The word that counts the entries that were booked.
pub const LENGTH: usize = 2;

/// The slot of the value. It holds nothing while a seat has the value.
pub const VALUE: usize = 0;

/// Where a seat is in its round.
pub enum Stage {
    /// It was joined into another seat.
    Spent,
    Idle,
    /// It took in another seat, and has not looked yet.
    Joined,
    Waiting,
    Up,
    /// It has the value.
    Holding,
    /// It has the value, and has booked what was appended to it.
    Booked,
}

/// What the table keeps of a seat. No value of it is made.
pub struct SeatView<E, N> {
    pub stage: Stage,
    pub ticket: u64,
    pub number: u64,
    /// The value that was handed in, alone.
    pub opened: LinkedList<E>,
    pub seen: LinkedList<N>,
    /// The numbers that it gave, the last one first.
    pub given: LinkedList<u64>,
    /// The numbers that it took back, the last one first.
    pub taken: LinkedList<u64>,
    /// The number that it gives next.
    pub note: u64,
    /// Of the last join: what it had seen, and what the other had seen.
    pub ours: LinkedList<N>,
    pub theirs: LinkedList<N>,
}

/// The rule that the table keeps of a turn, as `Ruled` of `specs/Rule.antt` states it. No value of it is made.
pub struct TurnRule<E> {
    of: PhantomData<E>,
}

impl<E: Turned> TableRule<Option<E>, SeatView<E, E::Entry>, Snapshot<E>> for TurnRule<E> {
    ghost use Rattle.ucon_turn.specs.Rule.{Ruled, LedTo, first_view};

    ghost holds = { λ about. Ruled E.caller (LedTo E.base E.stays) E.entries about.value };

    ghost first = { λ about. first_view about.value (E.entries about.value) };
}

/// The table of a turn: three words, one slot for the value, and what is kept of each seat.
pub type TurnTable<E> = Table<
    Option<E>,
    SeatView<E, <E as Turned>::Entry>,
    Snapshot<E>,
    TurnRule<E>,
    Global,
>;

/// The part of the table that seats step on.
pub type SharedTable<E> = Shared<
    Option<E>,
    SeatView<E, <E as Turned>::Entry>,
    Snapshot<E>,
    TurnRule<E>,
>;

/// A seat at such a table, with what the table keeps of it.
pub type TableSeat<E> = Seat<Option<E>, SeatView<E, <E as Turned>::Entry>>;
