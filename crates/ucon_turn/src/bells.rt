//! The bells that waiting seats sleep by.
ghost use Rattle.std.specs.Prelude.{◌≡◌};

use crate::table::{NOW, SharedTable};
use crate::value::Turned;
use crossbeam_utils::sync::EventCount;
use std::array;
use std::sync::Wait;

/// How many bells there are: with one more seat than this, two may share one.
const BELLS: usize = 64;

/// A bell for each ticket that may be out, so that the end of a turn wakes the seat whose ticket is up, and no other.
#[derive(Drop)]
pub struct Bells {
    bells: [EventCount; BELLS],
}

impl Bells {
    pub fn new() -> Bells {
        Bells {
            bells: array::from_fn(|_| EventCount::new()),
        }
    }

    /// The bell of a ticket.
    fn of(&self, ticket: u64) -> &EventCount {
        &self.bells[ticket as usize % BELLS]
    }

    /// Sleeps until the ticket's bell is rung, if `now` is still the ticket that is up. It may also return for no reason.
    pub fn sleep<E: Turned, R: Wait>(&self, rt: &R, table: &SharedTable<E>, ticket: u64, now: u64)
        requires { table.now.table_id.words ≡ 3 }
    {
        // Whoever ends a turn calls the next ticket first, and rings then. So a sleeper announces itself first, and looks then.
        let key = self.of(ticket).prepare_wait();
        if table.peek(NOW) == now {
            key.wait(rt);
        }
    }

    /// Wakes the seat of a ticket, which is up.
    pub fn ring(&self, ticket: u64) {
        self.of(ticket).notify_all();
    }
}
