//! Calls of which some fail, for the source and the sink in memory.

ghost use Rattle.std.specs.Prelude.{◌≡◌, ◌≤◌, if◌then◌else◌};
ghost use Rattle.ucon_flow.specs.Calls.{no_calls, fails_next, one_more, one_failed};
ghost use Rattle.ucon_flow.specs.Causes.{raised};

use std::marker::Model;
use ucon_base::Steps;

/// The numbers of the calls that fail, from 0, and how many were made and failed.
#[derive(Drop)]
pub struct FailingCalls {
    failing: Vec<u64>,
    made: Steps,
    faults: Steps,
}

impl Model for FailingCalls {
    ghost use Rattle.ucon_flow.specs.Calls.{Calls};

    ghost Value = { Calls };

    ghost view = { λ c. record { failing = c.failing.items; made = c.made; faults = c.faults } };
}

impl FailingCalls {
    /// Lets the calls with these numbers fail. The first call is number 0.
    pub fn new(failing: Vec<u64>) -> FailingCalls
        ensures { result ≡ no_calls failing.items }
    {
        FailingCalls {
            failing,
            made: Steps::new(),
            faults: Steps::new(),
        }
    }

    /// Counts one more call, and tells whether it fails.
    pub fn next_fails(&mut self) -> bool
        ensures fails { result ≡ fails_next self.old }
        ensures counted { self.new ≡ (if fails_next self.old then one_failed self.old else one_more self.old) }
        ensures later { self.old.faults ≤ self.new.faults }
    {
        let fails = self.failing.contains(&self.made.count());
        self.made.tick();
        if fails {
            self.faults.tick();
        }
        fails
    }

    /// Counts one more call, which doesn't fail whatever its number.
    pub fn count_call(&mut self)
        ensures counted { self.new ≡ one_more self.old }
    {
        self.made.tick();
    }

    /// Counts the call that was counted last as one that failed.
    pub fn count_fault(&mut self)
        ensures counted { self.new ≡ record self.old { faults = raised self.old.faults } }
        ensures later { self.old.faults ≤ self.new.faults }
    {
        self.faults.tick();
    }
}
