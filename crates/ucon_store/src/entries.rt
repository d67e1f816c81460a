//! A list of entries, as proofs know it. In memory it is a number.

ghost use Rattle.std.specs.Prelude.{◌≡◌, ◌↔◌, ◌+◌, ◌<◌, ◌^◌, ◌∷◌, [], ◌++◌, length, IsTrue, ⊤};

use logbook::{Opening, Rule, Seen, Start};
use std::marker::Model;
use ucon_model::{Caller, Command, Entry};

/// Nothing is asked of a book.
pub struct Unruled;

impl Rule<Entry, u64> for Unruled {
    ghost use Rattle.std.specs.Prelude.{[]};
    ghost use base.Fml.{ftrue};

    ghost holds = { λ cells log. ⊤ };

    ghost first = { [] };

    ghost hinted = { λ n log. ⊤ };

    ghost shows = { λ log. [] };

    ghost keeps = { λ names log. ftrue };

    ghost moves = { λ ask before after answer. ⊤ };
}

/// A book's list of entries, which has no bytes.
pub type Told = Seen<Entry, u64, Unruled>;

/// A book that opens with no entries.
pub struct Empty;

impl Opening<(), Entry> for Empty {
    ghost use Rattle.std.specs.Prelude.{[]};

    ghost log = { λ count about. [] };
}

/// A book that opens with the entries of another one, and one more behind them.
pub struct Longer;

impl<'a> Opening<(&'a Told, Caller, &'a Command), Entry> for Longer {
    ghost use Rattle.std.specs.Prelude.{[], ◌∷◌, ◌++◌};

    ghost log = { λ count about. about.0.now.log ++ record { caller = about.1; command = about.2.now } ∷ [] };
}

/// A book that opens with the entries of one, and behind them those of another.
pub struct Joined;

impl<'a> Opening<(&'a Told, &'a Told), Entry> for Joined {
    ghost use Rattle.std.specs.Prelude.{◌++◌};

    ghost log = { λ count about. about.0.now.log ++ about.1.now.log };
}

/// Entries in their order. They stand in proofs alone; what is kept in memory is how many there are.
#[derive(Drop)]
pub(crate) struct Entries {
    count: u64,
    told: Told,
}

impl Model for Entries {
    ghost use Rattle.std.specs.Prelude.{◌≡◌, List, length};
    ghost use Rattle.std.specs.Coded.{coded_list};
    ghost use Rattle.ucon_model.specs.contracts.command.Entry as entry_row;
    ghost use Rattle.ucon_model.specs.declared.command.Entry.{Entry};

    ghost Value = { List Entry };

    ghost coded = { coded_list (entry_row.the_row).coded };

    ghost view = { λ e. e.told.log };

    ghost invariant = { λ e. e.count ≡ length e.told.log };
}

impl Entries {
    /// No entries.
    pub fn new() -> Entries
        ensures { result ≡ [] }
    {
        let (told, _) = Seen::open_row::<(), Empty>(&(), Start::alone(), 0);
        Entries { count: 0, told }
    }

    /// One entry. It takes no memory.
    pub fn of(caller: Caller, command: &Command) -> Entries
        ensures { result ≡ record { caller = caller; command = command.now } ∷ [] }
    {
        let mut entries = Entries::new();
        entries.push(caller, command);
        entries
    }

    /// Counts the entries.
    pub fn len(&self) -> u64
        ensures { result ≡ length self.now }
    {
        self.count
    }

    /// Whether there are none.
    pub fn is_empty(&self) -> bool
        ensures { IsTrue result ↔ (self.now ≡ []) }
    {
        self.count == 0
    }

    /// Adds an entry. It takes no memory.
    pub fn push(&mut self, caller: Caller, command: &Command)
        requires few { length self.old + 1 < 2 ^ 64 }
        ensures { self.new ≡ self.old ++ record { caller = caller; command = command.now } ∷ [] }
    {
        let (told, _) = Seen::open_row::<(&Told, Caller, &Command), Longer>(
            &(&self.told, caller, command),
            Start::alone(),
            0,
        );
        self.count += 1;
        self.told = told;
    }

    /// Adds the entries of another list, behind these. It takes no memory.
    pub fn extend(&mut self, more: &Entries)
        requires few { length self.old + length more.now < 2 ^ 64 }
        ensures { self.new ≡ self.old ++ more.now }
    {
        let (told, _) = Seen::open_row::<(&Told, &Told), Joined>(
            &(&self.told, &more.told),
            Start::alone(),
            0,
        );
        self.count += more.count;
        self.told = told;
    }
}
