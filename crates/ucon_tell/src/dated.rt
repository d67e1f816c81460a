//! What a sink held by which moment of a keeper's disk. It stands in proofs alone.

ghost use Rattle.std.specs.Prelude.{◌≡◌, [], ◌∷◌, ◌++◌};
ghost use Rattle.ucon_tell.specs.Dated.{dated};

use crate::Keeper;
use logbook::{Opening, Rule, Seen, Start};
use std::marker::Model;
use ucon_flow::Sink;

/// What a sink held, if it tells, and a moment.
pub struct Dated;

impl Model for Dated {
    ghost use Rattle.std.specs.Prelude.{None};
    ghost use Rattle.ucon_tell.specs.Dated.{Dated, dated_code};

    ghost Value = { Dated };

    ghost coded = { dated_code };

    ghost view = { λ _. record { held = None; moment = 0 } };
}

/// Nothing is asked of a book.
pub struct Unruled;

impl Rule<Dated, u64> for Unruled {
    ghost use Rattle.std.specs.Prelude.{[], ⊤};
    ghost use base.Fml.{ftrue};

    ghost holds = { λ cells log. ⊤ };

    ghost first = { [] };

    ghost hinted = { λ n log. ⊤ };

    ghost shows = { λ log. [] };

    ghost keeps = { λ names log. ftrue };

    ghost moves = { λ ask before after answer. ⊤ };
}

/// A book's list of what was held when, which has no bytes.
pub type Told = Seen<Dated, u64, Unruled>;

/// A book that opens with nothing.
pub struct Empty;

impl Opening<(), Dated> for Empty {
    ghost use Rattle.std.specs.Prelude.{[]};

    ghost log = { λ count about. [] };
}

/// A book that opens with what another one has, and behind that with what a sink holds now, by the moment of a keeper's disk.
pub struct Longer;

impl<'a, W: Sink, K: Keeper> Opening<(&'a Told, &'a W, &'a K), Dated> for Longer {
    ghost use Rattle.std.specs.Prelude.{[], ◌∷◌, ◌++◌};
    ghost use Rattle.ucon_tell.specs.Dated.{dated};

    ghost log = { λ count about. about.0.now.log ++ dated (W.seen about.1.now) (K.seen about.2.now) ∷ [] };
}

/// What a sink held by which moment, the earliest first.
#[derive(Drop)]
pub(crate) struct Notes {
    told: Told,
}

impl Model for Notes {
    ghost use Rattle.std.specs.Prelude.{List};
    ghost use Rattle.std.specs.Coded.{coded_list};
    ghost use Rattle.ucon_tell.specs.Dated.{Dated, dated_code};

    ghost Value = { List Dated };

    ghost coded = { coded_list dated_code };

    ghost view = { λ n. n.told.log };
}

impl Notes {
    /// No notes.
    pub fn new() -> Notes
        ensures { result ≡ [] }
    {
        let (told, _) = Seen::open_row::<(), Empty>(&(), Start::alone(), 0);
        Notes { told }
    }

    /// Notes what the sink holds, by the moment of the keeper's disk. It takes no memory.
    pub fn push<W: Sink, K: Keeper>(&mut self, sink: &W, keeper: &K)
        ensures { self.new ≡ self.old ++ dated (W.seen sink.now) (K.seen keeper.now) ∷ [] }
    {
        let (told, _) = Seen::open_row::<(&Told, &W, &K), Longer>(
            &(&self.told, sink, keeper),
            Start::alone(),
            0,
        );
        self.told = told;
    }
}
