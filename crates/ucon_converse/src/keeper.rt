//! A store that answers lines.

ghost use Rattle.std.specs.Prelude.{◌≡◌, ◌+◌, length};
ghost use Rattle.ucon_converse.specs.Keeping.{IsLed};

use crate::answering::answer_front;
use crate::lines::put_refusal;
use crate::points::{Places, Points};
use std::alloc::Global;
use std::marker::Model;
use ucon_base::NoMemory;
use ucon_disk::Disk;
use ucon_engine::Engine;
use ucon_store::Store;
use ucon_tell::Keeper;

/// A store that answers the lines of a conversation, and makes checkpoints by itself.
#[derive(Drop)]
pub struct StoreKeeper<E: Engine, D: Disk> {
    store: Store<E, D>,
    points: Points,
}

impl<E: Engine, D: Disk> Model for StoreKeeper<E, D> {
    ghost use Rattle.ucon_converse.specs.Answering.{Answering, answering, answering_code};
    ghost use Rattle.ucon_converse.specs.Keeping.{IsLed};

    ghost Value = { Answering D };

    ghost coded = { answering_code D.code };

    ghost view = { λ k. answering k.store k.points };

    ghost invariant = { λ k. IsLed k.store };
}

impl<E: Engine, D: Disk> StoreKeeper<E, D> {
    ghost use Rattle.std.specs.Prelude.{[]};
    ghost use Rattle.ucon_converse.specs.Answering.{Answering};

    /// Over a store to whose beginning a trace leads. No checkpoint was tried behind that.
    pub fn new(store: Store<E, D>) -> StoreKeeper<E, D>
        requires { IsLed store }
        ensures { result ≡ record { store = store; made = []; tried = store.before } }
    {
        let tried = store.before();
        StoreKeeper {
            store,
            points: Points {
                made: Places::new(),
                tried,
            },
        }
    }

    /// The number of its steps, those before a checkpoint among them.
    pub(crate) fn steps(&self) -> u64
        ensures { result ≡ self.now.store.before + length self.now.store.entries }
    {
        self.store.place()
    }

    /// The store.
    pub fn into_store(self) -> Store<E, D>
        ensures { result ≡ self.store }
    {
        let StoreKeeper { store, points: _ } = self;
        store
    }
}

impl<E: Engine, D: Disk> Keeper for StoreKeeper<E, D> {
    ghost use Rattle.ucon_converse.specs.Keeping.{GivesReplies, Keeps, Refuses, kept_seen};
    ghost use Rattle.ucon_converse.specs.KeeperLaws.{keeps_again, keeps_kept, keeps_same};

    ghost seen = { λ k. kept_seen D.seen k };

    ghost stays = { λ x y. Keeps D.seen x y };

    ghost answers = { λ x y told. GivesReplies D.seen x y told };

    ghost refuses = { λ x reply. Refuses x reply };

    ghost kept = { λ x y t c keeps le lt since. keeps_kept D.seen D.only_now D.as_read D.since_earlier x y t c keeps le lt since };

    ghost onward = { λ x y keeps. keeps.later };

    ghost same = { λ x. keeps_same D.seen D.only_now x };

    ghost again = { λ x y z p q. keeps_again D.seen D.only_now D.as_read D.counts_now x y z p q };

    fn answer(
        &mut self,
        alloc: Global,
        came: &[u8],
        limit: usize,
        text: &mut Vec<u8>,
    ) -> Result<usize, NoMemory> {
        answer_front(alloc, &mut self.store, &mut self.points, came, limit, text)
    }

    fn too_long(&self, text: &mut Vec<u8>) -> Result<(), NoMemory> {
        put_refusal(text, b"too long")
    }
}
