//! What a store lends.

ghost use Rattle.std.specs.Prelude.{◌≡◌, ◌++◌, None, Some};
ghost use Rattle.ucon_model.specs.History.{History};
ghost use Rattle.ucon_model.specs.Plain.{PlainPolicy};
ghost use Rattle.ucon_syntax.specs.Policies.{accepted};
ghost use Rattle.ucon_store.specs.Points.{text_in_force};
ghost use Rattle.ucon_store.specs.Starts.{text_at_start};
ghost use Rattle.ucon_store.specs.Whole.{IsFront};

use crate::store::Store;
use ucon_disk::Disk;
use ucon_engine::Engine;

impl<E: Engine, D: Disk> Store<E, D> {
    /// The text of the policy in force behind all entries. Behind a disk fault nothing is said of it.
    pub fn policy_in_force(&self) -> &[u8]
        ensures behind { self.now.mark ≡ None → result.now ≡ text_in_force (text_at_start self.now.policy self.now.point) self.now.entries }
        ensures history { self.now.mark ≡ None → (P : PlainPolicy) (G : History) → accepted self.now.policy ≡ Some P → IsFront P self.now G
            → result.now ≡ text_in_force self.now.policy (G ++ self.now.entries) }
    {
        &self.in_force.text
    }
}
