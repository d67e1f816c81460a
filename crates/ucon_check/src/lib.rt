//! Whether a policy is well typed and may follow another, the places that its rights read, and the core models of its rights.
//!
//! `Checked` carries that its policy is well typed. Outside tests only `check` makes one, so nobody above looks again.
//!
//! **Always.** No item before the one that is looked at has a fault.
//!
//! **Free.** How names are looked up. Which fault is first is defined.
//!
//! **Before a change.** `check` asks that each side has few attributes, and has no fault for more, since no text could have that fault. Begin at
//! `typing.rt`. The order of the core models (`models.rt`) is part of the output of the form `check`.
#![tactic(auto)]

mod cores;
mod counted;
mod fault;
mod follow;
mod items;
mod models;
mod places;
mod sorts;
mod sought;
mod typing;

pub use cores::{has_update, is_condition};
pub use fault::CheckFault;
pub use follow::{AmendFault, may_follow};
pub use models::{core_models, core_models_of, core_name};
pub use places::{places_read, reads};
pub use typing::check;
