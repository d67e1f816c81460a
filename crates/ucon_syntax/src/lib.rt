//! The policy language, read.
//!
//! `read_policy` gives the policy that a text spells, or its first fault. It reads the grammar upwards over the tokens, from literals to policies.
//! Its proofs tie the reader to the grammar of `ucon_model`, which shares only the tokens with it.
//!
//! **Always.** What was read is written so by the grammar, or the place where reading stopped has the first fault.
//!
//! **Free.** All below `read_policy`.
//!
//! **Before a change.** A text's first fault is defined by the grammar alone: what is before it can go on to some policy, and the next token can't
//! follow. Begin at `read.rt`, then `policy.rt`.
#![tactic(auto)]

mod closing;
mod expr;
mod formula;
mod items;
mod laws;
mod list;
mod policy;
mod read;
mod room;
mod starts;

pub use laws::{
    accepted_texts_spell_typed_policies, each_text_spells_or_is_refused,
    readings_are_what_texts_spell, refused_texts_spell_nothing, spelled_policies_keep_the_limits,
    texts_have_one_fault, texts_spell_one_policy,
};
pub use read::{SyntaxFault, read_policy};
