//! The tokens of a policy's text, read from left to right.
//!
//! The reader of policies and the grammar in `ucon_model` share the tokens, and nothing else. Tokens are defined in `ucon_base`.
//!
//! **Always.** A `Reader` holds the tokens that are left of its text.
//!
//! **Free.** How bytes are looked at.
//!
//! **Before a change.** A flawed token ends the list and decides the fault, whatever the grammar wanted. Limits are marks on tokens, so each is
//! reported at its own token. Begin at `reader.rt`.
#![tactic(auto)]

mod lex;
mod literal;
mod reader;
mod set;
mod stop;
mod token;

pub use literal::LiteralStart;
pub use reader::Reader;
pub use stop::{Cause, Stop};
pub use token::{Flaw, Symbol, Token};
