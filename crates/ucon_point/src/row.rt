//! What a checkpoint holds, line by line.

use ucon_base::{Int, Name, Side, Value};
use ucon_model::SessionRow;

/// What one line behind the tick says.
#[derive(Drop)]
pub enum Row {
    /// A variable of the policy in force, and its value.
    Variable(Name, Value),
    /// An entity. The values of its attributes follow.
    Entity(Side, Name),
    /// An attribute of the last entity, and its value.
    Attribute(Name, Value),
    /// An act, and the tick at which it was last done.
    Act {
        subject: Name,
        action: Name,
        object: Name,
        moment: Int,
    },
    /// A session. They come by their numbers, from 1.
    Session(SessionRow),
}
