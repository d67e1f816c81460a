//! Where the words of a command stand in its line.

use ucon_base::Side;

/// Where the words of a command stand in its line, by its form. Each `u16`, and the `u32` of a policy, is the place, from 0, at which the word of
/// its name begins. A side and a session's number are kept as what they say. The word that ends a form takes the rest of the line.
#[derive(Clone, Copy)]
pub enum Cuts {
    Subject {
        name: u16,
    },
    Object {
        name: u16,
    },
    Set {
        side: Side,
        name: u16,
        attr: u16,
        value: u16,
    },
    Env {
        name: u16,
        value: u16,
    },
    Tick {
        tick: u16,
    },
    Act {
        subject: u16,
        action: u16,
        object: u16,
    },
    Try {
        subject: u16,
        right: u16,
        object: u16,
    },
    Again(u32),
    Beat(u32),
    End(u32),
    Look(u32),
    Value {
        side: Side,
        name: u16,
        attr: u16,
    },
    Amend {
        policy: u32,
    },
}
