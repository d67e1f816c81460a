//! One value that goes from hand to hand among threads, and stands for one list of entries, which begins with all that its caller saw.
//!
//! The clients of `serve` answer their lines through one turn, so their answers are one history for every schedule. A seat waits for its ticket,
//! runs its job on the value, and passes the value on. While it waits it sleeps by a bell of its own, which is rung when its ticket is up;
//! the next one in turn looks 64 times first.
//!
//! **Always.** There is one list. Tickets are out from the one that is served. Each seat's list begins the turn's (`Ruled`).
//!
//! **Free.** When a seat sleeps, and by which bell it is woken.
//!
//! **Before a change.** A split sees only what is kept of the seat, so a note of the number goes before it. What runs leave true is a relation
//! (`stays`), so a seat can cross threads. `Turn` isn't `Drop`: a dropped seat keeps it open for ever. Begin at `specs/Turns.antt`, then
//! `turn.rt`.
#![tactic(auto)]

mod bells;
mod plays;
mod seat;
mod steps;
mod table;
mod turn;
mod value;

pub use seat::{Seat, SeatToken};
pub use turn::Turn;
pub use value::{Job, Turned};
