//! What a step is answered.

use ucon_model::Reply;

/// A reply, and its place: the number of entries after the step.
#[derive(Drop)]
pub struct Placed {
    pub place: u64,
    pub reply: Reply,
}
