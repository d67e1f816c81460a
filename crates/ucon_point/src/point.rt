//! What is opened from a checkpoint.

use ucon_base::Rows;
use ucon_state::State;

/// What a checkpoint holds.
#[derive(Drop)]
pub struct Point {
    /// How many entries there were.
    pub entries: u64,
    /// The text of the policy in force.
    pub policy: Rows<u8>,
    /// What was there after them.
    pub state: State,
}
