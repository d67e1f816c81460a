//! What is remembered of an act.

use ucon_base::Name;

/// Who did what to which object.
#[derive(Clone, Copy, PartialEq, Eq, Hash)]
pub struct Act {
    pub subject: Name,
    pub action: Name,
    pub object: Name,
}
