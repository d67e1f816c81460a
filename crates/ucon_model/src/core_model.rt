//! The core models of usage control.

/// What decides, before (pre) or during (on) a usage: authorisations (A), obligations (B) or conditions (C).
#[derive(Clone, Copy, PartialEq, Eq)]
pub enum CoreKind {
    PreA,
    OnA,
    PreB,
    OnB,
    PreC,
    OnC,
}

/// A core model, as `preA1`.
#[derive(Clone, Copy, PartialEq, Eq)]
pub struct Core {
    pub kind: CoreKind,
    /// 0 for no update, 1 for updates before, 2 during and 3 after a usage.
    pub index: u8,
}
