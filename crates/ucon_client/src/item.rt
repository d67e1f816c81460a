//! What goes through an inbox.

/// A line, or the end word, behind which nothing is fed.
#[derive(Drop)]
pub enum Item<T> {
    Line(T),
    End,
}
