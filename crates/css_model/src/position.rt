//! Steps and offsets of positions among siblings.

/// A step and an offset, as the argument of `:nth-child()` gives them: the positions `a·n + b` for
/// `n` from 0 on (Selectors 3, section 6.6.5.2).
#[derive(Clone, Copy, Debug, Default, PartialEq, Eq, Hash)]
pub struct AnB {
    /// The step, which may be negative or 0.
    pub a: i32,
    /// The offset, which may be negative or 0.
    pub b: i32,
}
