//! The two kinds of numbers of siblings.

/// Which siblings of an element are counted.
#[derive(Clone, Copy, Debug, PartialEq, Eq)]
pub enum Count {
    /// Those before it.
    Before,
    /// Those behind it.
    Behind,
}
