//! The ways in which pairs of an item may move in a step of two items.

/// The way in which pairs of an item move in a step of two items.
/// Those of a lower item move up into a rule above it, or those of an upper one down into a rule below it.
#[derive(Clone, Copy, Debug)]
pub enum Way {
    /// Up, into a rule above.
    Up,
    /// Down, into a rule below.
    Down,
}
