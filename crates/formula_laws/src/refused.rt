//! Tests of positions that must not hold.

use remainders::Remainder;

/// What a test of a position needs to hold.
#[derive(Clone, Copy, Debug, PartialEq, Eq)]
pub struct Refused {
    /// What the number of siblings leaves.
    pub rest: Remainder,
    /// Whether the number is at least `bound`. If not, it is below `bound`.
    pub rises: bool,
    /// From where on, or up to where.
    pub bound: u32,
}
