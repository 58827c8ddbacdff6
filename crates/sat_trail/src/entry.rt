//! One entry of a trail.
use cnf::Lit;

/// A literal that is true.
#[derive(Clone, Copy, Debug)]
pub struct Entry {
    /// The literal.
    pub lit: Lit,
    /// Its level: the number of decisions up to it.
    pub level: u32,
    /// The number of the clause that implied it, or None where it was decided.
    pub reason: Option<usize>,
}
