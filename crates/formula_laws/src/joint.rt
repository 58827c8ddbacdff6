//! Remainders that are known of runs of compounds.

use cnf::Lit;

/// What is known that some number of siblings leaves, and how far from its element a run begins.
#[derive(Clone, Copy, Debug, PartialEq, Eq)]
pub struct Joint {
    /// It is known where this literal is true, or always.
    pub given: Option<Lit>,
    /// By what the number is divided.
    pub step: u32,
    /// What is left. `None` if nothing can be.
    pub rest: Option<u32>,
    /// How many places to the right of the number's element the run begins.
    pub right: u32,
    /// How many places to the left.
    pub left: u32,
}
