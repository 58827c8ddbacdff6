//! The first variables of a pair's formula: the nodes of the grid, five for the root and the number 1, and the digits
//! of the numbers of siblings.

ghost use Rattle.std.specs.Prelude.{◌≡◌, ◌≤◌, ◌<◌, ◌+◌, ◌*◌, ◌∷◌, [], ℕ, suc, length, IsTrue, IfOk};
ghost use Rattle.sibling_clauses.specs.Bounds.{IsSmall};
ghost use Rattle.sibling_clauses.specs.Rows.{number_at};
ghost use Rattle.cnf.specs.Lits.{are_below, is_below, positive};
ghost use Rattle.formula_laws.specs.Formula.{first_vars, names_of, nodes_end, slot_at};
ghost use Rattle.formula_laws.specs.Path.{node, node_lit};
ghost use Rattle.formula_laws.specs.Relations.{literals};
ghost use Rattle.grid_laws.specs.Grid.{left_alone, right_alone, together};

use cnf::{Bits, Lit};
use std::alloc::{AllocError, Global};

/// How the first variables of a pair's formula are numbered.
#[derive(Clone, Copy)]
pub struct Numbering {
    /// The number of the last compound of the left selector, from 0.
    pub left: u32,
    /// The number of the last compound of the right selector, from 0.
    pub right: u32,
    /// How many digits a number of siblings has.
    pub digits: u32,
}

/// A variable as a literal.
#[tactic(auto, unfolding(cnf::specs::Lits::positive))]
fn positive(variable: u32) -> Lit
    requires { variable < 1000000 }
    ensures { result ≡ positive variable }
{
    Lit(2 * variable)
}

impl Numbering {
    /// The number of a cell of the grid.
    #[tactic(auto, using(crate::proofs::Cells::cell_small))]
    fn cell(self, i: u32, j: u32) -> u32
        requires small { IsSmall self }
        requires row { i ≤ self.left }
        requires column { j ≤ self.right }
        ensures value { result ≡ i * suc self.right + j }
        ensures bound { result < 144 }
    {
        i * (self.right + 1) + j
    }

    /// The literal for "some slot holds the i-th left compound alone, and the j-th right one is the last before it",
    /// counted from 0.
    #[tactic(auto, using(crate::proofs::InRange::node_in_range))]
    pub fn left_alone(self, i: u32, j: u32) -> Lit
        requires small { IsSmall self }
        requires row { i ≤ self.left }
        requires column { j ≤ self.right }
        ensures value { result ≡ node_lit (suc self.right) left_alone i j }
        ensures in_range { (v : ℕ) → nodes_end self.left self.right ≤ v → IsTrue (is_below v result) }
    {
        positive(3 * self.cell(i, j))
    }

    /// The literal for "some slot holds the j-th right compound alone, and the i-th left one is the last before it",
    /// counted from 0.
    #[tactic(auto, using(crate::proofs::InRange::node_in_range))]
    pub fn right_alone(self, i: u32, j: u32) -> Lit
        requires small { IsSmall self }
        requires row { i ≤ self.left }
        requires column { j ≤ self.right }
        ensures value { result ≡ node_lit (suc self.right) right_alone i j }
        ensures in_range { (v : ℕ) → nodes_end self.left self.right ≤ v → IsTrue (is_below v result) }
    {
        positive(3 * self.cell(i, j) + 1)
    }

    /// The literal for "some slot holds the i-th left compound and the j-th right one", counted from 0.
    #[tactic(auto, using(crate::proofs::InRange::node_in_range))]
    pub fn together(self, i: u32, j: u32) -> Lit
        requires small { IsSmall self }
        requires row { i ≤ self.left }
        requires column { j ≤ self.right }
        ensures value { result ≡ node_lit (suc self.right) together i j }
        ensures in_range { (v : ℕ) → nodes_end self.left self.right ≤ v → IsTrue (is_below v result) }
    {
        positive(3 * self.cell(i, j) + 2)
    }

    /// How many nodes there are.
    #[tactic(auto, using(crate::proofs::Cells::cells_few))]
    pub(crate) fn nodes_end(self) -> u32
        requires { IsSmall self }
        ensures value { result ≡ nodes_end self.left self.right }
        ensures bound { result ≤ 432 }
    {
        3 * ((self.left + 1) * (self.right + 1))
    }

    /// The literal for "the last slot is that of the root".
    #[tactic(auto, using(crate::proofs::InRange::first_in_range_by))]
    pub fn root(self) -> Lit
        requires { IsSmall self }
        ensures value { result ≡ (names_of self.left self.right self.digits).root }
        ensures in_range { (v : ℕ) → first_vars self.left self.right self.digits ≤ v → IsTrue (is_below v result) }
    {
        positive(self.nodes_end())
    }

    /// The literal for "the root counts as a child".
    #[tactic(auto, using(crate::proofs::InRange::first_in_range_by))]
    pub fn child(self) -> Lit
        requires { IsSmall self }
        ensures value { result ≡ (names_of self.left self.right self.digits).child }
        ensures in_range { (v : ℕ) → first_vars self.left self.right self.digits ≤ v → IsTrue (is_below v result) }
    {
        positive(self.nodes_end() + 1)
    }

    /// The literal for "the last left compound is in the root".
    #[tactic(auto, using(crate::proofs::InRange::first_in_range_by))]
    pub fn left_root(self) -> Lit
        requires { IsSmall self }
        ensures value { result ≡ (names_of self.left self.right self.digits).rx }
        ensures in_range { (v : ℕ) → first_vars self.left self.right self.digits ≤ v → IsTrue (is_below v result) }
    {
        positive(self.nodes_end() + 2)
    }

    /// The literal for "the last right compound is in the root".
    #[tactic(auto, using(crate::proofs::InRange::first_in_range_by))]
    pub fn right_root(self) -> Lit
        requires { IsSmall self }
        ensures value { result ≡ (names_of self.left self.right self.digits).ry }
        ensures in_range { (v : ℕ) → first_vars self.left self.right self.digits ≤ v → IsTrue (is_below v result) }
    {
        positive(self.nodes_end() + 3)
    }

    /// The literal that is the number 1.
    #[tactic(auto, using(crate::proofs::InRange::first_in_range_by))]
    pub(crate) fn one(self) -> Lit
        requires { IsSmall self }
        ensures value { result ≡ (names_of self.left self.right self.digits).one }
        ensures in_range { (v : ℕ) → first_vars self.left self.right self.digits ≤ v → IsTrue (is_below v result) }
    {
        positive(self.nodes_end() + 4)
    }

    /// The digits of the q-th number of siblings, from the least on: those before and behind the left compounds in
    /// turn, and then those of the right ones. `AllocError` where memory runs out.
    #[tactic(auto, using(crate::proofs::Cells::slots_few, crate::proofs::InRange::number_in_range, crate::proofs::InRange::number_length))]
    pub fn number(self, alloc: Global, q: u32) -> Result<Bits, AllocError>
        requires small { IsSmall self }
        requires slot { q < 2 * suc self.left + 2 * suc self.right }
        ensures value { IfOk result (λ b. b ≡ number_at self q) }
        ensures in_range { IfOk result (λ b. (v : ℕ) → first_vars self.left self.right self.digits ≤ v → IsTrue (are_below v b)) }
        ensures digits { IfOk result (λ b. length b ≡ self.digits) }
    {
        let start = self.nodes_end() + 5 + q * self.digits;
        let bits = literals(alloc, start, self.digits)?;
        Ok(Bits { bits })
    }

    /// The number 1.
    #[tactic(auto, using(crate::proofs::InRange::one_is_below))]
    pub(crate) fn one_number(self, alloc: Global) -> Result<Bits, AllocError>
        requires small { IsSmall self }
        ensures value { IfOk result (λ b. b ≡ (names_of self.left self.right self.digits).one ∷ []) }
        ensures in_range { IfOk result (λ b. (v : ℕ) → first_vars self.left self.right self.digits ≤ v → IsTrue (are_below v b)) }
    {
        let mut bits = Vec::new(alloc);
        bits.push(self.one())?;
        Ok(Bits { bits })
    }

    /// How many siblings are before the element of the i-th left compound, counted from 0, in binary from the least
    /// digit on. `AllocError` where memory runs out.
    pub fn before_left(self, alloc: Global, i: u32) -> Result<Bits, AllocError>
        requires small { IsSmall self }
        requires row { i ≤ self.left }
        ensures value { IfOk result (λ b. b ≡ (names_of self.left self.right self.digits).bx i) }
        ensures in_range { IfOk result (λ b. (v : ℕ) → first_vars self.left self.right self.digits ≤ v → IsTrue (are_below v b)) }
        ensures digits { IfOk result (λ b. length b ≡ self.digits) }
    {
        self.number(alloc, 2 * i)
    }

    /// How many siblings are after the element of the i-th left compound, counted from 0, in binary from the least
    /// digit on. `AllocError` where memory runs out.
    pub fn after_left(self, alloc: Global, i: u32) -> Result<Bits, AllocError>
        requires small { IsSmall self }
        requires row { i ≤ self.left }
        ensures value { IfOk result (λ b. b ≡ (names_of self.left self.right self.digits).ax i) }
        ensures in_range { IfOk result (λ b. (v : ℕ) → first_vars self.left self.right self.digits ≤ v → IsTrue (are_below v b)) }
        ensures digits { IfOk result (λ b. length b ≡ self.digits) }
    {
        self.number(alloc, 2 * i + 1)
    }

    /// How many siblings are before the element of the j-th right compound, counted from 0, in binary from the least
    /// digit on. `AllocError` where memory runs out.
    pub fn before_right(self, alloc: Global, j: u32) -> Result<Bits, AllocError>
        requires small { IsSmall self }
        requires column { j ≤ self.right }
        ensures value { IfOk result (λ b. b ≡ (names_of self.left self.right self.digits).by j) }
        ensures in_range { IfOk result (λ b. (v : ℕ) → first_vars self.left self.right self.digits ≤ v → IsTrue (are_below v b)) }
        ensures digits { IfOk result (λ b. length b ≡ self.digits) }
    {
        self.number(alloc, 2 * (self.left + 1) + 2 * j)
    }

    /// How many siblings are after the element of the j-th right compound, counted from 0, in binary from the least
    /// digit on. `AllocError` where memory runs out.
    pub fn after_right(self, alloc: Global, j: u32) -> Result<Bits, AllocError>
        requires small { IsSmall self }
        requires column { j ≤ self.right }
        ensures value { IfOk result (λ b. b ≡ (names_of self.left self.right self.digits).ay j) }
        ensures in_range { IfOk result (λ b. (v : ℕ) → first_vars self.left self.right self.digits ≤ v → IsTrue (are_below v b)) }
        ensures digits { IfOk result (λ b. length b ≡ self.digits) }
    {
        self.number(alloc, 2 * (self.left + 1) + 2 * j + 1)
    }

    /// How many first variables there are.
    #[tactic(auto, using(crate::proofs::Cells::slots_few))]
    pub fn first_vars(self) -> u32
        requires { IsSmall self }
        ensures value { result ≡ first_vars self.left self.right self.digits }
        ensures bound { result ≤ 2000 }
    {
        self.nodes_end() + 5 + (2 * (self.left + 1) + 2 * (self.right + 1)) * self.digits
    }
}

/// The literals of so many variables from one on.
#[tactic(auto, using(crate::proofs::Cells::literals_more))]
fn literals(alloc: Global, start: u32, count: u32) -> Result<Vec<Lit>, AllocError>
    requires { start + count < 1000000 }
    ensures { IfOk result (λ v. v.items ≡ literals start count) }
{
    let mut literals = Vec::new(alloc);
    for k in 0..count {
        literals.push(positive(start + k))?;
    }
    Ok(literals)
}
