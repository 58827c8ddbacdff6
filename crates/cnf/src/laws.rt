//! The laws of formulas and gates, as functions that do nothing.

ghost use Rattle.std.specs.Prelude.{◌≡◌, ◌≢◌, ◌+◌, ◌*◌, ◌/◌, ◌%◌, ◌^◌, ◌<◌, ◌≤◌, ◌↔◌, ℕ, max, List, ◌++◌, length, slice_index_or, Bool, not, false, IsTrue, count_by};
ghost use Rattle.std.specs.List.{list_all};
ghost use Rattle.cnf.specs.Budgets.{no_limit};
ghost use Rattle.cnf.specs.Cnf.{Cnf, Satisfies, Follows, is_in_range};
ghost use Rattle.cnf.specs.Gates.{Extends, GrowsBy, with_exactly_one, with_and_gate};
ghost use Rattle.cnf.specs.Lits.{is_below, are_below, negation, positive};
ghost use Rattle.cnf.specs.Numbers.{with_at_least, with_division, remainder_digits};
ghost use Rattle.cnf.specs.Propagation.{IsForced};
ghost use Rattle.cnf.specs.Sums.{number, with_adder};
ghost use Rattle.cnf.specs.Values.{value, all_hold};
ghost use Rattle.cnf.specs.declared.lit.Lit.{Lit};

use crate::ledger::NO_LIMIT;

/// A clause that unit propagation forces follows from the formula (Goldberg and Novikov,
/// "Verification of proofs of unsatisfiability for CNF formulas", 2003).
pub fn forced_clause_follows()
    ensures { (f : Cnf) (clause : List Lit) → IsForced f.clauses clause → Follows f clause }
{}

/// Values make each negation true where its literal is false, and a variable's literal true where the variable is. More
/// values at the end change no literal that has one.
pub fn literals_follow_variables()
    ensures negation { (vs : List Bool) (l : Lit) → value vs (negation l) ≡ not (value vs l) }
    ensures positive { (vs : List Bool) (v : ℕ)
        → value vs (positive v) ≡ slice_index_or vs v false }
    ensures more { (vs more : List Bool) (l : Lit) → IsTrue (is_below (length vs) l)
        → value (vs ++ more) l ≡ value vs l }
{}

/// Extending is a preorder: each formula in range extends itself, and what extends an extension of a formula extends
/// the formula.
pub fn extending_is_a_preorder()
    ensures none { (f : Cnf) → IsTrue (is_in_range f) → Extends f f }
    ensures both { (f g h : Cnf) → Extends f g → Extends g h → Extends f h }
{}

/// [`exactly_one`](crate::exactly_one) asks that one place of the list has a true literal: a list of values satisfies
/// the new formula exactly where it satisfies the old one and the number of such places is one. The clauses of the old
/// formula stay in front. (`means` says so of lists of any length.)
pub fn exactly_one_counts_one()
    ensures kept { (f : Cnf) (lits : List Lit)
        → (more : List (List Lit)) × ((with_exactly_one f lits).clauses ≡ f.clauses ++ more) }
    ensures in_range { (f : Cnf) (lits : List Lit) → IsTrue (is_in_range f)
        → IsTrue (are_below f.vars lits) → IsTrue (is_in_range (with_exactly_one f lits)) }
    ensures satisfied { (f : Cnf) (lits : List Lit) (vs : List Bool)
        → Satisfies vs (with_exactly_one f lits)
        ↔ (Satisfies vs f × (count_by (value vs) lits ≡ 1)) }
    ensures means { (f : Cnf) (lits : List Lit) (vs : List Bool)
        → IsTrue (all_hold vs (with_exactly_one f lits).clauses)
        ↔ (IsTrue (all_hold vs f.clauses) × (count_by (value vs) lits ≡ 1)) }
    ensures size { (f : Cnf) (lits : List Lit)
        → GrowsBy f (with_exactly_one f lits) 0 (length lits * length lits + 1) }
{}

/// [`and_gate`](crate::and_gate) extends the formula, and its answer is true exactly where all the literals are, in
/// every list of values under which the new clauses hold.
pub fn and_gate_is_true_where_all_are()
    ensures extends { (f : Cnf) (lits : List Lit) → IsTrue (is_in_range f)
        → IsTrue (are_below f.vars lits) → Extends f (with_and_gate f lits).0 }
    ensures in_range { (f : Cnf) (lits : List Lit)
        → IsTrue (is_below (with_and_gate f lits).0.vars (with_and_gate f lits).1) }
    ensures means { (f : Cnf) (lits : List Lit) (vs : List Bool)
        → IsTrue (all_hold vs (with_and_gate f lits).0.clauses)
        → value vs (with_and_gate f lits).1 ≡ list_all (value vs) lits }
    ensures size { (f : Cnf) (lits : List Lit)
        → GrowsBy f (with_and_gate f lits).0 1 (length lits + 1) }
{}

/// [`adder`](crate::adder) extends the formula, and its answer is the sum, with one digit more than the longer number.
pub fn adder_gives_the_sum()
    ensures extends { (f : Cnf) (x y : List Lit) → IsTrue (is_in_range f)
        → IsTrue (are_below f.vars x) → IsTrue (are_below f.vars y)
        → Extends f (with_adder f x y).0 }
    ensures in_range { (f : Cnf) (x y : List Lit)
        → IsTrue (are_below f.vars x) → IsTrue (are_below f.vars y)
        → IsTrue (are_below (with_adder f x y).0.vars (with_adder f x y).1) }
    ensures digits { (f : Cnf) (x y : List Lit)
        → length (with_adder f x y).1 ≡ max (length x) (length y) + 1 }
    ensures means { (f : Cnf) (x y : List Lit) → IsTrue (is_in_range f)
        → IsTrue (are_below f.vars x) → IsTrue (are_below f.vars y) → (vs : List Bool)
        → IsTrue (all_hold vs (with_adder f x y).0.clauses)
        → number vs (with_adder f x y).1 ≡ number vs x + number vs y }
    ensures size { (f : Cnf) (x y : List Lit) → GrowsBy f (with_adder f x y).0
        (2 * max (length x) (length y) + 1) (20 * max (length x) (length y) + 1) }
{}

/// [`at_least`](crate::at_least) extends the formula, and its answer is true exactly where the number is at least the
/// bound.
pub fn at_least_compares_with_the_bound()
    ensures extends { (f : Cnf) (x : List Lit) (bound : ℕ) → IsTrue (is_in_range f)
        → IsTrue (are_below f.vars x) → Extends f (with_at_least f x bound).0 }
    ensures in_range { (f : Cnf) (x : List Lit) (bound : ℕ) → IsTrue (are_below f.vars x)
        → IsTrue (is_below (with_at_least f x bound).0.vars (with_at_least f x bound).1) }
    ensures means { (f : Cnf) (x : List Lit) (bound : ℕ) → IsTrue (is_in_range f)
        → IsTrue (are_below f.vars x) → (vs : List Bool)
        → IsTrue (all_hold vs (with_at_least f x bound).0.clauses)
        → IsTrue (value vs (with_at_least f x bound).1) ↔ (bound ≤ number vs x) }
    ensures size { (f : Cnf) (x : List Lit) (bound : ℕ)
        → GrowsBy f (with_at_least f x bound).0 (length x + 1) (3 * length x + 1) }
{}

/// [`divide_by`](crate::divide_by) extends the formula, and its answers are the quotient, with as many digits as the
/// number, and the remainder.
pub fn divide_by_gives_quotient_and_remainder()
    ensures extends { (f : Cnf) (x : List Lit) (by : ℕ) → IsTrue (is_in_range f)
        → IsTrue (are_below f.vars x) → by ≢ 0 → by < 2 ^ 32
        → Extends f (with_division f x by).formula }
    ensures in_range { (f : Cnf) (x : List Lit) (by : ℕ) → IsTrue (are_below f.vars x)
        → IsTrue (are_below (with_division f x by).formula.vars (with_division f x by).quotient)
        × IsTrue (are_below (with_division f x by).formula.vars (with_division f x by).remainder) }
    ensures quotient_digits { (f : Cnf) (x : List Lit) (by : ℕ)
        → length (with_division f x by).quotient ≡ length x }
    ensures remainder_digits { (f : Cnf) (x : List Lit) (by : ℕ)
        → length (with_division f x by).remainder ≤ remainder_digits by }
    ensures quotient { (f : Cnf) (x : List Lit) (by : ℕ) → IsTrue (is_in_range f)
        → IsTrue (are_below f.vars x) → by ≢ 0 → by < 2 ^ 32 → (vs : List Bool)
        → IsTrue (all_hold vs (with_division f x by).formula.clauses)
        → number vs (with_division f x by).quotient ≡ number vs x / by }
    ensures remainder { (f : Cnf) (x : List Lit) (by : ℕ) → IsTrue (is_in_range f)
        → IsTrue (are_below f.vars x) → by ≢ 0 → by < 2 ^ 32 → (vs : List Bool)
        → IsTrue (all_hold vs (with_division f x by).formula.clauses)
        → number vs (with_division f x by).remainder ≡ number vs x % by }
    ensures size { (f : Cnf) (x : List Lit) (by : ℕ) → GrowsBy f (with_division f x by).formula
        ((3 * remainder_digits by + 2) * length x) ((23 * remainder_digits by + 4) * length x) }
{}

/// The constant [`NO_LIMIT`](crate::NO_LIMIT) is the budget that the definitions call `no_limit`.
pub fn no_limit_is_defined()
    ensures { NO_LIMIT ≡ no_limit }
{}
