//! What the formula of a pair decides, and its size.

ghost use Rattle.formula_laws.specs.Deciding.{FormulaIsSound, FormulaIsComplete, FormulaDecidesShapes, FormulaIsSmall, SatisfyingShapesFit};

use grid_laws::{shapes_are_solved, solved_has_a_shape, solved_shapes_fit};
use shape_laws::shapes_shrink;

/// The shape of values that satisfy all clauses fits the pair, whatever the width of the numbers.
pub fn satisfying_shapes_fit()
    ensures { SatisfyingShapesFit }
{
    solved_shapes_fit();
}

/// Where a list of values satisfies all clauses, a shape fits the pair, whatever the width of the numbers.
pub fn formula_is_sound()
    ensures { FormulaIsSound }
{
    solved_has_a_shape();
}

/// Where a shape fits the pair, and its numbers of siblings are below `2^width`, a list of values satisfies the formula
/// of this width.
pub fn formula_is_complete()
    ensures { FormulaIsComplete }
{
    shapes_are_solved();
}

/// With the width of the pair's bounds the formula can be satisfied exactly where a shape fits whose numbers of
/// siblings are below `2^width`.
pub fn formula_decides_shapes()
    ensures { FormulaDecidesShapes }
{
    solved_has_a_shape();
    shapes_are_solved();
    shapes_shrink();
}

/// The formula of two selectors of at most twelve compounds each has fewer than 2^24 variables and fewer than 2^32
/// clauses. A compound has at most 64 simple selectors, and the numbers at most 25 digits.
pub fn formula_is_small()
    ensures { FormulaIsSmall }
{}
