//! From nodes and numbers to a shape, and back.

ghost use Rattle.grid_laws.specs.Solving.{SolvedHasAShape, SolvedShapesFit, ShapesAreSolved};

/// Where all conditions hold of nodes and numbers, the shape along the true nodes fits both selectors.
pub fn solved_shapes_fit()
    ensures { SolvedShapesFit }
{}

/// Where all conditions hold of nodes and numbers, a shape fits both selectors.
pub fn solved_has_a_shape()
    ensures { SolvedHasAShape }
{
    solved_shapes_fit();
}

/// Where a shape fits both selectors, all conditions hold of some nodes and numbers. These numbers are as small as
/// those of the shape.
pub fn shapes_are_solved()
    ensures { ShapesAreSolved }
{}
