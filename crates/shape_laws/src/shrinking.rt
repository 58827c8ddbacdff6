//! From a shape to a small one.

ghost use Rattle.shape_laws.specs.Shrinking.{ShapesShrink};

use nth_positions::reduction_keeps_members;

/// Where a shape fits two selectors of at most twelve compounds each, a small one fits too. Its gaps between siblings
/// are below `threshold + period`, and its numbers of siblings below `2^width`.
pub fn shapes_shrink()
    ensures { ShapesShrink }
{
    reduction_keeps_members();
}
