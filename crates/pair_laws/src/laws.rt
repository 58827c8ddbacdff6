//! Selectors that meet, and the formula of their pair.

ghost use Rattle.pair_laws.specs.Meeting.{MeetingSatisfies};

use clause_encode::tables_are_ready;
use formula_laws::formula_decides_shapes;
use shape_laws::{selectors_that_meet_have_a_shape, shapes_shrink};

/// Where two selectors that keep to the limits meet, the formula of the pair can be satisfied.
pub fn meeting_satisfies_the_formula()
    ensures { MeetingSatisfies }
{
    selectors_that_meet_have_a_shape();
    shapes_shrink();
    tables_are_ready();
    formula_decides_shapes();
}
