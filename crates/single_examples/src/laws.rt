//! Two selectors of one compound each, as functions that do nothing.

ghost use Rattle.single_examples.specs.Laws.{ExamplesShowMeeting, MeetingPasses};

use shape_laws::{selectors_that_meet_have_a_shape, shapes_show_meeting};

/// The example for two selectors of one compound each shows that they meet. All types and attributes have names, and
/// `:empty` is not asked for beside its negation.
pub fn examples_show_meeting()
    ensures { ExamplesShowMeeting }
{
    shapes_show_meeting();
}

/// Where two selectors of one compound each meet, one of the three documents has an element that passes.
pub fn meeting_selectors_pass()
    ensures { MeetingPasses }
{
    selectors_that_meet_have_a_shape();
}
