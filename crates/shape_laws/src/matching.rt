//! From a document to a shape.

ghost use Rattle.shape_laws.specs.Meeting.{MeetingHasAShape};

/// Where two selectors match one target of a legal document, a shape fits both of them.
pub fn selectors_that_meet_have_a_shape()
    ensures { MeetingHasAShape }
{}
