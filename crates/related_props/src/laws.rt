//! The laws of related names, as functions that do nothing.
ghost use Rattle.related_props.specs.Laws.{AllIsRelated, RelatedIsReflexive, RelatedIsSymmetric};

/// Each name is related to itself.
pub fn related_is_reflexive()
    ensures { RelatedIsReflexive }
{}

/// Where one name is related to another, the other is related to it.
pub fn related_is_symmetric()
    ensures { RelatedIsSymmetric }
{}

/// `all` is related to each name.
pub fn all_is_related()
    ensures { AllIsRelated }
{}
