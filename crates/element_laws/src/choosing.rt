//! Elements for the slots of a shape.

ghost use Rattle.element_laws.specs.Laws.{ChosenElementsSuit};

/// The elements that are chosen for the slots of a shape that fits two selectors suit these slots, and no two have the
/// same id. Ids are tested for presence and equality alone, and all types and attributes have names.
pub fn chosen_elements_suit()
    ensures { ChosenElementsSuit }
{}
