//! What is read as a selector, as functions that do nothing.

ghost use Rattle.selector_laws.specs.Grammar.{ReadSelectorsAreDerived, SelectorsAreReadExactly};
ghost use Rattle.selector_laws.specs.Limits.{ReadSelectorsKeepTheLimits};
ghost use Rattle.selector_laws.specs.Positions.{WrittenAreTested};

/// Each selector that is read is derived by the grammar of Selectors 3, from the very terms that it was read from.
pub fn read_selectors_are_derived()
    ensures { ReadSelectorsAreDerived }
{}

/// Each selector that is read keeps to the limits.
///
/// - It has at least one compound and at most `MAX_COMPOUNDS`, and a combinator between each two.
/// - Each compound has at least one simple selector and at most `MAX_SIMPLES`.
/// - At most `MAX_STEPPED` of its positions have a step of 2 or more in size.
/// - Each step and offset is in range.
/// - The attribute `id` is tested for presence and equality alone.
pub fn read_selectors_keep_the_limits()
    ensures { ReadSelectorsKeepTheLimits }
{}

/// A part of a prelude is read as a selector exactly where the grammar derives that selector from its terms and it
/// keeps to the limits.
pub fn selectors_are_read_exactly()
    ensures { SelectorsAreReadExactly }
{}

/// The written positions of a selector that is read are those that it tests, in this order. They are the arguments of
/// `:nth-child()` and `:nth-last-child()` in its terms, and the first or last position for each `:first-child` and
/// `:last-child`.
pub fn written_positions_are_tested()
    ensures { WrittenAreTested }
{}
