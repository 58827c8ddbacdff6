//! Two selectors, and one kind of their numbers.

ghost use Rattle.std.specs.Prelude.{◌≡◌};
ghost use Rattle.hint_clauses.specs.Counted.{last_of, side_of};

use css_model::Selector;
use formula_laws::Count;
use sibling_clauses::Numbering;

/// Two selectors, of which one kind of numbers is spoken of.
#[derive(Clone, Copy)]
pub(crate) struct Counted<'a> {
    /// How the first variables are numbered.
    pub(crate) numbering: Numbering,
    /// Which siblings are counted.
    pub(crate) count: Count,
    /// The left selector.
    pub(crate) left: &'a Selector,
    /// The right selector.
    pub(crate) right: &'a Selector,
}

/// One of the selectors: the right one, or the left one.
pub(crate) fn side_of<'a>(pair: &Counted<'a>, right: bool) -> &'a Selector
    ensures { result.now ≡ side_of pair.now right }
{
    if right { pair.right } else { pair.left }
}

/// The number of its last compound, from 0.
pub(crate) fn last_of(pair: &Counted<'_>, right: bool) -> u32
    ensures { result ≡ last_of pair.now right }
{
    if right {
        pair.numbering.right
    } else {
        pair.numbering.left
    }
}
