//! Why a selector text is outside the profile.

ghost use Rattle.std.specs.Prelude.{◌≡◌};

/// Why a selector text is outside the profile of selectors that are compared.
#[derive(Clone, Copy, Debug, PartialEq, Eq, Hash)]
pub enum Reason {
    /// A pseudo-class that is not among those of the profile.
    PseudoClass = 1,
    /// A pseudo-element after `::` that is none of the four of CSS 2.1.
    PseudoElement = 2,
    /// A `|` that is not the first sign of `|=`, as that of a namespace.
    Namespace = 3,
    /// An ident after the value in an attribute test, as the case flag `i`.
    CaseFlag = 4,
    /// A test on the attribute `id` other than those for presence and equality.
    IdTest = 5,
    /// One compound more than `MAX_COMPOUNDS`.
    TooManyCompounds = 6,
    /// One simple selector more than `MAX_SIMPLES` in a compound.
    TooManySimples = 7,
    /// A position whose step or offset is out of range.
    PositionOutOfRange = 8,
    /// One position with a step of 2 or more in size more than `MAX_STEPPED`.
    TooManyStepped = 9,
    /// A token that the grammar does not allow, or the end where more is needed.
    NotAllowed = 10,
}

impl Reason {
    ghost use Rattle.css_model.specs.Selectors.Reasons.{number_of};

    /// The number by which the reason is shown, from 1 to 10.
    pub fn number(self) -> u32
        ensures { result ≡ number_of self }
    {
        self as u32
    }
}
