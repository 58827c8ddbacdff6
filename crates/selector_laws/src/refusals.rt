//! Why parts are refused as selectors, as a function that does nothing.

ghost use Rattle.selector_laws.specs.Reason.Refusals.{RefusalsStandAtTheirTokens, RefusedAreNoSelectors};

use crate::selectors_are_read_exactly;

/// Where a part of a prelude is refused as a selector, it has the tokens that the reason names. The token of a limit
/// comes after as many compounds, simple selectors or stepped positions as may be there. A bar is not the first sign of
/// `|=` after the name of an attribute. Of a token that is not allowed no place is said. Whatever the reason, no
/// selector within the limits has these tokens.
pub fn refusals_stand_at_their_tokens()
    ensures stand { RefusalsStandAtTheirTokens }
    ensures none { RefusedAreNoSelectors }
{
    // A law that does nothing: what is read is what the grammar derives within the limits.
    selectors_are_read_exactly();
}
