//! Declarations whose pairs all come again later, as functions that do nothing.

ghost use Rattle.lint_laws.specs.Repeats.{OthersAreLast, RepeatingIsDecided};

use order_laws::listed_stands_last;

/// A declaration of a rule is repeated exactly where each selector of the rule has the same declaration at a later place
/// (CSS Cascading 3, section 6).
pub fn repeating_is_decided()
    ensures { RepeatingIsDecided }
{
    listed_stands_last();
}

/// A declaration that is not repeated is the last one for some selector of its rule. Without it all places of this pair
/// are earlier ones, or there is none.
pub fn others_are_last()
    ensures { OthersAreLast }
{
    listed_stands_last();
}
