//! What is known of a rule, after a step.

ghost use Rattle.pending_laws.specs.Facts.{JoinedHasNoCut, JoinedHasOwnParts, NoCutComes, OwnPairsGoOn, OwnPairsHaveNoCut, OwnPartsStay};

use plan_laws::items_stay;
use step_laws::steps_rearrange;

/// If a step left a rule, and no part of the rule could be cut, none can be cut after the step.
pub fn no_cut_comes()
    ensures { NoCutComes }
{
    steps_rearrange();
    items_stay();
}

/// If a step left a rule that shared no selector with another rule, it shares none after the step.
/// The same holds of declarations.
pub fn own_parts_stay()
    ensures { OwnPartsStay }
{
    items_stay();
}

/// No part of the rule that a join makes can be cut, if no part of its two rules could.
pub fn joined_has_no_cut()
    ensures { JoinedHasNoCut }
{}

/// The rule that a join makes shares no selector with another rule, if its two rules shared none.
/// The same holds of declarations.
pub fn joined_has_own_parts()
    ensures { JoinedHasOwnParts }
{}

/// No part of a rule can be cut, if no other rule has one of its selectors together with one of its declarations, and each of
/// its parts is in it once. It has a selector and a declaration.
pub fn own_pairs_have_no_cut()
    ensures { OwnPairsHaveNoCut }
{}

/// If no other rule has a pair of the rules of a step, and each of their parts is in it once, the same holds of the rules that the
/// step makes. It stays so of a rule that the step leaves.
pub fn own_pairs_go_on()
    ensures { OwnPairsGoOn }
{
    items_stay();
}
