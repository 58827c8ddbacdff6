//! What barriers hinder, and barriers and lower barriers after a step.

ghost use Rattle.pending_laws.specs.Barred.{LowerBarredJoinsAreHindered, LowerBarredSharesAreHindered, LowerBarriersGoOn, PartsStay, BarredItemsGoOn, BarredJoinsAreHindered, BarredMovesAreHindered, BarriersGoOn};
ghost use Rattle.pending_laws.specs.BarredPriorities.{MovesAreBarred, BarredPrioritiesAreBlocked, BarredPrioritiesAreMoves};

use order_laws::unmoved_keep_their_order;
use plan_laws::{barriers_hinder, lower_barriers_hinder};
use step_laws::steps_rearrange;

/// A sheet in two parts is in two parts after an edit, too.
pub fn parts_stay()
    ensures { PartsStay }
{}

/// A barrier is a barrier after a step, too, if the step leaves its rule and moves neither of its two pairs.
pub fn barriers_go_on()
    ensures { BarriersGoOn }
{
    parts_stay();
    steps_rearrange();
    unmoved_keep_their_order();
}

/// A lower barrier is a lower barrier after a step, too, if the step leaves its rule and moves neither of its two pairs.
pub fn lower_barriers_go_on()
    ensures { LowerBarriersGoOn }
{
    parts_stay();
    steps_rearrange();
    unmoved_keep_their_order();
}

/// A barrier hinders each join of its rule up into one above the barrier.
/// It does so if the selectors of its two pairs are answered not to be apart.
pub fn barred_joins_are_hindered()
    ensures { BarredJoinsAreHindered }
{
    barriers_hinder();
}

/// A lower barrier whose rule lacks the other pair hinders each join of the rule down into one below the lower barrier.
/// It does so if the selectors of its two pairs are answered not to be apart.
pub fn lower_barred_joins_are_hindered()
    ensures { LowerBarredJoinsAreHindered }
{
    lower_barriers_hinder();
}

/// A lower barrier whose rule lacks the other pair hinders each share of the rule with one below the lower barrier.
/// It does so if the selectors of its two pairs are answered not to be apart, and the share moves the declaration of the moved pair.
pub fn lower_barred_shares_are_hindered()
    ensures { LowerBarredSharesAreHindered }
{}

/// An item with a barrier or a lower barrier at another item has it after a step, too.
/// The step must leave both items and move neither of the two pairs.
pub fn barred_items_go_on()
    ensures { BarredItemsGoOn }
{
    parts_stay();
    barriers_go_on();
    lower_barriers_go_on();
}

/// Each step is hindered that moves the declaration of the moved pair from such an item past the other one.
/// It is so if the selectors of the two pairs are answered not to be apart.
pub fn barred_moves_are_hindered()
    ensures { BarredMovesAreHindered }
{
    barred_joins_are_hindered();
    lower_barred_joins_are_hindered();
    lower_barred_shares_are_hindered();
}

/// The priorities of all steps that a barrier hinders may be on the watch list at once, if its selectors are answered not to be apart.
/// They are of items that were created. Each step that saves and has one of these priorities is hindered.
pub fn barred_priorities_are_blocked()
    ensures { BarredPrioritiesAreBlocked }
{
    barred_moves_are_hindered();
}

/// The priority of each step past the barrier is among them, if it saves at most a given number of bytes.
pub fn moves_are_barred()
    ensures { MovesAreBarred }
{}

/// Each step with one of these priorities moves pairs in the way of the barrier. Their item has the item id of the barrier's item.
pub fn barred_priorities_are_moves()
    ensures { BarredPrioritiesAreMoves }
{}
