//! What code keeps beside an indexed sheet.

ghost use Rattle.queue_laws.specs.Beside.{CoverFollowsJoins, CoverGoesOn, CoverIsOfEach, HomesGoOn, OthersStayCovered};

use plan_laws::items_stay;
use rule_tables::{order_keyed_rules_stand, rules_are_order_keyed};

/// Tables cover the rules of an indexed sheet if they cover each of them.
pub fn cover_is_of_each()
    ensures { CoverIsOfEach }
{
    order_keyed_rules_stand();
}

/// If tables cover the rules of an indexed sheet, later tables cover the rules of the indexed sheet after an edit.
/// The later tables must cover each rule that the edit leaves and the tables covered, and each rule that is created now.
pub fn cover_goes_on()
    ensures { CoverGoesOn }
{
    cover_is_of_each();
    rules_are_order_keyed();
    items_stay();
}

/// Each rule that a step leaves stays covered, if all rules do that have other order keys than the items of the step.
pub fn others_stay_covered()
    ensures { OthersStayCovered }
{}

/// If tables cover the rules of an indexed sheet, the tables after a join cover those of the indexed sheet after it.
/// The rule that moves must be put in under the order key of the one that it moves into. Then it must be taken out under its
/// own. All other items must keep their order keys.
pub fn cover_follows_joins()
    ensures { CoverFollowsJoins }
{
    cover_is_of_each();
    rules_are_order_keyed();
}

/// If the order key of each item is under its item id, it is so after an edit, too.
/// Order keys under earlier item ids must stay. The order keys of the items that are created now must be under their item ids.
pub fn homes_go_on()
    ensures { HomesGoOn }
{}
