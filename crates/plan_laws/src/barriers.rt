//! What hinders a rule from moving.

ghost use Rattle.plan_laws.specs.Barrier.Barriers.{
  LowerBarriersHinder,
  KeptBarriersHinder,
  BarriersHinder,
  BarriersStay,
};

/// A pair of a rule hinders the rule from moving up past a place of the sheet, where it would come before another pair
/// that it weighs with, after that place. The two are reversed in each join of the rule with one above that place.
pub fn barriers_hinder()
    ensures { BarriersHinder }
{}

/// The first kept item after a place of the sheet hinders a rule from moving up in the same way as a pair.
pub fn kept_barriers_hinder()
    ensures { KeptBarriersHinder }
{}

/// A barrier stays one, at the number that its rule then has, where no item with one of its two pairs comes or goes.
pub fn barriers_stay()
    ensures { BarriersStay }
{}

/// A pair of a rule hinders the rule from moving down past a place of the sheet, where it would come after another pair
/// that it weighs with, before that place and not after it. The two are reversed in each join of the rule with one
/// below that place.
pub fn lower_barriers_hinder()
    ensures { LowerBarriersHinder }
{}
