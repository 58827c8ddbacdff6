//! What stays while other items of a sheet come and go.

ghost use Rattle.plan_laws.specs.Barrier.Staying.{
  HindrancesStay,
  KeptHindrancesStay,
  OtherRulesDoNotCount,
  OthersDoNotCount,
};

/// Whether a pair comes last before another one depends only on the items that have one of them.
pub fn others_do_not_count()
    ensures { OthersDoNotCount }
{}

/// Whether a pair comes last before a kept item depends only on the items that have the pair, and on the kept ones.
pub fn other_rules_do_not_count()
    ensures { OtherRulesDoNotCount }
{}

/// What is reversed by an edit is reversed by one of another sheet, where the items with the two pairs are the same
/// before both and after both, and both edits move the first pair or neither does.
pub fn hindrances_stay()
    ensures { HindrancesStay }
{}

/// A pair and a kept item that are reversed by an edit are so by one of another sheet, where the items with the pair
/// and the kept items are the same before both and after both, and both edits move the pair or neither does.
pub fn kept_hindrances_stay()
    ensures { KeptHindrancesStay }
{}
