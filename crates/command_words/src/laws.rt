//! What follows from the definition of the forms, as functions that do nothing.

ghost use Rattle.command_words.specs.Laws.{CmpComparesTwoWords, MinIsOneWord, MostBudgetIsDefined, MostLimitIsDefined, MostRulesIsDefined, SomeMayBeTold, UsualLimitIsDefined};

/// Exactly the one word `min` minifies with no budget and no work named, and no report asked for.
#[tactic(auto, using(crate::proofs::FormLaws::min_is_one_word))]
pub fn min_is_one_word()
    ensures { MinIsOneWord }
{}

/// `cmp` and two words that do not begin with `-` compare them.
#[tactic(auto, using(crate::proofs::FormLaws::cmp_compares))]
pub fn cmp_compares_two_words()
    ensures { CmpComparesTwoWords }
{}

/// The words of `diff` let it tell at least one couple of pairs in another order.
pub fn some_may_be_told()
    ensures { SomeMayBeTold }
{}

/// The greatest budget is that of the definition.
pub fn most_budget_is_defined()
    ensures { MostBudgetIsDefined }
{}

/// The greatest number of rules is that of the definition.
pub fn most_rules_is_defined()
    ensures { MostRulesIsDefined }
{}

/// The greatest limit of told couples is that of the definition.
pub fn most_limit_is_defined()
    ensures { MostLimitIsDefined }
{}

/// The limit of told couples that words need not name is that of the definition.
pub fn usual_limit_is_defined()
    ensures { UsualLimitIsDefined }
{}
