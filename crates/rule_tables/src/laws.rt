//! What is known of steps by rules with order keys, as functions that do nothing.

ghost use Rattle.rule_tables.specs.Cutting.{DeclCutsAreTold, SelectorCutsAreTold};
ghost use Rattle.rule_tables.specs.StepPartners.{OrderKeyedRulesStand, RulesAreOrderKeyed, StepsHavePartners};

/// The rules of a step of two rules can be partners, each of the other one, where the upper one has a selector and a
/// declaration.
pub fn steps_have_partners()
    ensures { StepsHavePartners }
{}

/// A rule among items is one of the rules with order keys, with the order key of its item.
pub fn rules_are_order_keyed()
    ensures { RulesAreOrderKeyed }
{}

/// Each rule with its order key is among the items, where its order key is.
pub fn order_keyed_rules_stand()
    ensures { OrderKeyedRulesStand }
{}

/// A declaration of a rule can be cut exactly where the rule can lose it: it is in the rule again, or each of its pairs is
/// in a rule with another order key. Each item has an order key of its own.
pub fn decl_cuts_are_told()
    ensures { DeclCutsAreTold }
{}

/// A selector of a rule can be cut exactly where the rule can lose it: it is in the rule again, or each of its pairs is in a
/// rule with another order key. Each item has an order key of its own.
pub fn selector_cuts_are_told()
    ensures { SelectorCutsAreTold }
{}
