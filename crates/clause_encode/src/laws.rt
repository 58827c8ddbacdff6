//! What selectors that keep to the limits, and their tables of fits, are good for.

ghost use Rattle.clause_encode.specs.Laws.{LimitsAllowPlans, TablesAreReady};

/// The table of two selectors that keep to the limits decides of each node that their combinators allow whether an
/// element can pass what it asks.
pub fn tables_are_ready()
    ensures { TablesAreReady }
{}

/// Two selectors that keep to the limits can be planned: their positions are in range, and each has few of them with a
/// step of 2 or more in size.
pub fn limits_allow_plans()
    ensures { LimitsAllowPlans }
{}
