//! Where the pairs of a sheet are.

ghost use Rattle.order_laws.specs.Places.{ListedStandsLast};

/// The list of last places has exactly the pairs that are last in the items that count.
pub fn listed_stands_last()
    ensures { ListedStandsLast }
{}
