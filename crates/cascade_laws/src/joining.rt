//! What keeps every winner, as functions that do nothing.

ghost use Rattle.cascade_laws.specs.Joining.{OrderDecidesWinner, AlikeWinsAlike, AlikeBehindAnItem, JoiningAppliesAlike, JoiningKeepsWinners, JoiningASetKeepsWinners, PiecesDoNotCount};

/// Equal declarations with equal specificities, applied in the same order at whatever places, have
/// the same winner.
pub fn order_decides_winner()
    ensures { OrderDecidesWinner }
{}

/// Lists of items that apply alike win alike.
pub fn alike_wins_alike()
    ensures { AlikeWinsAlike }
{}

/// Lists of items that apply alike still do so after one more item.
pub fn alike_behind_an_item()
    ensures { AlikeBehindAnItem }
{}

/// Two neighbouring rules with equal selectors apply the same when they are joined.
pub fn joining_applies_alike()
    ensures { JoiningAppliesAlike }
{}

/// To join two neighbouring rules with equal selectors keeps every winner.
pub fn joining_keeps_winners()
    ensures { JoiningKeepsWinners }
{}

/// To join two neighbouring rules with the same set of selectors keeps every winner.
pub fn joining_a_set_keeps_winners()
    ensures { JoiningASetKeepsWinners }
{}

/// The same rules and kept items, read from other places of other sources, apply the same.
pub fn pieces_do_not_count()
    ensures { PiecesDoNotCount }
{}
