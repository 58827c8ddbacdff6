//! What it means that `diff` says `same`, as functions that do nothing.

ghost use Rattle.told_laws.specs.Same.{SameTextMeansSame};

/// Between two sheets for which `diff` prints `same` nothing is found, if at least one couple may be told: they have the same
/// winners over normal values, as `same_members_win_alike` says.
pub fn same_text_means_same()
    ensures { SameTextMeansSame }
{}
