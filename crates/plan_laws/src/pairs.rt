//! The pairs of a sheet that steps leave.

ghost use Rattle.plan_laws.specs.Limit.PairLimit.{PlannedComesFrom, RepeatsAreCut, StepsKeepPairsFew};

/// No step gives a sheet more pairs, where a selector that a rule repeats counts once.
pub fn steps_keep_pairs_few()
    ensures { StepsKeepPairsFew }
{}

/// A sound sheet in which every step that saves something is blocked repeats no selector within a rule.
pub fn repeats_are_cut()
    ensures { RepeatsAreCut }
{}

/// A sheet comes from the one that is read, and keeps the limit of pairs too, where steps lead to it and every step of
/// it that saves something is blocked.
pub fn planned_comes_from()
    ensures { PlannedComesFrom }
{}
