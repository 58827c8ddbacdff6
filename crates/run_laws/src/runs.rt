//! Runs of cuts, as a function that does nothing.

ghost use Rattle.run_laws.specs.Runs.{RunsLead};

/// In a sheet with one rule, in which no equal part weighs more than an earlier one, the cuts of a run are the next steps, one after
/// the other, by all answers.
pub fn runs_lead()
    ensures { RunsLead }
{}
