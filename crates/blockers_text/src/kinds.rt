//! The names of the kinds of steps.

ghost use Rattle.std.specs.Prelude.{◌≡◌};
ghost use Rattle.report_text.specs.Report as spec;
ghost use Rattle.step_laws.specs.Steps as steps;

use step_laws::Step;

/// The name of a step's kind.
pub(crate) fn kind_name(step: &Step) -> &'static [u8]
    ensures { result.now ≡ spec.kind_name step.now }
{
    match step {
        Step::CutDecl { .. } => b"CutDecl",
        Step::CutSel { .. } => b"CutSel",
        Step::JoinSelUp { .. } => b"JoinSelUp",
        Step::JoinSelDown { .. } => b"JoinSelDown",
        Step::JoinDeclUp { .. } => b"JoinDeclUp",
        Step::JoinDeclDown { .. } => b"JoinDeclDown",
        Step::Share { .. } => b"Share",
    }
}

/// The number of a step's first item.
pub(crate) fn first_item(step: &Step) -> u32
    ensures { result ≡ steps.first_item step.now }
{
    match *step {
        Step::CutDecl { item, .. } | Step::CutSel { item, .. } => item,
        Step::JoinSelUp { upper, .. }
        | Step::JoinSelDown { upper, .. }
        | Step::JoinDeclUp { upper, .. }
        | Step::JoinDeclDown { upper, .. }
        | Step::Share { upper, .. } => upper,
    }
}
