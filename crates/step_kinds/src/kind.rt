//! A step by its kind and its two numbers.

ghost use Rattle.std.specs.Prelude.{◌≡◌, ◌∷◌, [], ℕ};
ghost use Rattle.step_kinds.specs.StepsByKind.{step_of_kind};
ghost use Rattle.step_laws.specs.Steps.{rank};

use step_laws::Step;

/// The kinds of steps, in the order of steps.
#[derive(Clone, Copy, Debug, PartialEq, Eq, PartialOrd, Ord, Drop)]
pub enum Kind {
    /// Cuts a declaration of a rule.
    DeclCut,
    /// Cuts a selector of a rule.
    SelCut,
    /// Joins two rules with the same selectors: the lower one moves up.
    SelJoinUp,
    /// Joins two rules with the same selectors: the upper one moves down.
    SelJoinDown,
    /// Joins two rules with the same declarations: the lower one moves up.
    DeclJoinUp,
    /// Joins two rules with the same declarations: the upper one moves down.
    DeclJoinDown,
    /// Makes a rule of common declarations of two rules.
    Sharing,
}

/// The number of a kind in their order, from 0.
pub fn kind_number(kind: Kind) -> u8
    ensures { (x y : ℕ) → rank (step_of_kind kind x y) ≡ result ∷ x ∷ y ∷ [] }
{
    match kind {
        Kind::DeclCut => 0,
        Kind::SelCut => 1,
        Kind::SelJoinUp => 2,
        Kind::SelJoinDown => 3,
        Kind::DeclJoinUp => 4,
        Kind::DeclJoinDown => 5,
        Kind::Sharing => 6,
    }
}

/// The kind of a step, and its two numbers: those of its items, the upper one first, or of its item and the part that it cuts.
pub fn kind_of(step: &Step) -> (Kind, u32, u32)
    ensures { step.now ≡ step_of_kind result.0 result.1 result.2 }
{
    match *step {
        Step::CutDecl { item, decl } => (Kind::DeclCut, item, decl),
        Step::CutSel { item, sel } => (Kind::SelCut, item, sel),
        Step::JoinSelUp { upper, lower } => (Kind::SelJoinUp, upper, lower),
        Step::JoinSelDown { upper, lower } => (Kind::SelJoinDown, upper, lower),
        Step::JoinDeclUp { upper, lower } => (Kind::DeclJoinUp, upper, lower),
        Step::JoinDeclDown { upper, lower } => (Kind::DeclJoinDown, upper, lower),
        Step::Share { upper, lower } => (Kind::Sharing, upper, lower),
    }
}

/// The step of a kind and these numbers: those of its items, the upper one first, or of its item and the part that it cuts.
pub fn step_of(kind: Kind, first: u32, second: u32) -> Step
    ensures { result ≡ step_of_kind kind first second }
{
    match kind {
        Kind::DeclCut => Step::CutDecl {
            item: first,
            decl: second,
        },
        Kind::SelCut => Step::CutSel {
            item: first,
            sel: second,
        },
        Kind::SelJoinUp => Step::JoinSelUp {
            upper: first,
            lower: second,
        },
        Kind::SelJoinDown => Step::JoinSelDown {
            upper: first,
            lower: second,
        },
        Kind::DeclJoinUp => Step::JoinDeclUp {
            upper: first,
            lower: second,
        },
        Kind::DeclJoinDown => Step::JoinDeclDown {
            upper: first,
            lower: second,
        },
        Kind::Sharing => Step::Share {
            upper: first,
            lower: second,
        },
    }
}
