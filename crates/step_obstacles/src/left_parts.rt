//! What a step leaves in the places of its items, by references to the parts of their rules.

ghost use Rattle.std.specs.Prelude.{◌≡◌, ◌++◌, ◌<◌, ◌∷◌, [], length};
ghost use Rattle.std.specs.List.{remove};
ghost use Rattle.css_model.specs.declared.sheet.Item.TheVariants as item;
ghost use Rattle.order_laws.specs.Edits.{Edit};
ghost use Rattle.step_laws.specs.RuleParting as parting;
ghost use Rattle.step_laws.specs.StepEdits as edits;
ghost use Rattle.step_laws.specs.Steps.{HasStep, IsStep, edit_of};
ghost use Rattle.step_savings.specs.CutParts.{HasPart};
ghost use Rattle.plan_laws.specs.Window.StepWindows as windows;
ghost use Rattle.window_order.specs.Left as left;

use css_model::{DeclItem, Item, Rule, SelItem};
use step_laws::Step;
use step_savings::{items_of, rule_at};
use window_order::{Left, LeftDecls, LeftRule, LeftSelectors};

/// Nothing.
fn nothing<'a>() -> Left<'a>
    ensures { left.items_of result ≡ [] }
{
    Left {
        made: None,
        rest: None,
    }
}

/// The selectors without the one of this number.
#[tactic(auto, using(crate::proofs::LeftParts::parts_removed))]
fn other_selectors(items: &[SelItem], number: u32) -> LeftSelectors<'_>
    requires { number < length items.now }
    ensures { left.selectors_of result ≡ remove items.now number }
{
    let number = number as usize;
    LeftSelectors::Both(&items[..number], &items[number + 1..])
}

/// The declarations without the one of this number.
#[tactic(auto, using(crate::proofs::LeftParts::parts_removed))]
fn other_decls(items: &[DeclItem], number: u32) -> LeftDecls<'_>
    requires { number < length items.now }
    ensures { left.decls_of result ≡ remove items.now number }
{
    let number = number as usize;
    LeftDecls::Both(&items[..number], &items[number + 1..])
}

/// What is left of a rule without the declaration of this number.
fn without_decl(rule: &Rule, number: u32) -> Left<'_>
    requires { number < length rule.now.decls }
    ensures { left.items_of result ≡ parting.rule_or_none (record { selectors = rule.now.selectors; decls = remove rule.now.decls number }) }
{
    let rest = LeftRule {
        selectors: LeftSelectors::All(&rule.selectors),
        decls: other_decls(&rule.decls, number),
    };
    Left {
        made: None,
        rest: Some(rest),
    }
}

/// What is left of a rule without the selector of this number.
fn without_selector(rule: &Rule, number: u32) -> Left<'_>
    requires { number < length rule.now.selectors }
    ensures { left.items_of result ≡ parting.rule_or_none (record { selectors = remove rule.now.selectors number; decls = rule.now.decls }) }
{
    let rest = LeftRule {
        selectors: other_selectors(&rule.selectors, number),
        decls: LeftDecls::All(&rule.decls),
    };
    Left {
        made: None,
        rest: Some(rest),
    }
}

/// A rule with the selectors of one rule, and the declarations of two.
fn joined_by_selectors<'a>(rule: &'a Rule, upper: &'a Rule, lower: &'a Rule) -> Left<'a>
    ensures { left.items_of result ≡ item.Rule (record { selectors = rule.now.selectors; decls = upper.now.decls ++ lower.now.decls }) ∷ [] }
{
    let made = LeftRule {
        selectors: LeftSelectors::All(&rule.selectors),
        decls: LeftDecls::Both(&upper.decls, &lower.decls),
    };
    Left {
        made: Some(made),
        rest: None,
    }
}

/// A rule with the selectors of two rules, and the declarations of one.
fn joined_by_decls<'a>(rule: &'a Rule, upper: &'a Rule, lower: &'a Rule) -> Left<'a>
    ensures { left.items_of result ≡ item.Rule (record { selectors = parting.both_selectors upper.now lower.now; decls = rule.now.decls }) ∷ [] }
{
    let made = LeftRule {
        selectors: LeftSelectors::Joined(&upper.selectors, &lower.selectors),
        decls: LeftDecls::All(&rule.decls),
    };
    Left {
        made: Some(made),
        rest: None,
    }
}

/// The common declarations of two rules, with the selectors of both.
fn shared<'a>(upper: &'a Rule, lower: &'a Rule) -> LeftRule<'a>
    ensures { left.rule_of result ≡ edits.shared upper.now lower.now }
{
    LeftRule {
        selectors: LeftSelectors::Joined(&upper.selectors, &lower.selectors),
        decls: LeftDecls::Common(&lower.decls, &upper.decls),
    }
}

/// A rule without the declarations that are in another one.
fn without_others<'a>(rule: &'a Rule, other: &'a Rule) -> LeftRule<'a>
    ensures { left.rule_of result ≡ parting.without_decls other.now.decls rule.now }
{
    LeftRule {
        selectors: LeftSelectors::All(&rule.selectors),
        decls: LeftDecls::Others(&rule.decls, &other.decls),
    }
}

/// What a share leaves of the upper rule.
fn above_share<'a>(upper: &'a Rule, lower: &'a Rule) -> Left<'a>
    ensures { left.items_of result ≡ parting.rule_or_none (parting.without_decls (parting.common_decls upper.now lower.now) upper.now) }
{
    Left {
        made: None,
        rest: Some(without_others(upper, lower)),
    }
}

/// The rule that a share makes, and what it leaves of the lower one.
fn below_share<'a>(upper: &'a Rule, lower: &'a Rule) -> Left<'a>
    ensures { left.items_of result ≡ item.Rule (edits.shared upper.now lower.now) ∷ parting.rule_or_none (parting.without_decls (parting.common_decls upper.now lower.now) lower.now) }
{
    Left {
        made: Some(shared(upper, lower)),
        rest: Some(without_others(lower, upper)),
    }
}

/// What takes the place of the first item of two after a step of these rules; nothing for a cut.
fn first_left<'a>(step: &Step, upper: &'a Rule, lower: &'a Rule) -> Left<'a>
    ensures { left.items_of result ≡ windows.first_left (edit_of step.now upper.now lower.now).changes }
{
    match *step {
        Step::CutDecl { .. } => nothing(),
        Step::CutSel { .. } => nothing(),
        Step::JoinSelUp { .. } => joined_by_selectors(upper, upper, lower),
        Step::JoinSelDown { .. } => nothing(),
        Step::JoinDeclUp { .. } => joined_by_decls(upper, upper, lower),
        Step::JoinDeclDown { .. } => nothing(),
        Step::Share { .. } => above_share(upper, lower),
    }
}

/// What takes the place of the last item after a step of these rules.
fn last_left<'a>(step: &Step, upper: &'a Rule, lower: &'a Rule) -> Left<'a>
    requires { HasPart step.now upper.now }
    ensures { left.items_of result ≡ windows.last_left (edit_of step.now upper.now lower.now).changes }
{
    match *step {
        Step::CutDecl { decl, .. } => without_decl(upper, decl),
        Step::CutSel { sel, .. } => without_selector(upper, sel),
        Step::JoinSelUp { .. } => nothing(),
        Step::JoinSelDown { .. } => joined_by_selectors(lower, upper, lower),
        Step::JoinDeclUp { .. } => nothing(),
        Step::JoinDeclDown { .. } => joined_by_decls(lower, upper, lower),
        Step::Share { .. } => below_share(upper, lower),
    }
}

/// What a step of a sheet leaves in the places of its first and of its last item.
#[tactic(auto, using(step_savings::proofs::ForCallers::first_rule, step_savings::proofs::ForCallers::last_rule, step_savings::proofs::ForCallers::has_part))]
pub(crate) fn left_by<'a>(items: &'a [Item], step: &Step) -> (Left<'a>, Left<'a>)
    requires { HasStep items.now step.now }
    ensures first { (e : Edit) → IsStep items.now step.now e → left.items_of result.0 ≡ windows.first_left e.changes }
    ensures last { (e : Edit) → IsStep items.now step.now e → left.items_of result.1 ≡ windows.last_left e.changes }
{
    let (first, last) = items_of(step);
    let upper = rule_at(items, first);
    let lower = rule_at(items, last);
    (
        first_left(step, upper, lower),
        last_left(step, upper, lower),
    )
}
