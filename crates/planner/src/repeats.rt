//! Cuts of parts that their rule has again, which nothing blocks.

ghost use Rattle.std.specs.Prelude.{◌≡◌, true};
ghost use Rattle.repeat_laws.specs.Repeats.{CutsRepeat, IsDeclAgain, IsSelAgain};

use css_model::{DeclItem, Item, SelItem};
use rule_parts::{has_decl, has_selector};
use step_laws::Step;

/// Returns `true` only if the declaration of a number is again among those after it.
fn is_decl_again(decls: &[DeclItem], number: u32) -> bool
    ensures { result ≡ true → IsDeclAgain decls.now number }
{
    let number = number as usize;
    if number > decls.len() {
        return false;
    }
    let (_, rest) = decls.split_at(number);
    match rest.split_first() {
        Some((one, later)) => has_decl(later, &one.decl),
        None => false,
    }
}

/// Returns `true` only if the selector of a number is in the list again, after it or before it.
fn is_sel_again(selectors: &[SelItem], number: u32) -> bool
    ensures { result ≡ true → IsSelAgain selectors.now number }
{
    let number = number as usize;
    if number > selectors.len() {
        return false;
    }
    let (before, rest) = selectors.split_at(number);
    match rest.split_first() {
        Some((one, later)) => {
            if has_selector(later, &one.selector) {
                return true;
            }
            has_selector(before, &one.selector)
        }
        None => false,
    }
}

/// Returns `true` only if a step cuts a part that its rule has again: of equal declarations one that is not the last, of
/// equal selectors any one.
pub(crate) fn is_repeat_cut(items: &[Item], step: &Step) -> bool
    ensures { result ≡ true → CutsRepeat items.now step.now }
{
    match *step {
        Step::CutDecl { item, decl } => match items.get(item as usize) {
            Some(Item::Rule(rule)) => is_decl_again(rule.decls.as_slice(), decl),
            _ => false,
        },
        Step::CutSel { item, sel } => match items.get(item as usize) {
            Some(Item::Rule(rule)) => is_sel_again(rule.selectors.as_slice(), sel),
            _ => false,
        },
        _ => false,
    }
}
