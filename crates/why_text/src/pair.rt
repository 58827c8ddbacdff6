//! A pair of a sheet by its place, and its text.

ghost use Rattle.std.specs.Prelude.{◌≡◌, ◌≤◌, IfOk, length};
ghost use Rattle.css_model.specs.Sheets.Limits.{max_bytes};
ghost use Rattle.css_model.specs.Sheets.Printed.{printed_rule};
ghost use Rattle.css_model.specs.Sheets.Sound.{IsSound, IsSoundDeclaration, IsSoundSelector};
ghost use Rattle.why_text.specs.PairTexts.{IsPairText, IsPlace, StandAt, rule_of};

use css_model::{DeclItem, Item, SelItem, Sheet};
use css_print::{print_decl, print_selector};
use sheet_order::PairPlace;
use std::alloc::{AllocError, Global};

/// The selector and the declaration of a pair.
pub(crate) fn pair_at<'a>(sheet: &'a Sheet, place: PairPlace) -> (&'a SelItem, &'a DeclItem)
    requires { IsPlace sheet.now.items place }
    ensures { StandAt sheet.now.items place result.0.now result.1.now }
{
    match &sheet.items[place.item as usize] {
        Item::Rule(rule) => {
            let selector = &rule.selectors[place.sel as usize];
            let decl = &rule.decls[place.decl as usize];
            (selector, decl)
        }
        _ => unreachable!(),
    }
}

/// The text of a rule of one selector and one declaration.
fn print_rule(
    alloc: Global,
    source: &[u8],
    selector: &SelItem,
    decl: &DeclItem,
) -> Result<Vec<u8>, AllocError>
    requires length { length source.now ≤ max_bytes }
    requires selector { IsSoundSelector source.now selector.now }
    requires decl { IsSoundDeclaration source.now decl.now }
    ensures { IfOk result (λ text. text.items ≡ printed_rule source.now (rule_of selector.now decl.now)) }
{
    let mut text = print_selector(alloc, selector, source)?;
    text.push(b'{')?;
    let declaration = print_decl(alloc, decl, source)?;
    text.extend_from_slice(declaration.as_slice())?;
    text.push(b'}')?;
    Ok(text)
}

/// The text of the pair at this place of a sheet that is sound for `source`, as a rule, such as `.a{left:0}`.
/// `AllocError` where memory runs out.
pub fn print_pair(
    alloc: Global,
    source: &[u8],
    sheet: &Sheet,
    place: PairPlace,
) -> Result<Vec<u8>, AllocError>
    requires length { length source.now ≤ max_bytes }
    requires sound { IsSound source.now sheet.now.items }
    requires place { IsPlace sheet.now.items place }
    ensures { IfOk result (λ text. IsPairText source.now sheet.now.items place text.items) }
{
    let (selector, decl) = pair_at(sheet, place);
    print_rule(alloc, source, selector, decl)
}
