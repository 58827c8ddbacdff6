//! Which selectors of a sheet match nothing in any legal document, from bytes to bytes.

ghost use Rattle.std.specs.Prelude.{◌≡◌, IfErr, IfOk, Ok};
ghost use Rattle.std.specs.List.{AllByRecursion};
ghost use Rattle.css_model.specs.Sheets.Sheet.{sheet_of};
ghost use Rattle.dead_text.specs.DeadTexts as spec;
ghost use Rattle.dead_text.specs.Listing as listing;
ghost use Rattle.print_laws.specs.Profile.{HasSelectorsInProfile};
ghost use Rattle.sheet_read.specs.Reading.{Refuses};

use crate::listing::numbered_selectors;
use crate::telling::tell;
use css_model::Item;
use overlap::Pairs;
use print_laws::selectors_are_in_the_profile;
use sheet_laws::read_is_sound;
use sheet_read::{SheetError, read_sheet};
use std::alloc::{AllocError, Global};

/// The lines on the selectors of the style rules among the items of a sheet.
#[tactic(auto, using(crate::proofs::Profile::numbered_in_profile, crate::proofs::Asked::asks_none))]
fn tell_items(alloc: Global, pairs: &mut Pairs, items: &[Item]) -> Result<Vec<u8>, AllocError>
    requires { AllByRecursion HasSelectorsInProfile items.now }
    ensures asks { spec.AsksEach pairs.old pairs.new (listing.numbered_selectors items.now) }
    ensures tells { IfOk result (λ text. spec.TellsEach pairs.new (listing.numbered_selectors items.now) text.items) }
{
    let selectors = numbered_selectors(alloc, items)?;
    tell(alloc, pairs, &selectors)
}

/// Whether the selectors of a style sheet match anything in any legal document, as lines of bytes. There is a line for
/// each selector of each style rule, in order. It has the number of its item in the sheet, `.`, and its own number in
/// the rule, both from 1, and then:
///
/// - `dead` where it matches nothing;
/// - `alive` where it does, with the lines of a document in which it matches the marked element;
/// - `outside 12` where it asks an attribute for a word and refuses each white space that could separate it
///   (Selectors 3, sections 6.3.1 and 6.3.2): it was not decided;
/// - `spent` where the budget of the pairs was spent first.
///
/// Each line ends with a line feed. What is kept counts as an item, and has no line.
///
/// `source` is any list of bytes. The answers are asked of `pairs`, which holds them afterwards: each selector with `*`
/// and its pseudo-element. All that was held there stays, also after an error. `Fault` exactly where the sheet has one,
/// with its place in bytes from 0; then nothing is asked. `NoMemory` where memory is short.
#[tactic(auto, using(crate::proofs::Profile::read_in_profile, crate::proofs::Reading::asks_nothing, crate::proofs::Reading::asks_of_read, crate::proofs::Reading::tells_of_read))]
pub fn dead_lines(alloc: Global, pairs: &mut Pairs, source: &[u8]) -> Result<Vec<u8>, SheetError>
    ensures asks { spec.AsksOf (sheet_of source.now) pairs.old pairs.new }
    ensures tells { IfOk result (λ text. spec.TellsOf pairs.new source.now text.items) }
    ensures err { IfErr result (λ e. Refuses e (sheet_of source.now)) }
{
    // Laws that the contract needs; they do nothing.
    read_is_sound();
    selectors_are_in_the_profile();
    let sheet = read_sheet(alloc, source)?;
    Ok(tell_items(alloc, pairs, &sheet.items)?)
}
