//! The selectors of a rule (Selectors 3, section 5).

ghost use Rattle.std.specs.Prelude.{◌≡◌, ◌≤◌, ◌++◌, ◌∷◌, [], if◌then◌else◌, length, OnOk};
ghost use Rattle.css_model.specs.Sheets.Limits.{max_bytes};
ghost use Rattle.css_model.specs.Sheets.Selectors as spec;
ghost use Rattle.sel_parse.specs.Answers.{Answers};
ghost use Rattle.sheet_read.specs.Cut as cut;
ghost use Rattle.sheet_read.specs.Cut.{GivesFirst};
ghost use Rattle.sheet_read.specs.Placed.{ArePlaced};

use crate::signs::{cut, piece_of, prelude};
use css_model::{Lexeme, SelItem};
use sel_parse::{SelError, read_selector};
use std::alloc::{AllocError, Global};

/// A part of a prelude as a selector. It takes no room that it does not use, since a sheet may have many.
fn selector_item(alloc: Global, source: &[u8], part: &[Lexeme]) -> Result<SelItem, SelError>
    requires placed { ArePlaced source.now part.now }
    requires short { length source.now ≤ max_bytes }
    ensures { Answers result (spec.selector_item source.now part.now) }
{
    match read_selector(alloc, source, part) {
        Ok(mut selector) => {
            selector.chain.shrink_to_fit();
            selector.links.shrink_to_fit();
            Ok(SelItem {
                selector,
                piece: piece_of(part),
            })
        }
        Err(error) => Err(error),
    }
}

/// Whether so many selectors of a rule with so many declarations leave room for the pairs of another one.
fn has_room(decls: usize, room: u64, selectors: usize) -> bool
    ensures { result ≡ cut.has_room decls room selectors }
{
    decls > 0 && (selectors as u128) * (decls as u128) <= u128::from(room)
}

/// Puts a selector after others, where there is room for it.
fn push_where_room(
    selectors: &mut Vec<SelItem>,
    selector: SelItem,
    decls: usize,
    room: u64,
) -> Result<(), AllocError>
    ensures { OnOk result (selectors.new.items ≡ (if cut.has_room decls room (length selectors.old.items)
        then selectors.old.items ++ selector ∷ [] else selectors.old.items)) }
{
    if has_room(decls, room, selectors.len()) {
        selectors.push(selector)?;
    }
    Ok(())
}

/// The selectors of a rule with so many declarations; or its first ones, where there is no room for the pairs of more.
/// `Outside` exactly where one of them is outside the profile, for the reason against the first such one.
pub(crate) fn first_selectors(
    alloc: Global,
    source: &[u8],
    item: &[Lexeme],
    decls: usize,
    room: u64,
) -> Result<Vec<SelItem>, SelError>
    requires placed { ArePlaced source.now item.now }
    requires short { length source.now ≤ max_bytes }
    ensures { GivesFirst (λ read. read.items) decls room result (spec.selectors source.now item.now) }
{
    let mut selectors = Vec::new(alloc);
    let mut rest = Some(prelude(item));
    while let Some(parts) = rest {
        let (part, behind) = cut(b',', 0, parts);
        let selector = selector_item(alloc, source, part)?;
        if push_where_room(&mut selectors, selector, decls, room).is_err() {
            return Err(SelError::NoMemory);
        }
        rest = behind;
    }
    Ok(selectors)
}
