//! The lines of what is found in a rule.

ghost use Rattle.std.specs.Prelude.{◌≡◌, ◌+◌, ◌≤◌, ◌++◌, length, OnOk};
ghost use Rattle.css_model.specs.Sheets.Limits.{max_bytes};
ghost use Rattle.css_model.specs.Sheets.Sound.{IsSoundDeclaration, IsSoundSelector};
ghost use Rattle.dead_sel.specs.Held.{is_dead as dead_by};
ghost use Rattle.line_places.specs.Lines.{place_of, place_text};
ghost use Rattle.lint_text.specs.Findings as spec;

use crate::finding::Finding;
use crate::level::Level;
use crate::repeating::{is_repeated, last_start};
use css_model::{DeclItem, SelItem};
use css_print::{print_decl, print_selector};
use dead_sel::is_dead;
use line_places::{put_place, put_shown};
use overlap::Pairs;
use std::alloc::{AllocError, Global};

/// Where a place of a level is in the sheet.
fn outer_place(level: &Level<'_, '_>, at: u32) -> usize
    ensures { result ≡ level.now.start + at }
{
    level.start as usize + at as usize
}

/// Appends a place of a level, by its line and column in the sheet.
fn push_place(out: &mut Vec<u8>, level: &Level<'_, '_>, at: u32) -> Result<(), AllocError>
    ensures { OnOk result (out.new.items ≡ out.old.items ++ place_text (place_of level.now.text (level.now.start + at))) }
{
    put_place(out, level.lines.place(outer_place(level, at)))
}

/// Appends the line of a selector that matches nothing, without its end.
fn push_dead_line(
    out: &mut Vec<u8>,
    alloc: Global,
    level: &Level<'_, '_>,
    s: &SelItem,
) -> Result<(), AllocError>
    requires short { length level.now.source ≤ max_bytes }
    requires sound { IsSoundSelector level.now.source s.now }
    ensures { OnOk result (out.new.items ≡ out.old.items ++ spec.dead_line level.now s.now) }
{
    let text = print_selector(alloc, s, level.source)?;
    push_place(out, level, s.piece.start)?;
    out.extend_from_slice(b" dead ")?;
    put_shown(out, &text)
}

/// Puts a selector after what was found, if it matches nothing by what is held.
pub(crate) fn push_dead(
    found: &mut Vec<Finding>,
    alloc: Global,
    pairs: &Pairs,
    level: &Level<'_, '_>,
    s: &SelItem,
) -> Result<(), AllocError>
    requires short { length level.now.source ≤ max_bytes }
    requires sound { IsSoundSelector level.now.source s.now }
    ensures { OnOk result (found.new.items ≡ found.old.items ++ spec.dead_of (dead_by pairs.now.answers) level.now s.now) }
{
    if is_dead(alloc, pairs, &s.selector)? {
        let mut line = Vec::new(alloc);
        push_dead_line(&mut line, alloc, level, s)?;
        let at = outer_place(level, s.piece.start);
        found.push(Finding { at, line })?;
    }
    Ok(())
}

/// Appends the front of the line of a repeated declaration: where it begins, and its text.
fn push_repeated_front(
    out: &mut Vec<u8>,
    alloc: Global,
    level: &Level<'_, '_>,
    d: &DeclItem,
) -> Result<(), AllocError>
    requires { IsSoundDeclaration level.now.source d.now }
    ensures { OnOk result (out.new.items ≡ out.old.items ++ spec.repeated_front level.now d.now) }
{
    let text = print_decl(alloc, d, level.source)?;
    push_place(out, level, d.name.start)?;
    out.extend_from_slice(b" repeated ")?;
    put_shown(out, &text)
}

/// Appends the line of a repeated declaration of a rule with these selectors, without its end.
fn push_repeated_line<'a>(
    out: &mut Vec<u8>,
    alloc: Global,
    level: &Level<'a, '_>,
    selectors: &'a [SelItem],
    d: &'a DeclItem,
) -> Result<(), AllocError>
    requires { IsSoundDeclaration level.now.source d.now }
    ensures { OnOk result (out.new.items ≡ out.old.items ++ spec.repeated_line level.now selectors.now d.now) }
{
    push_repeated_front(out, alloc, level, d)?;
    out.extend_from_slice(b" ")?;
    push_place(out, level, last_start(level, selectors, &d.decl))
}

/// Puts a declaration after what was found, if it is repeated. It has this number in the rule of this number, which has
/// these selectors.
pub(crate) fn push_repeated<'a>(
    found: &mut Vec<Finding>,
    alloc: Global,
    level: &Level<'a, '_>,
    item: usize,
    selectors: &'a [SelItem],
    number: usize,
    d: &'a DeclItem,
) -> Result<(), AllocError>
    requires { IsSoundDeclaration level.now.source d.now }
    ensures { OnOk result (found.new.items ≡ found.old.items ++ spec.repeated_of level.now item selectors.now (number, d.now)) }
{
    if is_repeated(level.lasts, item, selectors, number, &d.decl) {
        let mut line = Vec::new(alloc);
        push_repeated_line(&mut line, alloc, level, selectors, d)?;
        let at = outer_place(level, d.name.start);
        found.push(Finding { at, line })?;
    }
    Ok(())
}
