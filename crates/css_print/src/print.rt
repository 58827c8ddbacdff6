//! The printed text of a style sheet and of its parts.

ghost use Rattle.std.specs.Prelude.{◌≡◌, ◌≤◌, ◌==◌, ◌^◌, ◌-◌, [], if◌then◌else◌, length, map, min, IfOk, OnOk};
ghost use Rattle.std.specs.List.{AllByRecursion, flat_map, join_with_byte};
ghost use Rattle.css_model.specs.Sheets.Limits.{max_bytes};
ghost use Rattle.css_model.specs.Sheets.Printed.{printed_selector, printed_declaration, printed_rule, printed_item, printed, behind_mark};
ghost use Rattle.css_model.specs.Sheets.Printed as spec;
ghost use Rattle.css_model.specs.Sheets.Sound.{IsSoundSelector, IsSoundDeclaration, IsSoundRule, IsSoundItem, IsSound};
ghost use Rattle.css_model.specs.Sheets.Spelling.{kept_text};
ghost use Rattle.css_print.specs.Fronts.{tally_of};
ghost use Rattle.css_print.specs.Places.{BeginsAt};
ghost use Rattle.css_print.specs.Walking.{solid_of};
ghost use Rattle.css_print.specs.Words.{behind_kept};

use crate::output::Output;
use crate::selector::put_selector;
use crate::tally::Tally;
use crate::walk::{Walk, Word};
use css_model::{DeclItem, Item, Piece, Rule, SelItem, Sheet, TokenKind};
use css_tokens::tokens_restart;
use std::alloc::{AllocError, Global};
use verbatim_text::{behind_last, between};

/// U+FEFF in UTF-8.
const BYTE_ORDER_MARK: &[u8] = b"\xEF\xBB\xBF";

/// What is printed after a token that is kept, before another or as the last.
fn behind(word: Word<'_>, next: Option<TokenKind>) -> &'static [u8]
    ensures { result.now ≡ behind_kept (solid_of word.entry) next }
{
    match next {
        None => behind_last(word.kind),
        Some(_) => between(word.kind, word.text, word.gap),
    }
}

/// Writes the kept text of a piece.
fn put_kept<O: Output>(out: &mut O, piece: Piece, source: &[u8]) -> Result<(), O::Error>
    requires length { length source.now ≤ max_bytes }
    requires begins { BeginsAt source.now piece.start }
    ensures { OnOk result (O.more out.old (kept_text source.now piece) out.new) }
{
    tokens_restart();
    let mut walk = Walk::new(source, piece);
    'words: while let Some(word) = walk.next() {
        out.put(word.text)?;
        out.put(behind(word, walk.next_kind()))?;
    }
    Ok(())
}

/// What is printed after a value.
fn importance(important: bool) -> &'static [u8]
    ensures { result.now ≡ spec.importance important }
{
    if important { b"!important" } else { b"" }
}

fn put_declaration<O: Output>(out: &mut O, item: &DeclItem, source: &[u8]) -> Result<(), O::Error>
    requires { IsSoundDeclaration source.now item.now }
    ensures { OnOk result (O.more out.old (printed_declaration source.now item.now) out.new) }
{
    tokens_restart();
    out.put(item.name.text(source))?;
    out.put(b":")?;
    out.put(item.decl.value.bytes())?;
    out.put(importance(item.decl.important))
}

/// Writes the sign before each part but the first.
fn put_separator<O: Output>(out: &mut O, part: usize, sign: &[u8]) -> Result<(), O::Error>
    ensures { OnOk result (O.more out.old (if part == 0 then [] else sign.now) out.new) }
{
    out.put(if part > 0 { sign } else { b"" })
}

fn put_selectors<O: Output>(out: &mut O, items: &[SelItem], source: &[u8]) -> Result<(), O::Error>
    requires length { length source.now ≤ max_bytes }
    requires sound { AllByRecursion (IsSoundSelector source.now) items.now }
    ensures { OnOk result (O.more out.old (join_with_byte 44 (map (printed_selector source.now) items.now)) out.new) }
{
    for (i, item) in items.iter().enumerate() {
        put_separator(out, i, b",")?;
        put_selector(out, item, source)?;
    }
    Ok(())
}

fn put_declarations<O: Output>(
    out: &mut O,
    items: &[DeclItem],
    source: &[u8],
) -> Result<(), O::Error>
    requires { AllByRecursion (IsSoundDeclaration source.now) items.now }
    ensures { OnOk result (O.more out.old (join_with_byte 59 (map (printed_declaration source.now) items.now)) out.new) }
{
    for (i, item) in items.iter().enumerate() {
        put_separator(out, i, b";")?;
        put_declaration(out, item, source)?;
    }
    Ok(())
}

fn put_rule<O: Output>(out: &mut O, rule: &Rule, source: &[u8]) -> Result<(), O::Error>
    requires length { length source.now ≤ max_bytes }
    requires sound { IsSoundRule source.now rule.now }
    ensures { OnOk result (O.more out.old (printed_rule source.now rule.now) out.new) }
{
    put_selectors(out, rule.selectors.as_slice(), source)?;
    out.put(b"{")?;
    put_declarations(out, rule.decls.as_slice(), source)?;
    out.put(b"}")?;
    Ok(())
}

fn put_item<O: Output>(out: &mut O, item: &Item, source: &[u8]) -> Result<(), O::Error>
    requires length { length source.now ≤ max_bytes }
    requires sound { IsSoundItem source.now item.now }
    ensures { OnOk result (O.more out.old (printed_item source.now item.now) out.new) }
{
    match item {
        Item::Rule(rule) => put_rule(out, rule, source),
        Item::KeptRule(rule) => put_kept(out, rule.piece, source),
        Item::KeptBlock(piece) => put_kept(out, *piece, source),
    }
}

fn put_items<O: Output>(out: &mut O, items: &[Item], source: &[u8]) -> Result<(), O::Error>
    requires length { length source.now ≤ max_bytes }
    requires sound { IsSound source.now items.now }
    ensures { OnOk result (O.more out.old (flat_map (printed_item source.now) items.now) out.new) }
{
    for item in items.iter() {
        put_item(out, item, source)?;
    }
    Ok(())
}

/// The tally of the items' texts, with nothing between them.
fn tally(items: &[Item], source: &[u8]) -> Tally
    requires length { length source.now ≤ max_bytes }
    requires sound { IsSound source.now items.now }
    ensures { result ≡ tally_of (flat_map (printed_item source.now) items.now) }
{
    let mut tally = Tally::new();
    match put_items(&mut tally, items, source) {
        Ok(()) => tally,
        Err(never) => match never {},
    }
}

/// The length of the printed text of a sheet that is sound for `source`, in bytes. A text longer than `u64::MAX` has
/// that length.
pub fn print_len(sheet: &Sheet, source: &[u8]) -> u64
    requires length { length source.now ≤ max_bytes }
    requires sound { IsSound source.now sheet.now.items }
    ensures { result ≡ min (length (printed source.now sheet.now.items)) (2 ^ 64 - 1) }
{
    tally(sheet.items.as_slice(), source).len_behind_mark()
}

/// The tally of a selector's text.
fn selector_tally(item: &SelItem, source: &[u8]) -> Tally
    requires length { length source.now ≤ max_bytes }
    requires sound { IsSoundSelector source.now item.now }
    ensures { result ≡ tally_of (printed_selector source.now item.now) }
{
    let mut tally = Tally::new();
    match put_selector(&mut tally, item, source) {
        Ok(()) => tally,
        Err(never) => match never {},
    }
}

/// The tally of a declaration's text.
fn declaration_tally(item: &DeclItem, source: &[u8]) -> Tally
    requires { IsSoundDeclaration source.now item.now }
    ensures { result ≡ tally_of (printed_declaration source.now item.now) }
{
    let mut tally = Tally::new();
    match put_declaration(&mut tally, item, source) {
        Ok(()) => tally,
        Err(never) => match never {},
    }
}

/// The length of the printed text of a selector that is sound for `source`, in bytes. A text longer than `u64::MAX` has
/// that length.
pub fn selector_len(item: &SelItem, source: &[u8]) -> u64
    requires length { length source.now ≤ max_bytes }
    requires sound { IsSoundSelector source.now item.now }
    ensures { result ≡ min (length (printed_selector source.now item.now)) (2 ^ 64 - 1) }
{
    selector_tally(item, source).len()
}

/// The length of the printed text of a declaration that is sound for `source`, in bytes. A text longer than `u64::MAX`
/// has that length.
pub fn decl_len(item: &DeclItem, source: &[u8]) -> u64
    requires { IsSoundDeclaration source.now item.now }
    ensures { result ≡ min (length (printed_declaration source.now item.now)) (2 ^ 64 - 1) }
{
    declaration_tally(item, source).len()
}

/// The printed text of a selector that is sound for `source`, as bytes. It has the tokens there, with white space only
/// where it is a combinator (Selectors 3, section 8), and each argument of `:nth-child()` and its kin in its shortest
/// notation. `AllocError` where memory runs out.
pub fn print_selector(alloc: Global, item: &SelItem, source: &[u8]) -> Result<Vec<u8>, AllocError>
    requires length { length source.now ≤ max_bytes }
    requires sound { IsSoundSelector source.now item.now }
    ensures { IfOk result (λ text. text.items ≡ printed_selector source.now item.now) }
{
    let mut out = Vec::new(alloc);
    put_selector(&mut out, item, source)?;
    Ok(out)
}

/// The printed text of a declaration that is sound for `source`, as bytes: the property, `:`, the value, and
/// `!important` where it is. `AllocError` where memory runs out.
pub fn print_decl(alloc: Global, item: &DeclItem, source: &[u8]) -> Result<Vec<u8>, AllocError>
    requires { IsSoundDeclaration source.now item.now }
    ensures { IfOk result (λ text. text.items ≡ printed_declaration source.now item.now) }
{
    let mut out = Vec::new(alloc);
    put_declaration(&mut out, item, source)?;
    Ok(out)
}

/// Puts a space before a byte order mark at the front of a text, where it would be skipped (CSS Syntax 3, section 3.2).
fn put_before_mark(text: &mut Vec<u8>) -> Result<(), AllocError>
    ensures { OnOk result (text.new.items ≡ behind_mark text.old.items) }
{
    if text.starts_with(BYTE_ORDER_MARK) {
        text.insert(0, b' ')?;
    }
    Ok(())
}

/// The printed text of a sheet that is sound for `source`, as bytes. Its buffer has the length of the source at first:
/// enough for a sheet as it was read. `AllocError` where memory runs out.
pub fn print_sheet(alloc: Global, sheet: &Sheet, source: &[u8]) -> Result<Vec<u8>, AllocError>
    requires length { length source.now ≤ max_bytes }
    requires sound { IsSound source.now sheet.now.items }
    ensures { IfOk result (λ text. text.items ≡ printed source.now sheet.now.items) }
{
    let mut out = Vec::with_capacity(alloc, source.len())?;
    put_items(&mut out, sheet.items.as_slice(), source)?;
    put_before_mark(&mut out)?;
    Ok(out)
}
