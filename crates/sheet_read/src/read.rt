//! A style sheet from its bytes, or its fault.

ghost use Rattle.std.specs.Prelude.{◌≡◌, ◌≤◌, ◌<◌, ◌-◌, true, if◌then◌else◌, map, length, Ok, IfOk};
ghost use Rattle.std.specs.Str.{IsAscii};
ghost use Rattle.css_model.specs.declared.sheet.Item.TheVariants as kinds;
ghost use Rattle.css_model.specs.declared.sheet.Piece.{Piece};
ghost use Rattle.css_model.specs.Sheets.Limits.{max_bytes};
ghost use Rattle.css_model.specs.Sheets.Selectors.{selectors};
ghost use Rattle.css_model.specs.Sheets.Sheet as spec;
ghost use Rattle.css_model.specs.Sheets.Sheet.{sheet_of};
ghost use Rattle.css_model.specs.Sheets.Spelling as spelling;
ghost use Rattle.css_model.specs.Text.Lexemes.{piece_of};
ghost use Rattle.sheet_read.specs.Cut.{GivesItems, MayStandFor};
ghost use Rattle.sheet_read.specs.Placed.{ArePlaced};
ghost use Rattle.sheet_read.specs.Reading.{Answers};
ghost use Rattle.sheet_read.specs.Steps as steps;

use crate::declarations::declarations;
use crate::fault::SheetError;
use crate::items::{is_at_keyword, is_at_rule, next_item};
use crate::lexing::lexemes_of;
use crate::selectors::first_selectors;
use crate::signs::piece_of;
use css_model::{
    Decl, DeclItem, FaultKind, Item, KeptRule, Lexeme, MAX_BYTES, MAX_ITEMS, MAX_PAIRS, Piece,
    Rule, SelItem, Sheet, SheetFault, with_pairs_of,
};
use css_tokens::{is_named, tokens_cover};
use sel_parse::SelError;
use std::alloc::{AllocError, Global};

/// Whether this is an at-rule whose name is this word of ASCII.
fn is_at_rule_named(word: &[u8], source: &[u8], item: &[Lexeme]) -> bool
    requires ascii { IsAscii word.now }
    requires placed { ArePlaced source.now item.now }
    ensures { result ≡ spec.is_at_rule_named word.now source.now item.now }
{
    match item {
        [] => false,
        [x, ..] => is_at_keyword(x.kind) && is_named(&x.span.text(source)[1..], word),
    }
}

fn is_import(source: &[u8], item: &[Lexeme]) -> bool
    requires { ArePlaced source.now item.now }
    ensures { result ≡ spec.is_import source.now item.now }
{
    is_at_rule_named(b"import", source, item)
}

fn is_namespace(source: &[u8], item: &[Lexeme]) -> bool
    requires { ArePlaced source.now item.now }
    ensures { result ≡ spec.is_namespace source.now item.now }
{
    is_at_rule_named(b"namespace", source, item)
}

/// How many `@import` rules a sheet has. Its fault is its first `@namespace` rule.
fn imports_of(source: &[u8], lexemes: &[Lexeme]) -> Result<usize, SheetFault>
    requires { ArePlaced source.now lexemes.now }
    ensures { result ≡ steps.imports_of source.now (steps.whole_items lexemes.now) }
{
    let mut imports = 0;
    let mut rest = lexemes;
    'items: while let Some((item, behind)) = next_item(rest) {
        if is_namespace(source, item) {
            return Err(SheetFault {
                kind: FaultKind::Namespace,
                at: piece_of(item).start,
            });
        }
        if is_import(source, item) {
            imports += 1;
        }
        rest = behind;
    }
    Ok(imports)
}

fn decls_of(alloc: Global, items: Vec<DeclItem>) -> Result<Vec<Decl>, AllocError>
    ensures { IfOk result (λ decls. decls.items ≡ map (λ d. d.decl) items.items) }
{
    items.into_iter().map(|item| item.decl).collect(alloc)
}

/// A kept rule with its declarations, for the reason of this number.
fn kept_rule(
    alloc: Global,
    piece: Piece,
    decls: Vec<DeclItem>,
    reason: u32,
) -> Result<Item, AllocError>
    ensures { IfOk result (λ item. item ≡ kinds.KeptRule (record { piece = piece; decls = map (λ d. d.decl) decls.items; reason = reason })) }
{
    Ok(Item::KeptRule(KeptRule {
        piece,
        decls: decls_of(alloc, decls)?,
        reason,
    }))
}

/// A style rule, if it declares anything.
fn style_rule(selectors: Vec<SelItem>, decls: Vec<DeclItem>) -> Option<Item>
    ensures { (piece : Piece) → result ≡ spec.rule_of piece (Ok selectors.items) decls.items }
{
    if decls.is_empty() {
        None
    } else {
        Some(Item::Rule(Rule { selectors, decls }))
    }
}

/// A qualified rule with these declarations, if it is not dropped. There is room for so many pairs.
fn rule_of(
    alloc: Global,
    source: &[u8],
    item: &[Lexeme],
    decls: Vec<DeclItem>,
    room: u64,
) -> Result<Option<Item>, AllocError>
    requires placed { ArePlaced source.now item.now }
    requires short { length source.now ≤ max_bytes }
    ensures { IfOk result (λ read. MayStandFor room read (spec.rule_of (piece_of item.now) (selectors source.now item.now) decls.items)) }
{
    match first_selectors(alloc, source, item, decls.len(), room) {
        Ok(selectors) => Ok(style_rule(selectors, decls)),
        Err(SelError::Outside(reason)) => {
            Ok(Some(kept_rule(alloc, piece_of(item), decls, reason)?))
        }
        Err(SelError::NoMemory) => Err(AllocError),
    }
}

/// An item, if it is not dropped. There is room for so many pairs.
fn item_of(
    alloc: Global,
    source: &[u8],
    item: &[Lexeme],
    room: u64,
) -> Result<Option<Item>, AllocError>
    requires placed { ArePlaced source.now item.now }
    requires short { length source.now ≤ max_bytes }
    ensures { IfOk result (λ read. MayStandFor room read (spec.item_of source.now item.now)) }
{
    if is_at_rule(item) {
        return Ok(Some(Item::KeptBlock(piece_of(item))));
    }
    match declarations(alloc, source, item)? {
        None => Ok(Some(Item::KeptBlock(piece_of(item)))),
        Some(decls) => rule_of(alloc, source, item, decls, room),
    }
}

/// Where an item begins.
fn start_of(item: &Item) -> u32
    ensures { result ≡ spec.start_of item.now }
{
    match item {
        Item::Rule(rule) => match rule.selectors.as_slice() {
            [] => 0,
            [first, ..] => first.piece.start,
        },
        Item::KeptRule(kept) => kept.piece.start,
        Item::KeptBlock(piece) => piece.start,
    }
}

/// An item, if it is not dropped, with so many `@import` rules after it. Each item before one is kept.
fn item_before(
    alloc: Global,
    source: &[u8],
    item: &[Lexeme],
    imports: usize,
    room: u64,
) -> Result<Option<Item>, AllocError>
    requires placed { ArePlaced source.now item.now }
    requires short { length source.now ≤ max_bytes }
    ensures { IfOk result (λ read. MayStandFor room read (steps.item_before source.now item.now imports)) }
{
    if imports > 0 {
        Ok(Some(Item::KeptBlock(piece_of(item))))
    } else {
        item_of(alloc, source, item, room)
    }
}

/// How many of so many `@import` rules come after an item.
fn imports_behind(source: &[u8], item: &[Lexeme], imports: usize) -> usize
    requires placed { ArePlaced source.now item.now }
    requires some { spec.is_import source.now item.now ≡ true → 0 < imports }
    ensures { result ≡ (if spec.is_import source.now item.now then imports - 1 else imports) }
{
    if is_import(source, item) {
        imports - 1
    } else {
        imports
    }
}

/// How many pairs there is room for after an item.
fn room_behind(room: u64, item: &Item) -> u64
    ensures { result ≡ room - spec.pairs_of item.now }
{
    match item {
        Item::Rule(rule) => {
            let pairs = (rule.selectors.len() as u64).saturating_mul(rule.decls.len() as u64);
            room.saturating_sub(pairs)
        }
        _ => room,
    }
}

/// The items of a sheet with so many `@import` rules. A rule with which the pairs become too many may lack selectors:
/// the sheet is refused, and the rule may have very many.
fn items_of(
    alloc: Global,
    source: &[u8],
    lexemes: &[Lexeme],
    imports: usize,
) -> Result<Vec<Item>, SheetError>
    requires placed { ArePlaced source.now lexemes.now }
    requires short { length source.now ≤ max_bytes }
    requires imports { imports ≡ steps.count_imports source.now (steps.whole_items lexemes.now) }
    ensures { GivesItems (λ items. items.items) result (steps.items_of source.now (steps.whole_items lexemes.now)) }
{
    let mut items = Vec::new(alloc);
    let mut imports_left = imports;
    let mut room = u64::from(MAX_PAIRS);
    let mut rest = lexemes;
    'items: while let Some((item, behind)) = next_item(rest) {
        imports_left = imports_behind(source, item, imports_left);
        if let Some(read) = item_before(alloc, source, item, imports_left, room)? {
            if items.len() == MAX_ITEMS as usize {
                return Err(SheetError::Fault(SheetFault {
                    kind: FaultKind::TooManyItems,
                    at: start_of(&read),
                }));
            }
            room = room_behind(room, &read);
            items.push(read)?;
        }
        rest = behind;
    }
    Ok(items)
}

/// Where the pairs of a selector and a declaration become too many.
fn too_many_pairs(items: &[Item]) -> Option<u32>
    ensures { result ≡ spec.too_many_pairs 0 items.now }
{
    let mut pairs = 0;
    for item in items {
        pairs = with_pairs_of(pairs, item);
        if pairs > u64::from(MAX_PAIRS) {
            return Some(start_of(item));
        }
    }
    None
}

/// The sheet of a source by its tokens.
fn sheet_of_lexemes(alloc: Global, source: &[u8], lexemes: &[Lexeme]) -> Result<Sheet, SheetError>
    requires short { length source.now ≤ max_bytes }
    requires lexed { steps.lexed (steps.tokens_of source.now) ≡ Ok lexemes.now }
    ensures { Answers (λ s. s.items) result (sheet_of source.now) }
{
    // A law that the places of the tokens need; it does nothing.
    tokens_cover();
    let imports = imports_of(source, lexemes)?;
    let items = items_of(alloc, source, lexemes, imports)?;
    match too_many_pairs(items.as_slice()) {
        Some(at) => Err(SheetError::Fault(SheetFault {
            kind: FaultKind::TooManyPairs,
            at,
        })),
        None => Ok(Sheet { items }),
    }
}

/// The style sheet of a source, as `read_sheet` gives it, with the tokens of the source that are no white space.
///
/// The faults are those of `read_sheet`. `NoMemory` comes where memory is short.
pub fn read_with_lexemes(alloc: Global, source: &[u8]) -> Result<(Sheet, Vec<Lexeme>), SheetError>
    ensures sheet { Answers (λ r. r.0.items) result (sheet_of source.now) }
    ensures lexemes { IfOk result (λ r. r.1.items ≡ spelling.lexemes_of source.now) }
{
    if source.len() > MAX_BYTES as usize {
        return Err(SheetError::Fault(SheetFault {
            kind: FaultKind::TooLong,
            at: MAX_BYTES,
        }));
    }
    let lexemes = lexemes_of(alloc, source)?;
    let sheet = sheet_of_lexemes(alloc, source, lexemes.as_slice())?;
    Ok((sheet, lexemes))
}

/// The style sheet of a source (CSS Syntax 3, sections 3.2, 4 and 5.4). Each piece of it is a range of `source`, in
/// bytes from 0.
///
/// `Ok` comes only where the sheet has no fault. `Fault` comes only where it has this one, with its place in bytes from
/// 0. `NoMemory` comes where memory is short.
///
/// Faults are looked for one after the other, each over the whole sheet. The first one is the answer:
///
/// - `TooLong`;
/// - `NotUtf8`;
/// - the first `BadString`, `BadUrl` or `EndInside` in the place of a token;
/// - `TooDeep`;
/// - `EndInside` of a bracket;
/// - `Namespace`;
/// - `TooManyItems`;
/// - `TooManyPairs`.
pub fn read_sheet(alloc: Global, source: &[u8]) -> Result<Sheet, SheetError>
    ensures { Answers (λ s. s.items) result (sheet_of source.now) }
{
    let (sheet, _) = read_with_lexemes(alloc, source)?;
    Ok(sheet)
}
