//! The printed text of a sheet whose blocks of media are opened.

ghost use Rattle.std.specs.Prelude.{◌≡◌, ◌≤◌, ◌∷◌, ◌++◌, [], if◌then◌else◌, length, map, IfOk, OnOk};
ghost use Rattle.std.specs.List.{AllByRecursion, AllZip, join_with_byte};
ghost use Rattle.css_model.specs.Sheets.Limits.{max_bytes};
ghost use Rattle.css_model.specs.Sheets.Printed as print;
ghost use Rattle.css_model.specs.Sheets.Sound.{IsSound, IsSoundSelector, IsSoundDeclaration, IsSoundRule, IsSoundItem};
ghost use Rattle.css_model.specs.Sheets.Spelling.{kept_text};
ghost use Rattle.css_model.specs.Text.Kept.{kept, solid};
ghost use Rattle.media_groups.specs.Printed as spec;
ghost use Rattle.media_groups.specs.Printed.{IsSoundBody};
ghost use Rattle.sheet_read.specs.Placed.{ArePlaced};

use crate::media::Media;
use crate::reading::Reading;
use crate::signs::begins_with_mark;
use css_model::{DeclItem, Gap, Item, Lexeme, Piece, Rule, SelItem, Sheet, TokenKind};
use css_print::{print_decl, print_selector, print_sheet};
use std::alloc::{AllocError, Global};
use verbatim_text::{behind_last, between};

/// What is printed after a token that is kept, before these.
fn behind(kind: TokenKind, text: &[u8], gap: Gap, others: &[Lexeme]) -> &'static [u8]
    ensures { result.now ≡ spec.behind_kept (record { kind = kind; bytes = text.now; gap = gap }) others.now }
{
    match others {
        [] => behind_last(kind),
        [_, ..] => between(kind, text, gap),
    }
}

/// Writes the kept text of tokens.
pub(crate) fn put_tokens(
    out: &mut Vec<u8>,
    source: &[u8],
    tokens: &[Lexeme],
) -> Result<(), AllocError>
    requires { ArePlaced source.now tokens.now }
    ensures { OnOk result (out.new.items ≡ out.old.items ++ kept (map (solid source.now) tokens.now)) }
{
    let mut rest = tokens;
    'tokens: while let [x, others @ ..] = rest {
        let text = x.span.text(source);
        out.extend_from_slice(text)?;
        out.extend_from_slice(behind(x.kind, text, x.gap, others))?;
        rest = others;
    }
    Ok(())
}

/// Writes the kept text of a piece. `AllocError` where memory runs out.
pub fn put_piece(out: &mut Vec<u8>, reading: &Reading<'_>, piece: Piece) -> Result<(), AllocError>
    ensures { OnOk result (out.new.items ≡ out.old.items ++ kept_text reading.now.source.now piece) }
{
    put_tokens(out, reading.source, reading.tokens_in(piece))
}

/// Writes a sign after a part that is not the last.
fn put_sign(out: &mut Vec<u8>, sign: u8, last: bool) -> Result<(), AllocError>
    ensures { OnOk result (out.new.items ≡ out.old.items ++ (if last then [] else sign ∷ [])) }
{
    if !last {
        out.push(sign)?;
    }
    Ok(())
}

/// Writes selectors, with `,` between them.
pub(crate) fn put_selectors(
    alloc: Global,
    out: &mut Vec<u8>,
    selectors: &[SelItem],
    source: &[u8],
) -> Result<(), AllocError>
    requires length { length source.now ≤ max_bytes }
    requires sound { AllByRecursion (IsSoundSelector source.now) selectors.now }
    ensures { OnOk result (out.new.items ≡ out.old.items ++ join_with_byte 44 (map (print.printed_selector source.now) selectors.now)) }
{
    let mut rest = selectors;
    'selectors: while let [x, others @ ..] = rest {
        out.extend_from_slice(print_selector(alloc, x, source)?.as_slice())?;
        put_sign(out, b',', others.is_empty())?;
        rest = others;
    }
    Ok(())
}

/// Writes declarations, with `;` between them.
fn put_declarations(
    alloc: Global,
    out: &mut Vec<u8>,
    decls: &[DeclItem],
    source: &[u8],
) -> Result<(), AllocError>
    requires { AllByRecursion (IsSoundDeclaration source.now) decls.now }
    ensures { OnOk result (out.new.items ≡ out.old.items ++ join_with_byte 59 (map (print.printed_declaration source.now) decls.now)) }
{
    let mut rest = decls;
    'decls: while let [x, others @ ..] = rest {
        out.extend_from_slice(print_decl(alloc, x, source)?.as_slice())?;
        put_sign(out, b';', others.is_empty())?;
        rest = others;
    }
    Ok(())
}

fn put_rule(alloc: Global, out: &mut Vec<u8>, rule: &Rule, source: &[u8]) -> Result<(), AllocError>
    requires length { length source.now ≤ max_bytes }
    requires sound { IsSoundRule source.now rule.now }
    ensures { OnOk result (out.new.items ≡ out.old.items ++ print.printed_rule source.now rule.now) }
{
    put_selectors(alloc, out, rule.selectors.as_slice(), source)?;
    out.push(b'{')?;
    put_declarations(alloc, out, rule.decls.as_slice(), source)?;
    out.push(b'}')?;
    Ok(())
}

fn put_item(
    alloc: Global,
    out: &mut Vec<u8>,
    reading: &Reading<'_>,
    item: &Item,
) -> Result<(), AllocError>
    requires { IsSoundItem reading.now.source.now item.now }
    ensures { OnOk result (out.new.items ≡ out.old.items ++ print.printed_item reading.now.source.now item.now) }
{
    match item {
        Item::Rule(rule) => put_rule(alloc, out, rule, reading.source),
        Item::KeptRule(rule) => put_piece(out, reading, rule.piece),
        Item::KeptBlock(piece) => put_piece(out, reading, *piece),
    }
}

/// Writes an opened block with this sheet as its body.
fn put_block(
    alloc: Global,
    out: &mut Vec<u8>,
    reading: &Reading<'_>,
    block: &Media,
    body: &Sheet,
) -> Result<(), AllocError>
    requires { IsSoundBody reading.now.source.now block.now body.now }
    ensures { OnOk result (out.new.items ≡ out.old.items ++ spec.block_text reading.now.source.now block.now body.now) }
{
    put_piece(out, reading, block.head)?;
    out.push(b'{')?;
    let text = print_sheet(alloc, body, block.body.text(reading.source))?;
    out.extend_from_slice(text.as_slice())?;
    out.push(b'}')?;
    Ok(())
}

/// Whether a block begins at this place.
fn begins_at(place: u32, item: &Item) -> bool
    ensures { result ≡ spec.begins_at place item.now }
{
    match item {
        Item::KeptBlock(piece) => piece.start == place,
        _ => false,
    }
}

/// Writes an item. Where the first of these blocks begins there, it is written opened, with the first of these sheets
/// as its body. Answers how many of the blocks it was.
fn put_next(
    alloc: Global,
    out: &mut Vec<u8>,
    reading: &Reading<'_>,
    item: &Item,
    media: &[Media],
    bodies: &[Sheet],
) -> Result<usize, AllocError>
    requires sound { IsSoundItem reading.now.source.now item.now }
    requires bodies { AllZip (IsSoundBody reading.now.source.now) media.now bodies.now }
    ensures count { IfOk result (λ n. n ≡ spec.blocks_at media.now item.now) }
    ensures text { OnOk result (out.new.items ≡ out.old.items ++ spec.next_text reading.now.source.now media.now bodies.now item.now) }
{
    if let (Some(block), Some(body)) = (media.first(), bodies.first()) {
        if begins_at(block.head.start, item) {
            put_block(alloc, out, reading, block, body)?;
            return Ok(1);
        }
    }
    put_item(alloc, out, reading, item)?;
    Ok(0)
}

/// Writes items. These blocks among them are opened, with these sheets as their bodies.
fn put_items(
    alloc: Global,
    out: &mut Vec<u8>,
    reading: &Reading<'_>,
    items: &[Item],
    media: &[Media],
    bodies: &[Sheet],
) -> Result<(), AllocError>
    requires sound { IsSound reading.now.source.now items.now }
    requires bodies { AllZip (IsSoundBody reading.now.source.now) media.now bodies.now }
    ensures { OnOk result (out.new.items ≡ out.old.items ++ spec.texts_with reading.now.source.now media.now bodies.now items.now) }
{
    let mut rest = items;
    let mut blocks = media;
    let mut sheets = bodies;
    'items: while let [item, others @ ..] = rest {
        let n = put_next(alloc, out, reading, item, blocks, sheets)?;
        blocks = &blocks[n..];
        sheets = &sheets[n..];
        rest = others;
    }
    Ok(())
}

/// Puts a space before a byte order mark at the front of a text, where it would be skipped (CSS Syntax 3, section 3.2).
fn put_before_mark(text: &mut Vec<u8>) -> Result<(), AllocError>
    ensures { OnOk result (text.new.items ≡ print.behind_mark text.old.items) }
{
    if begins_with_mark(text.as_slice()) {
        text.insert(0, b' ')?;
    }
    Ok(())
}

/// The printed text of a sheet with opened blocks, as bytes. The sheet is sound for the source; the blocks are among
/// its items, in their order. The body of each is the sheet of the same place in `merged`. `AllocError` where memory
/// runs out.
pub fn print_opened(
    alloc: Global,
    sheet: &Sheet,
    reading: &Reading<'_>,
    media: &[Media],
    merged: &[Sheet],
) -> Result<Vec<u8>, AllocError>
    requires sound { IsSound reading.now.source.now sheet.now.items }
    requires bodies { AllZip (IsSoundBody reading.now.source.now) media.now merged.now }
    ensures { IfOk result (λ text. text.items ≡ spec.printed_with reading.now.source.now media.now merged.now sheet.now.items) }
{
    let mut out = Vec::with_capacity(alloc, reading.source.len())?;
    put_items(
        alloc,
        &mut out,
        reading,
        sheet.items.as_slice(),
        media,
        merged,
    )?;
    put_before_mark(&mut out)?;
    Ok(out)
}
