//! The declarations of a block (CSS Syntax 3, section 5.4.6).

ghost use Rattle.std.specs.Prelude.{◌≡◌, ◌++◌, not, ◌&&◌, ◌||◌, IfOk, OnOk};
ghost use Rattle.std.specs.List.{list_any};
ghost use Rattle.std.specs.Option.{option_map, option_to_list};
ghost use Rattle.css_model.specs.Sheets.Declarations as block;
ghost use Rattle.css_model.specs.Sheets.Items as items;
ghost use Rattle.css_model.specs.Text.Lexemes as lexemes;
ghost use Rattle.sheet_read.specs.Placed.{IsPlaced, ArePlaced};

use crate::items::is_at_rule;
use crate::names::{is_custom, property_of};
use crate::signs::{
    block, cut, has_sign_at, is_delim_of, is_ident, is_sign_of, is_white_gap, piece_of,
};
use crate::values::value_text;
use css_model::{Bytes, Decl, DeclItem, Lexeme, Piece, TokenKind};
use css_tokens::{decode, is_named};
use std::alloc::{AllocError, Global};

/// Whether these are `!` and `important`.
fn is_importance(source: &[u8], words: &[Lexeme]) -> bool
    requires { ArePlaced source.now words.now }
    ensures { result ≡ block.is_importance source.now words.now }
{
    match words {
        [sign, word] => {
            is_delim_of(0x21, sign.kind)
                && is_ident(word.kind)
                && is_named(word.span.text(source), b"important")
        }
        _ => false,
    }
}

/// A value without its importance, and whether it had one.
fn split_importance<'a>(source: &[u8], value: &'a [Lexeme]) -> (&'a [Lexeme], bool)
    requires { ArePlaced source.now value.now }
    ensures plain { result.0.now ≡ block.without_importance source.now value.now }
    ensures placed { ArePlaced source.now result.0.now }
    ensures important { result.1 ≡ block.is_important source.now value.now }
{
    let len = value.len().saturating_sub(2);
    if is_importance(source, &value[len..]) {
        (&value[..len], true)
    } else {
        (value, false)
    }
}

/// The text of a value after this colon.
fn text_of_value(
    alloc: Global,
    source: &[u8],
    custom: bool,
    sign: &Lexeme,
    value: &[Lexeme],
) -> Result<Bytes, AllocError>
    requires { ArePlaced source.now value.now }
    ensures { IfOk result (λ b. b ≡ block.text_of_value source.now custom sign.now value.now) }
{
    if value.is_empty() && custom && is_white_gap(sign.gap) {
        Ok(Bytes::new(Vec::from_slice(alloc, b" ")?))
    } else {
        value_text(alloc, source, value)
    }
}

/// Where a value is in the source.
fn piece_of_value(custom: bool, sign: &Lexeme, value: &[Lexeme]) -> Piece
    ensures { result ≡ block.piece_of_value custom sign.now value.now }
{
    if !value.is_empty() {
        piece_of(value)
    } else if custom && is_white_gap(sign.gap) {
        sign.white
    } else {
        Piece {
            start: sign.span.end,
            end: sign.span.end,
        }
    }
}

/// The declaration of this name and this value.
fn declared(
    alloc: Global,
    source: &[u8],
    name: &Lexeme,
    sign: &Lexeme,
    value: &[Lexeme],
) -> Result<DeclItem, AllocError>
    requires name { IsPlaced source.now name.now }
    requires value { ArePlaced source.now value.now }
    ensures { IfOk result (λ d. d ≡ block.decl_item source.now name.now sign.now value.now) }
{
    let property = property_of(alloc, decode(alloc, source, &name.span)?)?;
    let custom = is_custom(property.codes());
    let (plain, important) = split_importance(source, value);
    let text = text_of_value(alloc, source, custom, sign, plain)?;
    Ok(DeclItem {
        decl: Decl {
            name: property,
            value: text,
            important,
        },
        name: name.span,
        value: piece_of_value(custom, sign, plain),
    })
}

/// The declaration of an entry, if it is one.
fn declaration(
    alloc: Global,
    source: &[u8],
    entry: &[Lexeme],
) -> Result<Option<DeclItem>, AllocError>
    requires { ArePlaced source.now entry.now }
    ensures { IfOk result (λ d. d ≡ block.declaration source.now entry.now) }
{
    match entry {
        [name, sign, value @ ..] if is_ident(name.kind) && is_sign_of(b':', sign.kind) => {
            Ok(Some(declared(alloc, source, name, sign, value)?))
        }
        _ => Ok(None),
    }
}

/// Whether a custom property is declared.
fn declares_custom(declaration: &Option<DeclItem>) -> bool
    ensures { result ≡ block.declares_custom declaration.now }
{
    match declaration {
        Some(d) => is_custom(d.decl.name.codes()),
        None => false,
    }
}

/// Whether an entry with this declaration, or none, is nested. It is where it is an at-rule, or has a block and
/// declares no custom property.
fn is_nested(entry: &[Lexeme], declaration: &Option<DeclItem>) -> bool
    ensures { result ≡ (items.is_at_rule entry.now
        || (list_any (lexemes.is_sign_at 0x7B 1) entry.now && not (block.declares_custom declaration.now))) }
{
    is_at_rule(entry) || (has_sign_at(b'{', 1, entry) && !declares_custom(declaration))
}

fn push_some(decls: &mut Vec<DeclItem>, declaration: Option<DeclItem>) -> Result<(), AllocError>
    ensures { OnOk result (decls.new.items ≡ decls.old.items ++ option_to_list declaration) }
{
    match declaration {
        Some(d) => Ok(decls.push(d)?),
        None => Ok(()),
    }
}

/// The declarations of a rule's block; `None` exactly where an entry is nested.
pub(crate) fn declarations(
    alloc: Global,
    source: &[u8],
    item: &[Lexeme],
) -> Result<Option<Vec<DeclItem>>, AllocError>
    requires { ArePlaced source.now item.now }
    ensures { IfOk result (λ r. option_map (λ v. v.items) r ≡ block.declarations source.now item.now) }
{
    let mut decls = Vec::new(alloc);
    let mut rest = Some(block(item));
    while let Some(entries) = rest {
        let (entry, behind) = cut(b';', 1, entries);
        let declaration = declaration(alloc, source, entry)?;
        if is_nested(entry, &declaration) {
            return Ok(None);
        }
        push_some(&mut decls, declaration)?;
        rest = behind;
    }
    Ok(Some(decls))
}
