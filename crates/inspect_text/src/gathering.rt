//! What the rules of a sheet and of its opened bodies apply.

ghost use Rattle.std.specs.Prelude.{◌≡◌, ◌≤◌, ◌++◌, ◌∷◌, [], Ok, length, map, IfOk, OnOk};
ghost use Rattle.std.specs.List.{AllByRecursion, enumerate_from, flat_map};
ghost use Rattle.cascade_eval.specs.Entries.{HasSmallSelectors, IsSmall};
ghost use Rattle.css_model.specs.Documents.Matching.{matches};
ghost use Rattle.css_model.specs.Documents.RunDocuments.{KeepsRules, expand, target_of};
ghost use Rattle.css_model.specs.Sheets.Limits.{max_bytes};
ghost use Rattle.css_model.specs.Sheets.Printed.{printed_declaration};
ghost use Rattle.css_model.specs.Sheets.Sheet.{sheet_of};
ghost use Rattle.css_model.specs.Sheets.Sound.{IsSound, IsSoundDeclaration, IsSoundItem, IsSoundRule};
ghost use Rattle.css_model.specs.Sheets.Spelling.{kept_text};
ghost use Rattle.media_groups.specs.Laws.{IsBlockOf};
ghost use Rattle.media_groups.specs.Opened.{opened_of};
ghost use Rattle.inspect_laws.specs.Entries as spec;

use crate::entry::Entry;
use crate::layer::Layer;
use crate::matching::{Matching, matching_in};
use css_model::{Bytes, DeclItem, Example, Item, Rule, Sheet};
use css_print::print_decl;
use media_groups::{Media, Reading, opened_blocks_are_sheets, put_piece};
use selector_laws::read_selectors_keep_the_limits;
use sheet_laws::read_is_sound;
use std::alloc::{AllocError, Global};

/// The number of the item of the sheet that an item of a level is or is in.
fn outer_item(block: Option<u32>, item: usize) -> usize
    ensures { result ≡ spec.outer_item block item }
{
    match block {
        None => item,
        Some(block) => block as usize,
    }
}

/// The number of an item of a body, and 0 outside of bodies.
fn inner_item(block: Option<u32>, item: usize) -> usize
    ensures { result ≡ spec.inner_item block item }
{
    match block {
        None => 0,
        Some(_) => item,
    }
}

/// A selector and a declaration, printed as a rule.
fn rule_text(alloc: Global, selector: &[u8], declaration: &[u8]) -> Result<Vec<u8>, AllocError>
    ensures { IfOk result (λ text. text.items ≡ selector.now ++ 123 ∷ declaration.now ++ 125 ∷ []) }
{
    let mut text = selector.to_vec(alloc)?;
    text.push(b'{')?;
    text.extend_from_slice(declaration)?;
    text.push(b'}')?;
    Ok(text)
}

/// The entry of a declaration with this number and printed text, of the item of this number, by a selector that matches.
fn entry<'a>(
    alloc: Global,
    layer: &Layer<'a>,
    item: usize,
    number: usize,
    d: &'a DeclItem,
    text: &[u8],
    m: &Matching,
) -> Result<Entry<'a>, AllocError>
    requires { text.now ≡ printed_declaration layer.now.source d.now }
    ensures { IfOk result (λ e. e ≡ spec.entry_of layer.now item (number, d.now) m.now) }
{
    let text = rule_text(alloc, &m.text, text)?;
    Ok(Entry {
        decl: &d.decl,
        weight: m.weight,
        item: outer_item(layer.block, item),
        inner: inner_item(layer.block, item),
        declaration: number,
        selector: m.number,
        head: layer.head,
        at: layer.start as usize + d.name.start as usize,
        text,
    })
}

/// Puts the entries of a declaration after the others: one for each of these selectors that match.
fn push_decl<'a>(
    found: &mut Vec<Entry<'a>>,
    alloc: Global,
    layer: &Layer<'a>,
    item: usize,
    number: usize,
    d: &'a DeclItem,
    matching: &[Matching],
) -> Result<(), AllocError>
    requires { IsSoundDeclaration layer.now.source d.now }
    ensures { OnOk result (found.new.items ≡ found.old.items ++ spec.by_declaration layer.now item matching.now (number, d.now)) }
{
    let text = print_decl(alloc, d, layer.source)?;
    let mut rest = matching;
    'matching: while let [m, others @ ..] = rest {
        found.push(entry(alloc, layer, item, number, d, &text, m)?)?;
        rest = others;
    }
    Ok(())
}

/// Puts the entries of the declarations of the rule of this number after the others. If none of its selectors matches, the
/// declarations are not looked at.
fn push_decls<'a>(
    found: &mut Vec<Entry<'a>>,
    alloc: Global,
    layer: &Layer<'a>,
    item: usize,
    decls: &'a [DeclItem],
    matching: &[Matching],
) -> Result<(), AllocError>
    requires { AllByRecursion (IsSoundDeclaration layer.now.source) decls.now }
    ensures { OnOk result (found.new.items
        ≡ found.old.items ++ flat_map (spec.by_declaration layer.now item matching.now) (enumerate_from 0 decls.now)) }
{
    if matching.is_empty() {
        return Ok(());
    }
    let mut number = 0;
    let mut rest = decls;
    'decls: while let [d, others @ ..] = rest {
        push_decl(found, alloc, layer, item, number, d, matching)?;
        number += 1;
        rest = others;
    }
    Ok(())
}

/// Puts the entries of the rule of this number after the others.
fn push_rule<'a>(
    found: &mut Vec<Entry<'a>>,
    alloc: Global,
    x: &Example,
    layer: &Layer<'a>,
    item: usize,
    rule: &'a Rule,
) -> Result<(), AllocError>
    requires rules { KeepsRules x.now }
    requires small { AllByRecursion (λ s. IsSmall s.selector) rule.now.selectors }
    requires short { length layer.now.source ≤ max_bytes }
    requires sound { IsSoundRule layer.now.source rule.now }
    ensures { OnOk result (found.new.items
        ≡ found.old.items ++ spec.by_rule (matches (expand x.now) (target_of x.now)) layer.now item rule.now) }
{
    let matching = matching_in(alloc, x, layer.source, &rule.selectors)?;
    push_decls(found, alloc, layer, item, &rule.decls, &matching)
}

/// Puts the entries of the item of this number after the others.
fn push_item<'a>(
    found: &mut Vec<Entry<'a>>,
    alloc: Global,
    x: &Example,
    layer: &Layer<'a>,
    number: usize,
    item: &'a Item,
) -> Result<(), AllocError>
    requires rules { KeepsRules x.now }
    requires small { HasSmallSelectors item.now }
    requires short { length layer.now.source ≤ max_bytes }
    requires sound { IsSoundItem layer.now.source item.now }
    ensures { OnOk result (found.new.items
        ≡ found.old.items ++ spec.by_item (matches (expand x.now) (target_of x.now)) layer.now (number, item.now)) }
{
    match item {
        Item::Rule(rule) => push_rule(found, alloc, x, layer, number, rule),
        Item::KeptRule(_) | Item::KeptBlock(_) => Ok(()),
    }
}

/// Puts the entries of these items, which are those of a level, after the others.
fn push_items<'a>(
    found: &mut Vec<Entry<'a>>,
    alloc: Global,
    x: &Example,
    layer: &Layer<'a>,
    items: &'a [Item],
) -> Result<(), AllocError>
    requires rules { KeepsRules x.now }
    requires small { AllByRecursion HasSmallSelectors items.now }
    requires short { length layer.now.source ≤ max_bytes }
    requires sound { IsSound layer.now.source items.now }
    ensures { OnOk result (found.new.items
        ≡ found.old.items ++ flat_map (spec.by_item (matches (expand x.now) (target_of x.now)) layer.now) (enumerate_from 0 items.now)) }
{
    let mut number = 0;
    let mut rest = items;
    'items: while let [item, others @ ..] = rest {
        push_item(found, alloc, x, layer, number, item)?;
        number += 1;
        rest = others;
    }
    Ok(())
}

/// Puts the entries of a level after the others.
fn push_layer<'a>(
    found: &mut Vec<Entry<'a>>,
    alloc: Global,
    x: &Example,
    layer: &Layer<'a>,
) -> Result<(), AllocError>
    requires rules { KeepsRules x.now }
    requires read { sheet_of layer.now.source ≡ Ok layer.now.items }
    ensures { OnOk result (found.new.items
        ≡ found.old.items ++ spec.by_layer (matches (expand x.now) (target_of x.now)) layer.now) }
{
    // Laws, which do nothing.
    read_is_sound();
    read_selectors_keep_the_limits();
    push_items(found, alloc, x, layer, layer.items)
}

/// Puts the entries of the body of an opened block, whose head has this kept text, after the others.
fn push_body<'a>(
    found: &mut Vec<Entry<'a>>,
    alloc: Global,
    x: &Example,
    source: &'a [u8],
    block: &'a Media,
    head: &'a Bytes,
) -> Result<(), AllocError>
    requires rules { KeepsRules x.now }
    requires block { IsBlockOf source.now block.now }
    requires head { head.now ≡ kept_text source.now block.now.head }
    ensures { OnOk result (found.new.items
        ≡ found.old.items ++ spec.by_layer (matches (expand x.now) (target_of x.now)) (spec.body_layer source.now block.now)) }
{
    let layer = Layer {
        block: Some(block.item),
        head: Some(head.bytes()),
        start: block.body.start,
        source: block.body.text(source),
        items: &block.sheet.items,
    };
    push_layer(found, alloc, x, &layer)
}

/// Puts the entries of the bodies of opened blocks, whose heads have these kept texts, after the others.
fn push_bodies<'a>(
    found: &mut Vec<Entry<'a>>,
    alloc: Global,
    x: &Example,
    source: &'a [u8],
    media: &'a [Media],
    heads: &'a [Bytes],
) -> Result<(), AllocError>
    requires rules { KeepsRules x.now }
    requires blocks { AllByRecursion (IsBlockOf source.now) media.now }
    requires heads { heads.now ≡ map (λ m. kept_text source.now m.head) media.now }
    ensures { OnOk result (found.new.items ≡ found.old.items
        ++ flat_map (λ m. spec.by_layer (matches (expand x.now) (target_of x.now)) (spec.body_layer source.now m)) media.now) }
{
    for number in 0..media.len() {
        push_body(found, alloc, x, source, &media[number], &heads[number])?;
    }
    Ok(())
}

/// The kept text of the head of an opened block.
fn head_of(alloc: Global, reading: &Reading<'_>, block: &Media) -> Result<Bytes, AllocError>
    ensures { IfOk result (λ head. head ≡ kept_text reading.now.source.now block.now.head) }
{
    let mut head = Vec::new(alloc);
    put_piece(&mut head, reading, block.head)?;
    Ok(Bytes::new(head))
}

/// The kept texts of the heads of opened blocks.
pub(crate) fn heads_of(
    alloc: Global,
    reading: &Reading<'_>,
    media: &[Media],
) -> Result<Vec<Bytes>, AllocError>
    ensures { IfOk result (λ heads. heads.items ≡ map (λ m. kept_text reading.now.source.now m.head) media.now) }
{
    let mut heads = Vec::new(alloc);
    for block in media {
        heads.push(head_of(alloc, reading, block)?)?;
    }
    Ok(heads)
}

/// What the rules of a sheet and of its opened bodies apply to the target of an example. The sheet was read from this
/// source, and these are its opened blocks, with the kept texts of their heads.
pub(crate) fn entries_of<'a>(
    alloc: Global,
    x: &Example,
    source: &'a [u8],
    sheet: &'a Sheet,
    media: &'a [Media],
    heads: &'a [Bytes],
) -> Result<Vec<Entry<'a>>, AllocError>
    requires rules { KeepsRules x.now }
    requires read { sheet_of source.now ≡ Ok sheet.now.items }
    requires blocks { media.now ≡ opened_of sheet.now.items source.now }
    requires heads { heads.now ≡ map (λ m. kept_text source.now m.head) media.now }
    ensures { IfOk result (λ found. found.items ≡ spec.entries_of x.now source.now sheet.now.items) }
{
    // A law, which does nothing.
    opened_blocks_are_sheets();
    let mut found = Vec::new(alloc);
    let layer = Layer {
        block: None,
        head: None,
        start: 0,
        source,
        items: &sheet.items,
    };
    push_layer(&mut found, alloc, x, &layer)?;
    push_bodies(&mut found, alloc, x, source, media, heads)?;
    Ok(found)
}
