//! A sheet laid flat.

ghost use Rattle.std.specs.Prelude.{◌≡◌, ◌++◌, ◌∷◌, [], List, IfOk, OnOk, map};
ghost use Rattle.std.specs.List.{enumerate_from, flat_map};
ghost use Rattle.std.specs.Option.{option_copied};
ghost use Rattle.css_model.specs.declared.sheet.SelItem as css;
ghost use Rattle.css_model.specs.Sheets.Sound.{IsSound, IsSoundItem};
ghost use Rattle.media_groups.specs.Heads.{head_text};
ghost use Rattle.normal_text.specs.Normal as normal;
ghost use Rattle.order_laws.specs.Members.{has_selector};
ghost use Rattle.sheet_members.specs.Layers as layers;
ghost use Rattle.sheet_members.specs.Repeats.{AreSelectors};
ghost use Rattle.sheet_members.specs.Occurrences as spec;

use crate::layer::Layer;
use crate::occurrence::{Occurrence, Part};
use css_model::{Bytes, DeclItem, Item, Rule, SelItem};
use media_groups::{Reading, put_head, put_piece};
use normal_text::{normal_kept, normal_value};
use rule_parts::SelectorKey;
use sheet_laws::read_is_sound;
use std::alloc::{AllocError, Global};
use std::collections::HashSet;
use std::marker::Model;

/// A selector of a rule, and whether it comes in its rule before.
#[derive(Drop)]
struct RuleSelector<'a> {
    item: &'a SelItem,
    repeated: bool,
}

impl<'a> Model for RuleSelector<'a> {
    ghost use Rattle.std.specs.Prelude.{Bool};
    ghost use Rattle.css_model.specs.declared.sheet.SelItem as declared;

    ghost Value = { declared.SelItem × Bool };

    ghost view = { λ s. (s.item.now, s.repeated) };
}

/// Puts a selector to those before. It says whether it was among them.
#[tactic(auto, using(crate::proofs::Repeats::was_among, crate::proofs::Repeats::selectors_with))]
fn put_selector<'a>(
    before: &mut HashSet<SelectorKey<'a>>,
    s: &'a SelItem,
) -> Result<bool, AllocError>
    ensures repeats { IfOk result (λ repeated. (earlier : List css.SelItem) → AreSelectors earlier before.old.keys
        → repeated ≡ has_selector earlier s.now.selector) }
    ensures kept { OnOk result ((earlier : List css.SelItem) → AreSelectors earlier before.old.keys
        → AreSelectors (earlier ++ s.now ∷ []) before.new.keys) }
{
    let new = before.insert(SelectorKey {
        selector: &s.selector,
    })?;
    Ok(!new)
}

/// Some selectors, each with whether it comes before.
#[tactic(auto, using(crate::proofs::Repeats::no_selectors, crate::proofs::Repeats::repeats_next, crate::proofs::Repeats::selectors_next))]
fn with_repeats<'a>(
    alloc: Global,
    selectors: &'a [SelItem],
) -> Result<Vec<RuleSelector<'a>>, AllocError>
    ensures { IfOk result (λ found. found.items ≡ spec.with_repeats [] selectors.now) }
{
    let mut found = Vec::with_capacity(alloc, selectors.len())?;
    let mut before: HashSet<SelectorKey<'_>> = HashSet::new(alloc);
    for number in 0..selectors.len() {
        let item = &selectors[number];
        let repeated = put_selector(&mut before, item)?;
        found.push(RuleSelector { item, repeated })?;
    }
    Ok(found)
}

/// Puts the pairs of a declaration of the item of this number after the others. The normal text of its value is given.
fn push_decl<'a>(
    found: &mut Vec<Occurrence<'a>>,
    alloc: Global,
    layer: &'a Layer<'a>,
    item: usize,
    d: &'a DeclItem,
    text: &Bytes,
    selectors: &[RuleSelector<'a>],
) -> Result<(), AllocError>
    requires { text.now ≡ normal.normal_value d.now.decl }
    ensures { OnOk result (found.new.items ≡ found.old.items ++ map (spec.pair_of layer.now item d.now) selectors.now) }
{
    let mut rest = selectors;
    'selectors: while let [s, others @ ..] = rest {
        found.push(Occurrence {
            layer,
            item,
            part: Part::Pair(s.item, d),
            text: text.copy()?,
            front: Bytes::new(Vec::new(alloc)),
            repeated: s.repeated,
        })?;
        rest = others;
    }
    Ok(())
}

/// Puts the pairs of the declarations of the item of this number after the others.
fn push_decls<'a>(
    found: &mut Vec<Occurrence<'a>>,
    alloc: Global,
    layer: &'a Layer<'a>,
    item: usize,
    decls: &'a [DeclItem],
    selectors: &[RuleSelector<'a>],
) -> Result<(), AllocError>
    ensures { OnOk result (found.new.items
        ≡ found.old.items ++ flat_map (λ d. map (spec.pair_of layer.now item d) selectors.now) decls.now) }
{
    let mut rest = decls;
    'decls: while let [d, others @ ..] = rest {
        let text = normal_value(alloc, &d.decl)?;
        push_decl(found, alloc, layer, item, d, &text, selectors)?;
        rest = others;
    }
    Ok(())
}

/// Puts the pairs of the rule of this number after the others.
fn push_rule<'a>(
    found: &mut Vec<Occurrence<'a>>,
    alloc: Global,
    layer: &'a Layer<'a>,
    item: usize,
    rule: &'a Rule,
) -> Result<(), AllocError>
    ensures { OnOk result (found.new.items ≡ found.old.items ++ spec.by_rule layer.now item rule.now) }
{
    let selectors = with_repeats(alloc, &rule.selectors)?;
    push_decls(found, alloc, layer, item, &rule.decls, &selectors)
}

/// The normal text of a kept item.
fn item_text(alloc: Global, reading: &Reading<'_>, item: &Item) -> Result<Bytes, AllocError>
    ensures { IfOk result (λ text. text ≡ normal.normal_kept (spec.item_text reading.now.source.now item.now)) }
{
    let mut text = Vec::new(alloc);
    match item {
        Item::Rule(_) => {}
        Item::KeptRule(rule) => put_piece(&mut text, reading, rule.piece)?,
        Item::KeptBlock(piece) => put_piece(&mut text, reading, *piece)?,
    }
    normal_kept(alloc, &text)
}

/// The normal text of the head of a kept item.
fn item_front(alloc: Global, reading: &Reading<'_>, item: &Item) -> Result<Bytes, AllocError>
    requires { IsSoundItem reading.now.source.now item.now }
    ensures { IfOk result (λ front. front ≡ normal.normal_kept (head_text reading.now.source.now item.now)) }
{
    let mut front = Vec::new(alloc);
    put_head(alloc, &mut front, reading, item)?;
    normal_kept(alloc, &front)
}

/// Puts a kept item with its number after the others.
fn push_kept<'a>(
    found: &mut Vec<Occurrence<'a>>,
    alloc: Global,
    layer: &'a Layer<'a>,
    number: usize,
    item: &'a Item,
) -> Result<(), AllocError>
    requires { IsSoundItem layer.now.source item.now }
    ensures { OnOk result (found.new.items ≡ found.old.items ++ spec.kept_of layer.now number item.now ∷ []) }
{
    let text = item_text(alloc, &layer.reading, item)?;
    let front = item_front(alloc, &layer.reading, item)?;
    found.push(Occurrence {
        layer,
        item: number,
        part: Part::Kept(item),
        text,
        front,
        repeated: false,
    })?;
    Ok(())
}

/// Puts what occurs in an item with its number, which is not opened, after the others.
fn push_item<'a>(
    found: &mut Vec<Occurrence<'a>>,
    alloc: Global,
    layer: &'a Layer<'a>,
    number: usize,
    item: &'a Item,
) -> Result<(), AllocError>
    requires { IsSoundItem layer.now.source item.now }
    ensures { OnOk result (found.new.items ≡ found.old.items ++ spec.by_item layer.now (number, item.now)) }
{
    match item {
        Item::Rule(rule) => push_rule(found, alloc, layer, number, rule),
        Item::KeptRule(_) | Item::KeptBlock(_) => push_kept(found, alloc, layer, number, item),
    }
}

/// Puts what occurs in these items of a body after the others.
fn push_items<'a>(
    found: &mut Vec<Occurrence<'a>>,
    alloc: Global,
    layer: &'a Layer<'a>,
    items: &'a [Item],
) -> Result<(), AllocError>
    requires { IsSound layer.now.source items.now }
    ensures { OnOk result (found.new.items ≡ found.old.items ++ flat_map (spec.by_item layer.now) (enumerate_from 0 items.now)) }
{
    let mut number = 0;
    let mut rest = items;
    'items: while let [item, others @ ..] = rest {
        push_item(found, alloc, layer, number, item)?;
        number += 1;
        rest = others;
    }
    Ok(())
}

/// Puts what occurs in a body after the others.
fn push_body<'a>(
    found: &mut Vec<Occurrence<'a>>,
    alloc: Global,
    layer: &'a Layer<'a>,
) -> Result<(), AllocError>
    ensures { OnOk result (found.new.items ≡ found.old.items ++ spec.by_body layer.now) }
{
    // A law, which does nothing.
    read_is_sound();
    push_items(found, alloc, layer, layer.items)
}

/// Whether a layer is the body of the item of this number.
fn is_number(number: usize, layer: &Layer<'_>) -> bool
    ensures { result ≡ layers.is_number number layer.now.block }
{
    match layer.block {
        None => false,
        Some(block) => block as usize == number,
    }
}

/// The body of the item of this number, if it is an opened block.
fn body_at<'a>(bodies: &'a [Layer<'a>], number: usize) -> Option<&'a Layer<'a>>
    ensures { option_copied result ≡ layers.body_at bodies.now number }
{
    let mut rest = bodies;
    'bodies: while let [body, others @ ..] = rest {
        if is_number(number, body) {
            return Some(body);
        }
        rest = others;
    }
    None
}

/// Puts what occurs in a kept block with its number, which may be opened, after the others.
fn push_block<'a>(
    found: &mut Vec<Occurrence<'a>>,
    alloc: Global,
    layer: &'a Layer<'a>,
    bodies: &'a [Layer<'a>],
    number: usize,
    item: &'a Item,
) -> Result<(), AllocError>
    requires { IsSoundItem layer.now.source item.now }
    ensures { OnOk result (found.new.items ≡ found.old.items
        ++ spec.by_opened layer.now (number, item.now) (layers.body_at bodies.now number)) }
{
    match body_at(bodies, number) {
        None => push_item(found, alloc, layer, number, item),
        Some(body) => push_body(found, alloc, body),
    }
}

/// Puts what occurs in an item of the sheet with its number after the others.
fn push_outer_item<'a>(
    found: &mut Vec<Occurrence<'a>>,
    alloc: Global,
    layer: &'a Layer<'a>,
    bodies: &'a [Layer<'a>],
    number: usize,
    item: &'a Item,
) -> Result<(), AllocError>
    requires { IsSoundItem layer.now.source item.now }
    ensures { OnOk result (found.new.items ≡ found.old.items ++ spec.by_outer_item bodies.now layer.now (number, item.now)) }
{
    match item {
        Item::Rule(_) | Item::KeptRule(_) => push_item(found, alloc, layer, number, item),
        Item::KeptBlock(_) => push_block(found, alloc, layer, bodies, number, item),
    }
}

/// Puts what occurs in these items of the sheet after the others.
fn push_outer_items<'a>(
    found: &mut Vec<Occurrence<'a>>,
    alloc: Global,
    layer: &'a Layer<'a>,
    bodies: &'a [Layer<'a>],
    items: &'a [Item],
) -> Result<(), AllocError>
    requires { IsSound layer.now.source items.now }
    ensures { OnOk result (found.new.items
        ≡ found.old.items ++ flat_map (spec.by_outer_item bodies.now layer.now) (enumerate_from 0 items.now)) }
{
    let mut number = 0;
    let mut rest = items;
    'items: while let [item, others @ ..] = rest {
        push_outer_item(found, alloc, layer, bodies, number, item)?;
        number += 1;
        rest = others;
    }
    Ok(())
}

/// What occurs in a sheet: its pairs and kept items in the order of appearance, the body of an opened block in the place
/// of the block. These are the sheet itself and its bodies. `AllocError` where memory is short.
pub fn occurrences_of<'a>(
    alloc: Global,
    layer: &'a Layer<'a>,
    bodies: &'a [Layer<'a>],
) -> Result<Vec<Occurrence<'a>>, AllocError>
    ensures { IfOk result (λ found. found.items
        ≡ flat_map (spec.by_outer_item bodies.now layer.now) (enumerate_from 0 layer.now.items)) }
{
    // A law, which does nothing.
    read_is_sound();
    let mut found = Vec::new(alloc);
    push_outer_items(&mut found, alloc, layer, bodies, layer.items)?;
    Ok(found)
}
