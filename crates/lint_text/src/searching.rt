//! What is found in a sheet, by what is held for its selectors.

ghost use Rattle.std.specs.Prelude.{◌≡◌, ◌≤◌, ◌++◌, Ok, length, IfOk, OnOk};
ghost use Rattle.std.specs.List.{AllByRecursion, enumerate_from, flat_map};
ghost use Rattle.css_model.specs.Sheets.Limits.{max_bytes};
ghost use Rattle.css_model.specs.Sheets.Sheet.{sheet_of};
ghost use Rattle.css_model.specs.Sheets.Sound.{IsSound, IsSoundDeclaration, IsSoundItem, IsSoundRule, IsSoundSelector};
ghost use Rattle.dead_sel.specs.Held.{is_dead};
ghost use Rattle.media_groups.specs.Laws.{IsBlockOf};
ghost use Rattle.media_groups.specs.Levels.{body_level};
ghost use Rattle.media_groups.specs.Opened.{opened_of};
ghost use Rattle.order_laws.specs.Places as places;
ghost use Rattle.lint_text.specs.Findings as spec;

use crate::finding::Finding;
use crate::level::Level;
use crate::telling::{push_dead, push_repeated};
use css_model::{DeclItem, Item, Rule, SelItem, Sheet};
use line_places::Lines;
use media_groups::{Media, opened_blocks_are_sheets};
use merge_laws::read_keeps_the_limits;
use overlap::Pairs;
use sheet_laws::read_is_sound;
use sheet_order::{PairIndex, last_pairs};
use std::alloc::{AllocError, Global};

/// Puts the selectors of a rule that match nothing after what was found.
fn find_dead(
    found: &mut Vec<Finding>,
    alloc: Global,
    pairs: &Pairs,
    level: &Level<'_, '_>,
    selectors: &[SelItem],
) -> Result<(), AllocError>
    requires short { length level.now.source ≤ max_bytes }
    requires sound { AllByRecursion (IsSoundSelector level.now.source) selectors.now }
    ensures { OnOk result (found.new.items ≡ found.old.items ++ flat_map (spec.dead_of (is_dead pairs.now.answers) level.now) selectors.now) }
{
    let mut rest = selectors;
    'selectors: while let [s, others @ ..] = rest {
        push_dead(found, alloc, pairs, level, s)?;
        rest = others;
    }
    Ok(())
}

/// Puts the repeated ones of the declarations of the rule of this number, which has these selectors, after what was
/// found.
fn find_repeated<'a>(
    found: &mut Vec<Finding>,
    alloc: Global,
    level: &Level<'a, '_>,
    item: usize,
    selectors: &'a [SelItem],
    decls: &'a [DeclItem],
) -> Result<(), AllocError>
    requires { AllByRecursion (IsSoundDeclaration level.now.source) decls.now }
    ensures { OnOk result (found.new.items ≡ found.old.items ++ flat_map (spec.repeated_of level.now item selectors.now) (enumerate_from 0 decls.now)) }
{
    let mut number = 0;
    let mut rest = decls;
    'decls: while let [d, others @ ..] = rest {
        push_repeated(found, alloc, level, item, selectors, number, d)?;
        number += 1;
        rest = others;
    }
    Ok(())
}

/// Puts what is found in the rule of this number after what was found.
fn find_in_rule<'a>(
    found: &mut Vec<Finding>,
    alloc: Global,
    pairs: &Pairs,
    level: &Level<'a, '_>,
    item: usize,
    rule: &'a Rule,
) -> Result<(), AllocError>
    requires short { length level.now.source ≤ max_bytes }
    requires sound { IsSoundRule level.now.source rule.now }
    ensures { OnOk result (found.new.items
        ≡ found.old.items ++ (flat_map (spec.dead_of (is_dead pairs.now.answers) level.now) rule.now.selectors
        ++ flat_map (spec.repeated_of level.now item rule.now.selectors) (enumerate_from 0 rule.now.decls))) }
{
    find_dead(found, alloc, pairs, level, &rule.selectors)?;
    find_repeated(found, alloc, level, item, &rule.selectors, &rule.decls)
}

/// Puts what is found in the item of this number after what was found.
fn find_in_item<'a>(
    found: &mut Vec<Finding>,
    alloc: Global,
    pairs: &Pairs,
    level: &Level<'a, '_>,
    number: usize,
    item: &'a Item,
) -> Result<(), AllocError>
    requires short { length level.now.source ≤ max_bytes }
    requires sound { IsSoundItem level.now.source item.now }
    ensures { OnOk result (found.new.items ≡ found.old.items ++ spec.found_of (is_dead pairs.now.answers) level.now (number, item.now)) }
{
    match item {
        Item::Rule(rule) => find_in_rule(found, alloc, pairs, level, number, rule),
        Item::KeptRule(_) | Item::KeptBlock(_) => Ok(()),
    }
}

/// Puts what is found in a level after what was found.
fn find_in_items<'a>(
    found: &mut Vec<Finding>,
    alloc: Global,
    pairs: &Pairs,
    level: &Level<'a, '_>,
    items: &'a [Item],
) -> Result<(), AllocError>
    requires short { length level.now.source ≤ max_bytes }
    requires sound { IsSound level.now.source items.now }
    ensures { OnOk result (found.new.items ≡ found.old.items ++ flat_map (spec.found_of (is_dead pairs.now.answers) level.now) (enumerate_from 0 items.now)) }
{
    let mut number = 0;
    let mut rest = items;
    'items: while let [item, others @ ..] = rest {
        find_in_item(found, alloc, pairs, level, number, item)?;
        number += 1;
        rest = others;
    }
    Ok(())
}

/// Puts what is found in a level with these bytes and items after what was found. Its bytes begin at this place in the
/// sheet.
fn find_in_level(
    found: &mut Vec<Finding>,
    alloc: Global,
    pairs: &Pairs,
    lines: &Lines<'_>,
    start: u32,
    source: &[u8],
    items: &[Item],
) -> Result<(), AllocError>
    requires { sheet_of source.now ≡ Ok items.now }
    ensures { OnOk result (found.new.items ≡ found.old.items ++ spec.found_in (is_dead pairs.now.answers)
        (record { text = lines.now.text.now; start = start; source = source.now; items = items.now; lasts = places.last_pairs items.now })) }
{
    // Laws, which do nothing.
    read_is_sound();
    read_keeps_the_limits();
    let placed = last_pairs(alloc, None, items)?;
    let lasts = PairIndex::new(alloc, &placed)?;
    let level = Level::new(lines, start, source, items, &lasts);
    find_in_items(found, alloc, pairs, &level, items)
}

/// Puts what is found in the body of an opened block after what was found.
fn find_in_body(
    found: &mut Vec<Finding>,
    alloc: Global,
    pairs: &Pairs,
    lines: &Lines<'_>,
    block: &Media,
) -> Result<(), AllocError>
    requires { IsBlockOf lines.now.text.now block.now }
    ensures { OnOk result (found.new.items ≡ found.old.items
        ++ spec.found_in (is_dead pairs.now.answers) (spec.seen_of lines.now.text.now (body_level lines.now.text.now block.now))) }
{
    let source = block.body.text(lines.text);
    find_in_level(
        found,
        alloc,
        pairs,
        lines,
        block.body.start,
        source,
        &block.sheet.items,
    )
}

/// Puts what is found in the bodies of opened blocks after what was found.
fn find_in_bodies(
    found: &mut Vec<Finding>,
    alloc: Global,
    pairs: &Pairs,
    lines: &Lines<'_>,
    media: &[Media],
) -> Result<(), AllocError>
    requires { AllByRecursion (IsBlockOf lines.now.text.now) media.now }
    ensures { OnOk result (found.new.items ≡ found.old.items
        ++ flat_map (λ m. spec.found_in (is_dead pairs.now.answers) (spec.seen_of lines.now.text.now (body_level lines.now.text.now m))) media.now) }
{
    let mut rest = media;
    'bodies: while let [block, others @ ..] = rest {
        find_in_body(found, alloc, pairs, lines, block)?;
        rest = others;
    }
    Ok(())
}

/// What is found in a sheet that was read from this text, whose opened blocks these are.
pub(crate) fn find_all(
    alloc: Global,
    pairs: &Pairs,
    text: &[u8],
    sheet: &Sheet,
    media: &[Media],
) -> Result<Vec<Finding>, AllocError>
    requires read { sheet_of text.now ≡ Ok sheet.now.items }
    requires blocks { media.now ≡ opened_of sheet.now.items text.now }
    ensures { IfOk result (λ found. found.items ≡ spec.findings (is_dead pairs.now.answers) text.now sheet.now.items) }
{
    // A law, which does nothing.
    opened_blocks_are_sheets();
    let lines = Lines::new(alloc, text)?;
    let mut found = Vec::new(alloc);
    find_in_level(&mut found, alloc, pairs, &lines, 0, text, &sheet.items)?;
    find_in_bodies(&mut found, alloc, pairs, &lines, media)?;
    Ok(found)
}
