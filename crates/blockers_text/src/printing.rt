//! The lines of an item that stops steps.

ghost use Rattle.std.specs.Prelude.{◌≡◌, ◌≤◌, ◌+◌, ◌++◌, codes, decimal, length, slice_get, IfOk, OnOk};
ghost use Rattle.std.specs.Option.{option_copied};
ghost use Rattle.css_model.specs.Sheets.Limits.{max_bytes};
ghost use Rattle.css_model.specs.Sheets.Sheet as sheet;
ghost use Rattle.css_model.specs.Sheets.Sound.{IsSound, IsSoundDeclaration, IsSoundItem, IsSoundSelector};
ghost use Rattle.line_places.specs.Shown as shown;
ghost use Rattle.media_groups.specs.Heads.{head_text};
ghost use Rattle.blockers_text.specs.Lines as spec;
ghost use Rattle.blockers_text.specs.Sound.{AreSound};

use crate::entries::{decl_at, selector_at};
use crate::kinds::{first_item, kind_name};
use crate::seen::Seen;
use crate::stopped::Best;
use crate::tally::Tally;
use css_model::{DeclItem, Item, SelItem};
use css_print::{print_decl, print_selector};
use itoa::Buffer;
use line_places::{put_place, put_shown};
use media_groups::put_head;
use sheet_order::{Other, PairPlace};
use std::alloc::{AllocError, Global};
use step_laws::Step;

/// Appends a number in decimal, after a space.
pub(crate) fn push_number(out: &mut Vec<u8>, number: u128) -> Result<(), AllocError>
    ensures { OnOk result (out.new.items ≡ out.old.items ++ (codes " " ++ decimal number)) }
{
    let mut buffer = Buffer::new();
    out.extend_from_slice(b" ")?;
    out.extend_from_slice(buffer.format(number).as_bytes())
}

// ---- Places

/// Where the first of some selectors begins.
fn start_of_first(selectors: &[SelItem]) -> u32
    ensures { result ≡ sheet.start_of_first selectors.now }
{
    match selectors {
        [] => 0,
        [first, ..] => first.piece.start,
    }
}

/// Where an item begins in the bytes of its level.
fn start_of(item: &Item) -> u32
    ensures { result ≡ sheet.start_of item.now }
{
    match item {
        Item::Rule(rule) => start_of_first(&rule.selectors),
        Item::KeptRule(rule) => rule.piece.start,
        Item::KeptBlock(piece) => piece.start,
    }
}

/// Where the item of this number begins; 0 if there is none.
fn item_start(items: &[Item], number: u32) -> u32
    ensures { result ≡ spec.item_start (slice_get items.now number) }
{
    match items.get(number as usize) {
        Some(item) => start_of(item),
        None => 0,
    }
}

/// Where a selector begins, if there is one.
fn selector_start(selector: Option<&SelItem>) -> u32
    ensures { result ≡ spec.selector_start (option_copied selector.entry) }
{
    match selector {
        Some(selector) => selector.piece.start,
        None => 0,
    }
}

/// Where a declaration begins, if there is one.
fn decl_start(decl: Option<&DeclItem>) -> u32
    ensures { result ≡ spec.decl_start (option_copied decl.entry) }
{
    match decl {
        Some(decl) => decl.name.start,
        None => 0,
    }
}

/// Where the lower rule of a step begins, or the part that a cut takes away.
fn second_start(items: &[Item], step: &Step) -> u32
    ensures { result ≡ spec.second_start items.now step.now }
{
    match *step {
        Step::CutDecl { item, decl } => decl_start(decl_at(
            items,
            PairPlace { item, sel: 0, decl },
        )),
        Step::CutSel { item, sel } => selector_start(selector_at(
            items,
            PairPlace { item, sel, decl: 0 },
        )),
        Step::JoinSelUp { lower, .. }
        | Step::JoinSelDown { lower, .. }
        | Step::JoinDeclUp { lower, .. }
        | Step::JoinDeclDown { lower, .. }
        | Step::Share { lower, .. } => item_start(items, lower),
    }
}

/// Appends a place of a level by its line and column in the sheet, after a space.
fn push_place(out: &mut Vec<u8>, level: &Seen<'_>, at: u32) -> Result<(), AllocError>
    ensures { OnOk result (out.new.items ≡ out.old.items ++ (codes " " ++ spec.place_in level.now at)) }
{
    out.extend_from_slice(b" ")?;
    put_place(out, level.lines.place(level.start as usize + at as usize))
}

// ---- Pairs

/// The text of a selector and a declaration as a rule.
fn print_rule(
    alloc: Global,
    source: &[u8],
    selector: &SelItem,
    decl: &DeclItem,
) -> Result<Vec<u8>, AllocError>
    requires length { length source.now ≤ max_bytes }
    requires selector { IsSoundSelector source.now selector.now }
    requires decl { IsSoundDeclaration source.now decl.now }
    ensures { IfOk result (λ text. text.items ≡ spec.rule_text source.now selector.now decl.now) }
{
    let mut text = print_selector(alloc, selector, source)?;
    text.push(b'{')?;
    let declaration = print_decl(alloc, decl, source)?;
    text.extend_from_slice(declaration.as_slice())?;
    text.push(b'}')?;
    Ok(text)
}

/// The same, or nothing if one is missing.
fn print_parts(
    alloc: Global,
    source: &[u8],
    selector: Option<&SelItem>,
    decl: Option<&DeclItem>,
) -> Result<Vec<u8>, AllocError>
    requires length { length source.now ≤ max_bytes }
    requires sound { AreSound source.now (option_copied selector) (option_copied decl) }
    ensures { IfOk result (λ text. text.items ≡ spec.parts_text source.now (option_copied selector.entry) (option_copied decl.entry)) }
{
    match (selector, decl) {
        (Some(selector), Some(decl)) => print_rule(alloc, source, selector, decl),
        _ => Ok(Vec::new(alloc)),
    }
}

/// Appends the pair at a place, after a space.
fn push_pair(
    out: &mut Vec<u8>,
    alloc: Global,
    level: &Seen<'_>,
    place: PairPlace,
) -> Result<(), AllocError>
    requires length { length level.now.source ≤ max_bytes }
    requires sound { IsSound level.now.source level.now.items }
    ensures { OnOk result (out.new.items ≡ out.old.items ++ (codes " " ++ spec.pair_text level.now place)) }
{
    let source = level.reading.source;
    let selector = selector_at(level.items, place);
    let decl = decl_at(level.items, place);
    let text = print_parts(alloc, source, selector, decl)?;
    out.extend_from_slice(b" ")?;
    put_shown(out, &text)
}

/// Appends the pair that an entry names, after a space, or nothing if it names a kept item.
fn push_other(
    out: &mut Vec<u8>,
    alloc: Global,
    level: &Seen<'_>,
    other: Other,
) -> Result<(), AllocError>
    requires length { length level.now.source ≤ max_bytes }
    requires sound { IsSound level.now.source level.now.items }
    ensures { OnOk result (out.new.items ≡ out.old.items ++ spec.other_text level.now other) }
{
    match other {
        Other::Pair(place) => push_pair(out, alloc, level, place),
        Other::Kept(_) => Ok(()),
    }
}

// ---- The lines of an item

/// Appends the numbers of a tally.
fn push_numbers(out: &mut Vec<u8>, tally: &Tally) -> Result<(), AllocError>
    ensures { OnOk result (out.new.items ≡ out.old.items ++ spec.numbers_text tally.now) }
{
    push_number(out, tally.steps)?;
    push_number(out, tally.bytes)?;
    push_number(out, tally.alone)?;
    push_number(out, tally.alone_bytes)
}

/// Appends the head of an item, as it is shown on a line, after a space.
fn push_head(
    out: &mut Vec<u8>,
    alloc: Global,
    level: &Seen<'_>,
    item: &Item,
) -> Result<(), AllocError>
    requires { IsSoundItem level.now.source item.now }
    ensures { OnOk result (out.new.items ≡ out.old.items ++ (codes " " ++ shown.shown (head_text level.now.source item.now))) }
{
    let mut head = Vec::new(alloc);
    put_head(alloc, &mut head, level.reading, item)?;
    out.extend_from_slice(b" ")?;
    put_shown(out, &head)
}

/// Appends the line on the steps that an item stops.
fn push_stops(
    out: &mut Vec<u8>,
    alloc: Global,
    level: &Seen<'_>,
    item: &Item,
    tally: &Tally,
) -> Result<(), AllocError>
    requires { IsSoundItem level.now.source item.now }
    ensures { OnOk result (out.new.items ≡ out.old.items ++ spec.stops_line level.now item.now tally.now) }
{
    out.extend_from_slice(b"stops")?;
    push_numbers(out, tally)?;
    push_place(out, level, start_of(item))?;
    push_head(out, alloc, level, item)?;
    out.extend_from_slice(b"\n")?;
    Ok(())
}

/// Appends what a step takes: where its rules begin, or its rule and the part that it cuts.
fn push_taken(out: &mut Vec<u8>, level: &Seen<'_>, step: &Step) -> Result<(), AllocError>
    ensures { OnOk result (out.new.items ≡ out.old.items ++ spec.taken_text level.now step.now) }
{
    out.extend_from_slice(b" ")?;
    out.extend_from_slice(kind_name(step))?;
    push_place(out, level, item_start(level.items, first_item(step)))?;
    push_place(out, level, second_start(level.items, step))
}

/// Appends the line on a step that one item stops.
fn push_best_step(
    out: &mut Vec<u8>,
    alloc: Global,
    level: &Seen<'_>,
    best: &Best,
) -> Result<(), AllocError>
    requires length { length level.now.source ≤ max_bytes }
    requires sound { IsSound level.now.source level.now.items }
    ensures { OnOk result (out.new.items ≡ out.old.items ++ spec.best_text level.now best.now) }
{
    out.extend_from_slice(b"best")?;
    push_number(out, u128::from(best.saved))?;
    push_taken(out, level, &best.step)?;
    push_pair(out, alloc, level, best.entry.moved)?;
    push_other(out, alloc, level, best.entry.other)?;
    out.extend_from_slice(b"\n")
}

/// Appends the line on the best step that an item alone stops, if there is one.
fn push_best(
    out: &mut Vec<u8>,
    alloc: Global,
    level: &Seen<'_>,
    best: &Option<Best>,
) -> Result<(), AllocError>
    requires length { length level.now.source ≤ max_bytes }
    requires sound { IsSound level.now.source level.now.items }
    ensures { OnOk result (out.new.items ≡ out.old.items ++ spec.best_line level.now best.now) }
{
    match best {
        Some(best) => push_best_step(out, alloc, level, best),
        None => Ok(()),
    }
}

/// The lines of an item that stops steps.
pub(crate) fn item_lines(
    alloc: Global,
    level: &Seen<'_>,
    item: &Item,
    tally: &Tally,
) -> Result<Vec<u8>, AllocError>
    requires length { length level.now.source ≤ max_bytes }
    requires sound { IsSound level.now.source level.now.items }
    requires item { IsSoundItem level.now.source item.now }
    ensures { IfOk result (λ lines. lines.items ≡ spec.item_lines level.now item.now tally.now) }
{
    let mut out = Vec::new(alloc);
    push_stops(&mut out, alloc, level, item, tally)?;
    push_best(&mut out, alloc, level, &tally.best)?;
    Ok(out)
}
