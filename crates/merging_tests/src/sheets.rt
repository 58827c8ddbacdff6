//! Sheets that are read, and sheets after a step; places and steps of many tests.

ghost use Rattle.std.specs.Prelude.{◌≡◌, ◌≤◌, Ok, length};
ghost use Rattle.css_model.specs.Sheets.Limits.{max_bytes, max_items};
ghost use Rattle.css_model.specs.Sheets.Sheet.{sheet_of};
ghost use Rattle.css_model.specs.Sheets.Sound.{IsSound};
ghost use Rattle.order_laws.specs.Edits.{Edit, edited};
ghost use Rattle.plan_laws.specs.Plannable.{IsPlannable};
ghost use Rattle.sheet_order.specs.Narrow.{CanBePlanned};
ghost use Rattle.step_laws.specs.Sizes.{size};
ghost use Rattle.step_laws.specs.Steps.{HasStep, IsStep};

use css_model::{MAX_BYTES, Sheet};
use css_print::print_len;
use merge_laws::read_is_plannable;
use merge_steps::{Step, apply};
use sheet_order::PairPlace;
use sheet_read::read_sheet;
use std::alloc::Global;
use std::process::Abort;
use step_laws::{each_is_made_of_itself, steps_make_of};

/// The usual sheet of a page.
pub(crate) const PAGE: &str = "/* base */
@font-face { font-family: \"Icon\"; src: url(icon.woff) }
html { font-size: 16px; -webkit-text-size-adjust: 100% }
body { margin: 0; color: #222 }
h1, h2 { margin: 0 }
a { color: #06c; text-decoration: none }
a:hover { color: #048 }
img { border: 0 }
.row { margin: 0 -8px }
.row::before { content: \"\"; display: table }
.row::after { content: \"\"; display: table }
.row::after { clear: both }
.col { float: left; padding: 0 8px }
.half { width: 50% }
.third { width: 33% }
.col { box-sizing: border-box }
.note { color: #555 }
.btn { color: #fff; background: #06c }
.btn:hover { background: #048 }
.btn:focus-visible { outline: 2px solid }
.link { color: #06c; text-decoration: none }
.hide { display: none }
ul { margin: 0 }
@media print { .hide { display: block } }
.note { padding: 4px }
@media (max-width: 600px) { .half { width: 100% } }
";

/// The first pair of a sheet.
pub(crate) const FIRST: PairPlace = PairPlace {
    item: 0,
    sel: 0,
    decl: 0,
};

/// The second declaration of the first item.
pub(crate) const SECOND: PairPlace = PairPlace { decl: 1, ..FIRST };

/// The first pair of the second item.
pub(crate) const NEXT: PairPlace = PairPlace { item: 1, ..FIRST };

/// The first pair of the third item.
pub(crate) const THIRD: PairPlace = PairPlace { item: 2, ..FIRST };

/// A step that joins the third item's rule into the first one's.
pub(crate) const UP: Step = Step::JoinSelUp { upper: 0, lower: 2 };

/// A step that joins the first item's rule into the third one's.
pub(crate) const DOWN: Step = Step::JoinSelDown { upper: 0, lower: 2 };

/// The sheet of a source.
pub(crate) fn sheet(rt: &impl Abort, alloc: Global, source: &[u8]) -> Sheet
    ensures short { length source.now ≤ max_bytes }
    ensures read { sheet_of source.now ≡ Ok result.items }
    ensures plannable { IsPlannable source.now result.items }
    ensures planned { CanBePlanned result.items }
{
    read_is_plannable();
    assert!(rt; source.len() <= MAX_BYTES as usize);
    read_sheet(alloc, source).expect(rt, "a sheet")
}

/// What a step leaves of a sheet.
fn applied(rt: &impl Abort, alloc: Global, old: &Sheet, step: &Step) -> Sheet
    requires is_step { HasStep old.now.items step.now }
    requires few_items { length old.now.items ≤ max_items }
    ensures { (e : Edit) → IsStep old.now.items step.now e → result.items ≡ edited e old.now.items }
{
    apply(alloc, &old.items, step).expect(rt, "memory")
}

/// The text of a sheet is within the limit.
fn assert_short(rt: &impl Abort, sheet: &Sheet, source: &[u8])
    requires short { length source.now ≤ max_bytes }
    requires sound { IsSound source.now sheet.now.items }
    requires few_items { length sheet.now.items ≤ max_items }
    ensures { size source.now sheet.now.items ≤ max_bytes }
{
    assert!(rt; print_len(sheet, source) <= MAX_BYTES as u64);
}

/// The sheet after a step.
pub(crate) fn after(
    rt: &impl Abort,
    alloc: Global,
    source: &[u8],
    old: &Sheet,
    step: &Step,
) -> Sheet
    requires short { length source.now ≤ max_bytes }
    requires plannable { IsPlannable source.now old.now.items }
    requires is_step { HasStep old.now.items step.now }
    ensures made { (e : Edit) → IsStep old.now.items step.now e → result.items ≡ edited e old.now.items }
    ensures plannable { IsPlannable source.now result.items }
    ensures planned { CanBePlanned result.items }
{
    steps_make_of();
    each_is_made_of_itself();
    let new = applied(rt, alloc, old, step);
    assert_short(rt, &new, source);
    new
}
