//! The steps of a sheet that still save something, where nothing is left to do, and those of the bodies of its opened
//! blocks.

ghost use Rattle.std.specs.Prelude.{◌≡◌, IfOk, map, Ok, Some};
ghost use Rattle.std.specs.List.{AllByRecursion};
ghost use Rattle.css_model.specs.Sheets.Sheet.{sheet_of};
ghost use Rattle.css_model.specs.Text.Source.{text_at};
ghost use Rattle.media_groups.specs.Laws.{IsBlockOf};
ghost use Rattle.merge_report.specs.Remaining.{AreRemaining, AreRemainingInside, AreRemainingOpened, told_in};
ghost use Rattle.opened_merge_laws.specs.Merged.{IsDoneOpened};
ghost use Rattle.plan_laws.specs.Plannable.{IsPlannable};
ghost use Rattle.sheet_order.specs.Allowing.{Stays};
ghost use Rattle.sheet_order.specs.Laws.{answer_seen};
ghost use Rattle.step_laws.specs.Leading.{IsDone};

use css_model::Sheet;
use media_groups::{Media, open_media, opened_blocks_are_sheets};
use merge_laws::read_is_plannable;
use merge_plan::blocked_steps;
use overlap::Pairs;
use sheet_order::BlockCause;
use std::alloc::{AllocError, Global};
use step_laws::Step;

/// Returns what was found of a step, with the block whose body has it.
fn told_of(block: Option<u32>, found: &(Step, BlockCause)) -> (Option<u32>, Step, BlockCause)
    ensures { result ≡ told_in block found.now }
{
    (block, found.0, found.1)
}

/// Returns what was found of some steps, with the block whose body has them.
fn told_in_block(
    alloc: Global,
    block: Option<u32>,
    found: &[(Step, BlockCause)],
) -> Result<Vec<(Option<u32>, Step, BlockCause)>, AllocError>
    ensures { IfOk result (λ told. told.items ≡ map (told_in block) found.now) }
{
    let mut told = Vec::with_capacity(alloc, found.len())?;
    for entry in found {
        told.push(told_of(block, entry))?;
    }
    Ok(told)
}

/// The steps that still save something of a sheet in which nothing is left to do, in their order. Each has its cause by
/// the answers that are held afterwards. It is the sheet itself, or the body of this block. All that was answered
/// stays. `AllocError` where memory runs out; it stays then too.
fn remaining_steps(
    alloc: Global,
    pairs: &mut Pairs,
    source: &[u8],
    sheet: &Sheet,
    block: Option<u32>,
) -> Result<Vec<(Option<u32>, Step, BlockCause)>, AllocError>
    requires plannable { IsPlannable source.now sheet.now.items }
    requires done { IsDone (map answer_seen pairs.old.answers) source.now sheet.now.items }
    ensures stays { Stays pairs.old pairs.new }
    ensures are { IfOk result (λ found. AreRemaining pairs.new.answers source.now sheet.now.items block found.items) }
{
    let found = blocked_steps(alloc, pairs, source, sheet)?;
    told_in_block(alloc, block, found.as_slice())
}

/// The steps that still save something of the body of an opened block.
fn remaining_in_block(
    alloc: Global,
    pairs: &mut Pairs,
    source: &[u8],
    block: &Media,
) -> Result<Vec<(Option<u32>, Step, BlockCause)>, AllocError>
    requires block { IsBlockOf source.now block.now }
    requires done { IsDone (map answer_seen pairs.old.answers) (text_at source.now block.now.body) block.now.sheet.items }
    ensures stays { Stays pairs.old pairs.new }
    ensures are { IfOk result (λ found. AreRemaining pairs.new.answers (text_at source.now block.now.body) block.now.sheet.items (Some block.now.item) found.items) }
{
    read_is_plannable();
    let body = block.body.text(source);
    remaining_steps(alloc, pairs, body, &block.sheet, Some(block.item))
}

/// The steps that still save something of the bodies of opened blocks, one block after the other.
fn remaining_inside(
    alloc: Global,
    pairs: &mut Pairs,
    source: &[u8],
    media: &[Media],
) -> Result<Vec<(Option<u32>, Step, BlockCause)>, AllocError>
    requires blocks { AllByRecursion (IsBlockOf source.now) media.now }
    requires done { AllByRecursion (λ m. IsDone (map answer_seen pairs.old.answers) (text_at source.now m.body) m.sheet.items) media.now }
    ensures stays { Stays pairs.old pairs.new }
    ensures are { IfOk result (λ found. AreRemainingInside pairs.new.answers source.now media.now found.items) }
{
    let mut found = Vec::new(alloc);
    let mut rest = media;
    'bodies: while let [block, others @ ..] = rest {
        let mut more = remaining_in_block(alloc, pairs, source, block)?;
        found.append(&mut more)?;
        rest = others;
    }
    Ok(found)
}

/// The steps that still save something of a sheet that is read from these bytes, and then those of the bodies of its
/// opened blocks. Nothing is left to do in it nor in them.
pub(crate) fn remaining_opened(
    alloc: Global,
    pairs: &mut Pairs,
    source: &[u8],
    sheet: &Sheet,
) -> Result<Vec<(Option<u32>, Step, BlockCause)>, AllocError>
    requires read { sheet_of source.now ≡ Ok sheet.now.items }
    requires done { IsDoneOpened (map answer_seen pairs.old.answers) source.now sheet.now.items }
    ensures stays { Stays pairs.old pairs.new }
    ensures are { IfOk result (λ found. AreRemainingOpened pairs.new.answers source.now sheet.now.items found.items) }
{
    read_is_plannable();
    opened_blocks_are_sheets();
    let media = open_media(alloc, sheet, source)?;
    let mut found = remaining_steps(alloc, pairs, source, sheet, None)?;
    let mut inside = remaining_inside(alloc, pairs, source, media.as_slice())?;
    found.append(&mut inside)?;
    Ok(found)
}
