//! Which items of a style sheet stop the merges that are left, from bytes to bytes.

ghost use Rattle.std.specs.Prelude.{◌≡◌, ◌++◌, ◌∷◌, [], List, Ok, map, IfErr, IfOk, OnOk};
ghost use Rattle.std.specs.List.{AllByRecursion};
ghost use Rattle.css_model.specs.Sheets.Sheet.{sheet_of};
ghost use Rattle.media_groups.specs.Laws.{IsBlockOf};
ghost use Rattle.media_groups.specs.Levels.{body_level};
ghost use Rattle.sheet_order.specs.Laws.{answer_seen};
ghost use Rattle.sheet_read.specs.Reading.{Refuses};
ghost use Rattle.step_laws.specs.Free.{Answered, AreAmong};
ghost use Rattle.blockers_text.specs.BlockersTexts.{IsBlockersText};
ghost use Rattle.blockers_text.specs.Later.{Grows, IsLater, seen};
ghost use Rattle.blockers_text.specs.Levels.{IsToldText, Tells, TellsAll};
ghost use Rattle.blockers_text.specs.Lines as spec;

use crate::level::{ReadLevel, tell_level};
use crate::printing::push_number;
use crate::ranked::{in_order, push_lines};
use crate::stopped::Part;
use crate::told::Told;
use crate::totals::{Count, Weighed, total};
use css_model::Sheet;
use line_places::Lines;
use media_groups::{Media, open_media, opened_blocks_are_sheets};
use overlap::Pairs;
use sheet_read::{SheetError, read_sheet};
use std::alloc::{AllocError, Global};

/// The text of lines.
fn text_of<'a>(lines: &Lines<'a>) -> &'a [u8]
    ensures { result.now ≡ lines.now.text.now }
{
    lines.text
}

/// Tells of the body of an opened block.
fn tell_body(
    alloc: Global,
    pairs: &mut Pairs,
    lines: &Lines<'_>,
    block: &Media,
    told: &mut Told,
) -> Result<(), AllocError>
    requires { IsBlockOf lines.now.text.now block.now }
    ensures grows { Grows pairs.old pairs.new }
    ensures tells { OnOk result ((later : List Answered) → IsLater (seen pairs.new) later →
        Tells later lines.now.text.now (body_level lines.now.text.now block.now ∷ []) told.old told.new) }
{
    let source = block.body.text(text_of(lines));
    let level = ReadLevel {
        block: Some(block.item),
        start: block.body.start,
        source,
        sheet: &block.sheet,
    };
    tell_level(alloc, pairs, lines, &level, told)?;
    Ok(())
}

/// Tells of the bodies of opened blocks.
fn tell_bodies(
    alloc: Global,
    pairs: &mut Pairs,
    lines: &Lines<'_>,
    media: &[Media],
    told: &mut Told,
) -> Result<(), AllocError>
    requires { AllByRecursion (IsBlockOf lines.now.text.now) media.now }
    ensures grows { Grows pairs.old pairs.new }
    ensures tells { OnOk result ((later : List Answered) → IsLater (seen pairs.new) later →
        Tells later lines.now.text.now (map (body_level lines.now.text.now) media.now) told.old told.new) }
{
    let mut rest = media;
    'bodies: while let [block, others @ ..] = rest {
        tell_body(alloc, pairs, lines, block, told)?;
        rest = others;
    }
    Ok(())
}

/// Nothing is told.
fn nothing(alloc: Global) -> Told
    ensures weighed { result.weighed.items ≡ [] }
    ensures ranked { result.ranked.items ≡ [] }
{
    Told {
        weighed: Vec::new(alloc),
        ranked: Vec::new(alloc),
    }
}

/// What is told of all levels of a sheet.
#[tactic(auto, using(crate::proofs::Answered::grows_itself))]
fn tell_all(
    alloc: Global,
    pairs: &mut Pairs,
    source: &[u8],
    sheet: &Sheet,
) -> Result<Told, AllocError>
    requires { sheet_of source.now ≡ Ok sheet.now.items }
    ensures grows { Grows pairs.old pairs.new }
    ensures tells { IfOk result (λ told. (later : List Answered) → IsLater (seen pairs.new) later → TellsAll later source.now sheet.now.items told) }
{
    // A law, which does nothing.
    opened_blocks_are_sheets();
    let lines = Lines::new(alloc, source)?;
    let media = open_media(alloc, sheet, source)?;
    let level = ReadLevel {
        block: None,
        start: 0,
        source,
        sheet,
    };
    let mut told = nothing(alloc);
    tell_level(alloc, pairs, &lines, &level, &mut told)?;
    tell_bodies(alloc, pairs, &lines, &media, &mut told)?;
    Ok(told)
}

/// Appends a line with a word and how many steps there are, and how many bytes they would save.
fn push_count(out: &mut Vec<u8>, word: &[u8], count: &Count) -> Result<(), AllocError>
    ensures { OnOk result (out.new.items ≡ out.old.items ++ spec.count_line word.now count.now) }
{
    out.extend_from_slice(word)?;
    push_number(out, count.steps)?;
    push_number(out, count.bytes)?;
    out.extend_from_slice(b"\n")
}

/// Appends the totals of steps.
fn push_totals(out: &mut Vec<u8>, steps: &[Weighed]) -> Result<(), AllocError>
    ensures { OnOk result (out.new.items ≡ out.old.items ++ spec.totals_text steps.now) }
{
    push_count(out, b"blocked", &total(None, steps))?;
    push_count(out, b"kept", &total(Some(Part::Kept), steps))?;
    push_count(out, b"rules", &total(Some(Part::Rules), steps))?;
    push_count(out, b"both", &total(Some(Part::Both), steps))
}

/// The lines of what is told.
fn lines_of(alloc: Global, told: Told) -> Result<Vec<u8>, AllocError>
    ensures { IfOk result (λ text. IsToldText told text.items) }
{
    let Told { weighed, ranked } = told;
    let mut out = Vec::new(alloc);
    push_totals(&mut out, &weighed)?;
    let sorted = in_order(ranked)?;
    push_lines(&mut out, &sorted)?;
    Ok(out)
}

/// The lines on a sheet that was read. The answers are asked for.
fn blockers_of_sheet(
    alloc: Global,
    pairs: &mut Pairs,
    source: &[u8],
    sheet: &Sheet,
) -> Result<Vec<u8>, AllocError>
    requires { sheet_of source.now ≡ Ok sheet.now.items }
    ensures grows { Grows pairs.old pairs.new }
    ensures tells { IfOk result (λ text. IsBlockersText pairs.new source.now text.items) }
{
    let told = tell_all(alloc, pairs, source, sheet)?;
    // What is answered is true: a law, which does nothing.
    pairs.are_true();
    let text = lines_of(alloc, told)?;
    Ok(text)
}

/// Which items of a style sheet stop the merges that are left, as lines of bytes. Each ends with a line feed.
///
/// The sheet is planned, and the body of each opened `@media` block as a sheet of its own, until nothing is left to do.
/// The steps are those that would then still save bytes. An entry of a step is a pair that it would move and another
/// pair, or a kept item, with which it would change its order. An item stops a step if an entry names it, and it is kept,
/// or the selectors of the two pairs are not answered to be apart.
///
/// - `blocked STEPS BYTES`: how many steps there are, and how many bytes they would save together.
/// - `kept STEPS BYTES`, `rules STEPS BYTES` and `both STEPS BYTES`: the same of those that kept items alone stop, rules
///   alone, and both.
/// - `stops STEPS BYTES ALONE BYTES PLACE HEAD` for each item that stops a step: how many it stops and their bytes, the
///   same of those that no other item stops, where it begins, and its head. The greatest sum of bytes comes first, then
///   the most steps, then the order of the levels and of their items.
/// - `best BYTES KIND PLACE PLACE PAIR` after it, if it alone stops a step, with one `PAIR` more if it is a rule: of these
///   steps the first of the greatest saving, where its two rules begin (of a cut, the rule and the part), the moved
///   pair, and the pair that it may not pass.
///
/// Places are those of `line_places` in `source`. A rule that steps made is where its first selector begins. Control codes
/// of ASCII are spaces in heads and pairs. Steps of one sheet exclude one another, so a sum of bytes is an upper bound.
///
/// `source` is any list of bytes. The answers are asked of `pairs`, which holds them afterwards. All that was answered
/// stays, and the budget, also after an error. `Fault` exactly where the sheet has one, with its place in bytes from 0.
/// `NoMemory` where memory is short.
pub fn blockers_lines(
    alloc: Global,
    pairs: &mut Pairs,
    source: &[u8],
) -> Result<Vec<u8>, SheetError>
    ensures asked { AreAmong (map answer_seen pairs.old.answers) (map answer_seen pairs.new.answers) }
    ensures same_budget { pairs.new.budget ≡ pairs.old.budget }
    ensures tells { IfOk result (λ text. IsBlockersText pairs.new source.now text.items) }
    ensures err { IfErr result (λ e. Refuses e (sheet_of source.now)) }
{
    let sheet = read_sheet(alloc, source)?;
    Ok(blockers_of_sheet(alloc, pairs, source, &sheet)?)
}
