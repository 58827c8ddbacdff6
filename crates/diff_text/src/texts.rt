//! How two style sheets differ, from bytes to bytes.

ghost use Rattle.std.specs.Prelude.{◌≡◌, ◌++◌, ℕ, List, Ok, IfErr, IfOk, OnOk, map};
ghost use Rattle.std.specs.List.{AllByRecursion, filter, list_any};
ghost use Rattle.css_model.specs.declared.sheet.Item.{Item};
ghost use Rattle.css_model.specs.Sheets.Sheet.{sheet_of};
ghost use Rattle.same_text.specs.SameTexts.{IsCause, IsOfTwo};
ghost use Rattle.sheet_members.specs.Compared as comparing;
ghost use Rattle.sheet_members.specs.Layers.{body_layers, head_texts, outer_layer};
ghost use Rattle.sheet_members.specs.Occurrences.{occurrences};
ghost use Rattle.sheet_order.specs.Allowing.{Stays};
ghost use Rattle.media_groups.specs.Opened.{opened_of};
ghost use Rattle.diff_text.specs.DiffTexts as spec;
ghost use Rattle.diff_text.specs.Laid as laid;
ghost use Rattle.diff_text.specs.Lines as lines;
ghost use Rattle.diff_text.specs.Shown.{AreReadySides, IsReadyCompared, IsReadyTold};
ghost use Rattle.sheet_members.specs.Ready.{IsReady};

use crate::counting::{push_number, put_first_line};
use crate::reading::{first_sheet, second_sheet, too_long};
use crate::sides::Sides;
use crate::telling::{put_all_told, put_changed, put_lacking, words_of};
use css_model::Sheet;
use line_places::Lines;
use media_groups::{Media, open_media, opened_blocks_are_sheets, reading_of};
use overlap::Pairs;
use print_laws::selectors_are_in_the_profile;
use same_text::{MAX_BOTH, SameError};
use selector_laws::read_selectors_keep_the_limits;
use sheet_laws::read_is_sound;
use sheet_members::{
    BlockHead, Common, Compared, Layer, Member, Occurrence, bodies_of, compare, heads_of,
    marked_all, members_of, occurrences_of, outer_layer,
};
use std::alloc::{AllocError, Global};
use turned_members::{Told, told_of};

/// Whether a common member is changed.
fn has_changed(commons: &[Common<'_>]) -> bool
    ensures { result ≡ list_any (λ c. c.mine.label.changed) commons.now }
{
    commons.iter().any(|c| c.is_changed())
}

/// Whether no couple is told.
#[tactic(auto, using(crate::proofs::Nothing::none_by_length))]
fn is_none_told(told: &[Told<'_>]) -> bool
    ensures { result ≡ spec.is_none told.now }
{
    told.is_empty()
}

/// Whether there are no members.
#[tactic(auto, using(crate::proofs::Nothing::none_by_length))]
fn are_none(members: &[Member<'_>]) -> bool
    ensures { result ≡ spec.is_none members.now }
{
    members.is_empty()
}

/// Whether no common member is changed.
#[tactic(auto, using(crate::proofs::Nothing::none_by_test))]
fn is_none_changed(commons: &[Common<'_>]) -> bool
    ensures { result ≡ spec.is_none (filter (λ c. c.mine.label.changed) commons.now) }
{
    !has_changed(commons)
}

/// Whether nothing is found.
fn is_same(told: &[Told<'_>], compared: &Compared<'_>) -> bool
    ensures { result ≡ spec.is_same told.now compared.now.missing compared.now.extra (comparing.changed compared.now) }
{
    is_none_told(told)
        && (are_none(&compared.missing)
            && (are_none(&compared.extra) && is_none_changed(&compared.commons)))
}

/// Appends `limit` and the limit, if so many couples are told.
fn put_limit(out: &mut Vec<u8>, limit: u32, told: &[Told<'_>]) -> Result<(), AllocError>
    ensures { OnOk result (out.new.items ≡ out.old.items ++ lines.limit_line limit told.now) }
{
    if told.len() != limit as usize {
        return Ok(());
    }
    out.extend_from_slice(b"limit ")?;
    push_number(out, limit as usize)?;
    out.push(b'\n')?;
    Ok(())
}

/// The lines of what is found.
fn found_lines(
    alloc: Global,
    sides: &Sides<'_>,
    limit: u32,
    told: &[Told<'_>],
    compared: &Compared<'_>,
) -> Result<Vec<u8>, AllocError>
    requires told { AllByRecursion IsReadyTold told.now }
    requires compared { IsReadyCompared compared.now }
    requires ready { AreReadySides sides.now }
    ensures { IfOk result (λ text. text.items ≡ spec.found_lines sides.now limit told.now compared.now) }
{
    let words = words_of(alloc, sides, told)?;
    let mut out = Vec::new(alloc);
    put_first_line(&mut out, &words, compared)?;
    put_all_told(&mut out, alloc, sides, &words, told)?;
    put_limit(&mut out, limit, told)?;
    put_lacking(
        &mut out,
        alloc,
        b"missing ",
        &sides.lines,
        &compared.missing,
    )?;
    put_lacking(
        &mut out,
        alloc,
        b"extra ",
        &sides.other_lines,
        &compared.extra,
    )?;
    put_changed(&mut out, alloc, sides, &compared.commons)?;
    Ok(out)
}

/// `same`, or the lines of what is found.
fn tell_compared(
    alloc: Global,
    sides: &Sides<'_>,
    limit: u32,
    told: &[Told<'_>],
    compared: &Compared<'_>,
) -> Result<Vec<u8>, AllocError>
    requires told { AllByRecursion IsReadyTold told.now }
    requires compared { IsReadyCompared compared.now }
    requires ready { AreReadySides sides.now }
    ensures { IfOk result (λ text. text.items ≡ spec.diff_text sides.now limit told.now compared.now) }
{
    if is_same(told, compared) {
        return b"same\n".to_vec(alloc);
    }
    found_lines(alloc, sides, limit, told, compared)
}

/// What a sheet is made of: its opened blocks with their heads.
#[derive(Drop)]
struct Opened {
    media: Vec<Media>,
    heads: Vec<BlockHead>,
}

/// The opened blocks of a sheet that was read from this source, with their heads.
fn opened_in(alloc: Global, source: &[u8], sheet: &Sheet) -> Result<Opened, AllocError>
    requires { sheet_of source.now ≡ Ok sheet.now.items }
    ensures media { IfOk result (λ o. o.media.items ≡ opened_of sheet.now.items source.now) }
    ensures heads { IfOk result (λ o. o.heads.items ≡ map (head_texts source.now) o.media.items) }
{
    let media = open_media(alloc, sheet, source)?;
    let reading = reading_of(alloc, sheet, source)?;
    let heads = heads_of(alloc, &reading, &media)?;
    Ok(Opened { media, heads })
}

/// The layers of a sheet: itself, and the bodies of its opened blocks.
#[derive(Drop)]
struct Layers<'a> {
    outer: Layer<'a>,
    bodies: Vec<Layer<'a>>,
}

/// The layers of a sheet that was read from this source, with these opened blocks.
fn layers_of<'a>(
    alloc: Global,
    source: &'a [u8],
    sheet: &'a Sheet,
    opened: &'a Opened,
) -> Result<Layers<'a>, AllocError>
    requires read { sheet_of source.now ≡ Ok sheet.now.items }
    requires media { opened.now.media.items ≡ opened_of sheet.now.items source.now }
    requires heads { opened.now.heads.items ≡ map (head_texts source.now) opened.now.media.items }
    ensures outer { IfOk result (λ layers. layers.outer ≡ outer_layer source.now sheet.now.items) }
    ensures bodies { IfOk result (λ layers. layers.bodies.items ≡ body_layers source.now sheet.now.items) }
{
    let outer = outer_layer(alloc, source, sheet)?;
    let bodies = bodies_of(alloc, source, sheet, &opened.media, &opened.heads)?;
    Ok(Layers { outer, bodies })
}

/// What occurs in a sheet of these layers.
#[tactic(auto, using(crate::proofs::Laid::laid_flat))]
fn flat<'a>(alloc: Global, layers: &'a Layers<'_>) -> Result<Vec<Occurrence<'a>>, AllocError>
    ensures { (source : List ℕ) (items : List Item) → layers.now.outer ≡ outer_layer source items
        → layers.now.bodies.items ≡ body_layers source items → IfOk result (λ found. found.items ≡ occurrences source items) }
{
    occurrences_of(alloc, &layers.outer, &layers.bodies)
}

/// What is told of two sheets with these common, missing and extra members.
#[tactic(auto, using(sheet_order::proofs::ForCallers::stays_itself, crate::proofs::Laid::commons_laid, crate::proofs::Laid::compared_laid, crate::proofs::Laid::told_laid, crate::proofs::Laid::tells_laid))]
fn tell_found(
    alloc: Global,
    pairs: &mut Pairs,
    sides: &Sides<'_>,
    compared: &Compared<'_>,
    limit: u32,
) -> Result<Vec<u8>, AllocError>
    requires ready { AreReadySides sides.now }
    requires compared { compared.now ≡ laid.compared_in sides.now }
    ensures stays { Stays pairs.old pairs.new }
    ensures tells { IfOk result (λ text. laid.TellsSides sides.now limit pairs.new text.items) }
{
    let told = told_of(alloc, pairs, &compared.commons, limit)?;
    pairs.are_true();
    tell_compared(alloc, sides, limit, &told, compared)
}

/// What is told of two sheets laid flat.
#[tactic(auto, using(sheet_order::proofs::ForCallers::stays_itself))]
fn tell_sides(
    alloc: Global,
    pairs: &mut Pairs,
    sides: &Sides<'_>,
    limit: u32,
) -> Result<Vec<u8>, AllocError>
    requires { AreReadySides sides.now }
    ensures stays { Stays pairs.old pairs.new }
    ensures tells { IfOk result (λ text. laid.TellsSides sides.now limit pairs.new text.items) }
{
    let members = members_of(alloc, sides.occurrences)?;
    let others = members_of(alloc, sides.others)?;
    let marked = marked_all(alloc, &others, &members)?;
    let others_marked = marked_all(alloc, &members, &others)?;
    let compared = compare(alloc, &marked, &others_marked)?;
    tell_found(alloc, pairs, sides, &compared, limit)
}

/// What is told of two sheets: of the first one it is known what occurs in it, of the second one its opened blocks.
#[tactic(auto, using(sheet_order::proofs::ForCallers::stays_itself, crate::proofs::Laid::is_ready, crate::proofs::Laid::both_ready, crate::proofs::Laid::second_laid, crate::proofs::Laid::tells_second))]
fn tell_second<'a>(
    alloc: Global,
    pairs: &mut Pairs,
    source: &'a [u8],
    occurrences: &'a [Occurrence<'a>],
    there: &'a [u8],
    other: &'a Sheet,
    yours: &'a Opened,
    limit: u32,
) -> Result<Vec<u8>, AllocError>
    requires ready { AllByRecursion IsReady occurrences.now }
    requires second { sheet_of there.now ≡ Ok other.now.items }
    requires media { yours.now.media.items ≡ opened_of other.now.items there.now }
    requires heads { yours.now.heads.items ≡ map (head_texts there.now) yours.now.media.items }
    ensures stays { Stays pairs.old pairs.new }
    ensures tells { IfOk result (λ text. laid.TellsSides (laid.sides_with source.now occurrences.now there.now other.now.items) limit pairs.new text.items) }
{
    // Laws, which do nothing.
    read_is_sound();
    selectors_are_in_the_profile();
    read_selectors_keep_the_limits();
    opened_blocks_are_sheets();
    let layers = layers_of(alloc, there, other, yours)?;
    let others = flat(alloc, &layers)?;
    let sides = Sides {
        lines: Lines::new(alloc, source)?,
        occurrences,
        other_lines: Lines::new(alloc, there)?,
        others: &others,
    };
    tell_sides(alloc, pairs, &sides, limit)
}

/// What is told of two sheets: of the first one its opened blocks are known.
#[tactic(auto, using(sheet_order::proofs::ForCallers::stays_itself, crate::proofs::Laid::is_ready, crate::proofs::Laid::tells_first))]
fn tell_first<'a>(
    alloc: Global,
    pairs: &mut Pairs,
    source: &'a [u8],
    sheet: &'a Sheet,
    mine: &'a Opened,
    there: &[u8],
    other: &Sheet,
    limit: u32,
) -> Result<Vec<u8>, AllocError>
    requires first { sheet_of source.now ≡ Ok sheet.now.items }
    requires media { mine.now.media.items ≡ opened_of sheet.now.items source.now }
    requires heads { mine.now.heads.items ≡ map (head_texts source.now) mine.now.media.items }
    requires second { sheet_of there.now ≡ Ok other.now.items }
    ensures stays { Stays pairs.old pairs.new }
    ensures tells { IfOk result (λ text. spec.Tells source.now sheet.now.items there.now other.now.items limit pairs.new text.items) }
{
    // Laws, which do nothing.
    read_is_sound();
    selectors_are_in_the_profile();
    read_selectors_keep_the_limits();
    opened_blocks_are_sheets();
    let layers = layers_of(alloc, source, sheet, mine)?;
    let occurrences = flat(alloc, &layers)?;
    let yours = opened_in(alloc, there, other)?;
    tell_second(
        alloc,
        pairs,
        source,
        &occurrences,
        there,
        other,
        &yours,
        limit,
    )
}

/// What is told of two sheets that were read from these texts.
#[tactic(auto, using(sheet_order::proofs::ForCallers::stays_itself))]
fn tell_sheets(
    alloc: Global,
    pairs: &mut Pairs,
    source: &[u8],
    sheet: &Sheet,
    there: &[u8],
    other: &Sheet,
    limit: u32,
) -> Result<Vec<u8>, AllocError>
    requires first { sheet_of source.now ≡ Ok sheet.now.items }
    requires second { sheet_of there.now ≡ Ok other.now.items }
    ensures stays { Stays pairs.old pairs.new }
    ensures tells { IfOk result (λ text. spec.Tells source.now sheet.now.items there.now other.now.items limit pairs.new text.items) }
{
    let mine = opened_in(alloc, source, sheet)?;
    tell_first(alloc, pairs, source, sheet, &mine, there, other, limit)
}

/// What is told of two texts that are read as sheets.
#[tactic(auto, using(sheet_order::proofs::ForCallers::stays_itself))]
fn compare_texts(
    alloc: Global,
    pairs: &mut Pairs,
    source: &[u8],
    there: &[u8],
    limit: u32,
) -> Result<Vec<u8>, SameError>
    ensures stays { Stays pairs.old pairs.new }
    ensures text { IfOk result (λ text. spec.AreCompared source.now there.now limit pairs.new text.items) }
    ensures err { IfErr result (λ e. IsOfTwo source.now there.now e) }
{
    let sheet = first_sheet(alloc, source)?;
    let other = second_sheet(alloc, there)?;
    let text = tell_sheets(alloc, pairs, source, &sheet, there, &other, limit)?;
    Ok(text)
}

/// How two style sheets differ, all through, as lines of bytes. The first sheet has the first `split` bytes of the text,
/// the second one the others. At most `limit` couples are told. Each line ends with a line feed.
///
/// The text is `same` where nothing is found. Otherwise its first line has the numbers of lines of each word, as
/// `reversed R related L masked H unsure U missing M extra E changed C`. Then come the lines of
///
/// - couples that weigh and come last in another order, as `WORD PLACE TEXT PLACE TEXT` with places in the first sheet:
///
/// | word | when, the first that fits |
/// |---|---|
/// | `unsure kept` | one is a kept item |
/// | `unsure R`, `unsure spent` | the selectors were not compared, for reason R; the budget was spent for them |
/// | `unsure media` | both are in opened blocks, with different heads |
/// | `related` | no one of the properties is the other one, `all`, or the other one with `-` and more |
/// | `masked` | the winners of both sheets agree at the example of the answer |
/// | `reversed` | otherwise; the example and both winners follow |
///
/// - `limit K`, where K couples are told;
/// - `missing PLACE TEXT` and `extra PLACE TEXT`: what the second sheet lacks and has besides;
/// - `changed PLACE TEXT PLACE DECLARATION`: what is spelled with another value, and in kept items after the head.
///
/// Values and kept texts are compared by their tokens (`normal_text`), and so are the heads of opened blocks: blocks with
/// one head count as one. Of two couples of the same two items, or with the same kept item, the first one is told.
/// Control codes of ASCII are spaces in a text.
///
/// `text` is any list of bytes. The errors are those of `same_lines`, in the same order. `NoMemory` comes where memory is
/// short. The answers for selectors are asked of `pairs`, which holds them afterwards. All that was held there stays, also
/// after an error.
#[tactic(auto, using(sheet_order::proofs::ForCallers::stays_itself))]
pub fn diff_lines(
    alloc: Global,
    pairs: &mut Pairs,
    text: &[u8],
    split: u32,
    limit: u32,
) -> Result<Vec<u8>, SameError>
    ensures stays { Stays pairs.old pairs.new }
    ensures text { IfOk result (λ lines. spec.IsDiffText text.now split limit pairs.new lines.items) }
    ensures err { IfErr result (λ e. IsCause text.now split e) }
{
    if text.len() > MAX_BOTH as usize {
        return Err(SameError::First(too_long()));
    }
    if text.len() < split as usize {
        return Err(SameError::NoSplit(split));
    }
    let (source, there) = text.split_at(split as usize);
    compare_texts(alloc, pairs, source, there, limit)
}
