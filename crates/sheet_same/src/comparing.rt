//! Two sheets compared by five tests.

ghost use Rattle.std.specs.Prelude.{◌≡◌, ◌<◌, ◌^◌, [], Ok, IfOk, length, map};
ghost use Rattle.std.specs.List.{AllByRecursion};
ghost use Rattle.css_model.specs.Sheets.Sheet.{sheet_of};
ghost use Rattle.css_model.specs.Text.Source.{text_at};
ghost use Rattle.media_groups.specs.Laws.{IsBlockOf};
ghost use Rattle.sheet_order.specs.Allowing.{Stays};
ghost use Rattle.sheet_same.specs.Compared as spec;
ghost use Rattle.sheet_same.specs.Judging.{IsAskable, IsJudged};
ghost use Rattle.sheet_same.specs.Members as order;
ghost use Rattle.sheet_same.specs.Standing.{couples_of, standing_of};

use crate::compared::{Compared, Difference};
use crate::judging::judged;
use crate::kept::first_differing;
use crate::lacking::first_lacking;
use crate::members::{Member, members};
use crate::standing::standings;
use crate::twins::Twins;
use css_model::Sheet;
use media_groups::{Media, Reading, open_media, opened_blocks_are_sheets, reading_of};
use merge_laws::read_is_plannable;
use order_laws::{listed_stands_last, order_is_decided, weighing_is_decided};
use overlap::Pairs;
use print_laws::selectors_are_in_the_profile;
use selector_laws::read_selectors_keep_the_limits;
use sheet_order::{Ordered, PairIndex, ordered};
use std::alloc::{AllocError, Global};
use step_laws::parts_are_few;

/// A sheet with the tokens of its source, those of its blocks that count as opened, its last pairs and its members.
#[derive(Drop)]
struct Side<'a> {
    reading: Reading<'a>,
    media: &'a [Media],
    sheet: Ordered<'a>,
    members: Vec<Member<'a>>,
    ghost listed: { members.items ≡ order.members sheet.items.now },
}

/// A sheet that is read from this source. These blocks of it count as opened.
#[tactic(auto, using(crate::proofs::Askable::members_askable, crate::proofs::Askable::few_items))]
fn side_of<'a>(
    alloc: Global,
    sheet: &'a Sheet,
    source: &'a [u8],
    media: &'a [Media],
) -> Result<Side<'a>, AllocError>
    requires { sheet_of source.now ≡ Ok sheet.now.items }
    ensures source { IfOk result (λ side. side.reading.source.now ≡ source.now) }
    ensures media { IfOk result (λ side. side.media.now ≡ media.now) }
    ensures items { IfOk result (λ side. side.sheet.items.now ≡ sheet.now.items) }
    ensures few { IfOk result (λ side. length side.sheet.items.now < 2 ^ 32) }
    ensures askable { IfOk result (λ side. AllByRecursion IsAskable side.members.items) }
{
    read_is_plannable();
    selectors_are_in_the_profile();
    read_selectors_keep_the_limits();
    listed_stands_last();
    parts_are_few();
    let reading = reading_of(alloc, sheet, source)?;
    let sheet = ordered(alloc, &sheet.items)?;
    let members = members(alloc, &sheet)?;
    Ok(Side {
        reading,
        media,
        sheet,
        members,
    })
}

/// What the first three tests find, by the indexes of both sheets.
fn found_in_parts(
    alloc: Global,
    side: &Side<'_>,
    index: &PairIndex<'_>,
    there: &Side<'_>,
    other: &PairIndex<'_>,
) -> Result<Option<Compared>, AllocError>
    requires few { length side.now.sheet.items.now < 2 ^ 32 }
    requires first { AllByRecursion IsAskable side.now.members.items }
    requires second { AllByRecursion IsAskable there.now.members.items }
    requires index { index.now ≡ side.now.sheet.pairs.items }
    requires other { other.now ≡ there.now.sheet.pairs.items }
    ensures { IfOk result (λ found. found
        ≡ spec.found_in_parts side.now.reading.source.now side.now.media.now side.now.sheet.items.now
        there.now.reading.source.now there.now.media.now there.now.sheet.items.now) }
{
    if let Some(place) = first_lacking(other, &side.members) {
        return Ok(Some(Compared::Missing(place)));
    }
    if let Some(place) = first_lacking(index, &there.members) {
        return Ok(Some(Compared::Extra(place)));
    }
    match first_differing(
        alloc,
        &side.reading,
        side.media,
        side.sheet.items,
        &there.reading,
        there.media,
        there.sheet.items,
    )? {
        Some(number) => Ok(Some(Compared::KeptItem(number))),
        None => Ok(None),
    }
}

/// What is found in the couples of these members of the first of two sheets.
#[tactic(auto, using(sheet_order::proofs::ForCallers::stays_itself))]
fn found_in_couples(
    alloc: Global,
    pairs: &mut Pairs,
    twins: &Twins<'_>,
    members: &[Member<'_>],
) -> Result<Option<Compared>, AllocError>
    requires { AllByRecursion IsAskable members.now }
    ensures stays { Stays pairs.old pairs.new }
    ensures judged { IfOk result (λ found. IsJudged pairs.new.answers twins.now.sheet.now.items.now
        (couples_of (map (standing_of twins.now.sheet.now.items.now twins.now.other.now.items.now) members.now)) found) }
{
    let members = standings(alloc, twins, members)?;
    judged(alloc, pairs, twins.sheet.items, &members)
}

/// What is found in two sheets by four tests.
#[tactic(auto, using(sheet_order::proofs::ForCallers::stays_itself))]
fn found_in_sides(
    alloc: Global,
    pairs: &mut Pairs,
    side: &Side<'_>,
    there: &Side<'_>,
) -> Result<Option<Compared>, AllocError>
    requires few { length side.now.sheet.items.now < 2 ^ 32 }
    requires first { AllByRecursion IsAskable side.now.members.items }
    requires second { AllByRecursion IsAskable there.now.members.items }
    ensures stays { Stays pairs.old pairs.new }
    ensures found { IfOk result (λ found. spec.IsFound pairs.new.answers
        side.now.reading.source.now side.now.media.now side.now.sheet.items.now
        there.now.reading.source.now there.now.media.now there.now.sheet.items.now found) }
{
    listed_stands_last();
    order_is_decided();
    weighing_is_decided();
    let index = PairIndex::new(alloc, &side.sheet.pairs)?;
    let twins = Twins::new(alloc, &side.sheet, &there.sheet)?;
    if let Some(found) = found_in_parts(alloc, side, &index, there, &twins.index)? {
        return Ok(Some(found));
    }
    found_in_couples(alloc, pairs, &twins, &side.members)
}

/// A sheet that is read from a source, and those of its blocks that count as opened.
#[derive(Drop)]
struct Text<'a> {
    sheet: &'a Sheet,
    source: &'a [u8],
    media: &'a [Media],
    ghost read: { sheet_of source.now ≡ Ok sheet.now.items },
}

/// What is found in two sheets by four tests.
#[tactic(auto, using(sheet_order::proofs::ForCallers::stays_itself))]
fn found_in_texts(
    alloc: Global,
    pairs: &mut Pairs,
    text: &Text<'_>,
    other: &Text<'_>,
) -> Result<Option<Compared>, AllocError>
    ensures stays { Stays pairs.old pairs.new }
    ensures found { IfOk result (λ found. spec.IsFound pairs.new.answers
        text.now.source.now text.now.media.now text.now.sheet.now.items
        other.now.source.now other.now.media.now other.now.sheet.now.items found) }
{
    let side = side_of(alloc, text.sheet, text.source, text.media)?;
    let there = side_of(alloc, other.sheet, other.source, other.media)?;
    found_in_sides(alloc, pairs, &side, &there)
}

/// The body of an opened block, in which no block is opened.
fn body_of<'a>(source: &'a [u8], block: &'a Media) -> Text<'a>
    requires { IsBlockOf source.now block.now }
    ensures source { result.source.now ≡ text_at source.now block.now.body }
    ensures sheet { result.sheet.now ≡ block.now.sheet }
    ensures media { result.media.now ≡ [] }
{
    Text {
        sheet: &block.sheet,
        source: block.body.text(source),
        media: &[],
    }
}

/// What is found in the bodies of two opened blocks by four tests.
fn found_in_bodies(
    alloc: Global,
    pairs: &mut Pairs,
    source: &[u8],
    block: &Media,
    there: &[u8],
    twin: &Media,
) -> Result<Option<Compared>, AllocError>
    requires first { IsBlockOf source.now block.now }
    requires second { IsBlockOf there.now twin.now }
    ensures stays { Stays pairs.old pairs.new }
    ensures found { IfOk result (λ found. spec.IsFound pairs.new.answers
        (text_at source.now block.now.body) [] block.now.sheet.items
        (text_at there.now twin.now.body) [] twin.now.sheet.items found) }
{
    let body = body_of(source, block);
    let other = body_of(there, twin);
    found_in_texts(alloc, pairs, &body, &other)
}

/// The answer that nothing is found.
fn nothing() -> Difference
    ensures { result ≡ spec.nothing }
{
    Difference {
        compared: Compared::Same,
        body: None,
    }
}

/// What is found in the bodies of opened blocks.
#[tactic(auto, using(sheet_order::proofs::ForCallers::stays_itself))]
fn compare_bodies(
    alloc: Global,
    pairs: &mut Pairs,
    source: &[u8],
    media: &[Media],
    there: &[u8],
    twins: &[Media],
) -> Result<Difference, AllocError>
    requires few { length media.now < 2 ^ 32 }
    requires first { AllByRecursion (IsBlockOf source.now) media.now }
    requires second { AllByRecursion (IsBlockOf there.now) twins.now }
    ensures stays { Stays pairs.old pairs.new }
    ensures told { IfOk result (λ d. spec.BodiesTell pairs.new.answers 0 source.now media.now there.now twins.now d) }
{
    let mut number = 0;
    let mut rest = media;
    let mut more = twins;
    'bodies: while let Some((block, behind)) = rest.split_first() {
        let Some((other, after)) = more.split_first() else {
            return Ok(nothing());
        };
        if let Some(compared) = found_in_bodies(alloc, pairs, source, block, there, other)? {
            return Ok(Difference {
                compared,
                body: Some(number),
            });
        }
        number += 1;
        rest = behind;
        more = after;
    }
    Ok(nothing())
}

/// What is found in two sheets, each read from its source, by five tests. The first test that finds something answers:
///
/// - the first pair that the second sheet lacks;
/// - the first pair that the first sheet lacks;
/// - the first place at which the lists of kept items differ, where two opened blocks of media count by their heads;
/// - the first couple of members that weigh and whose last order differs, unless it is of two pairs whose selectors are
///   answered to be apart;
/// - the first opened blocks in whose bodies these four tests find something, where no block inside counts as opened.
///
/// Places are the last ones of pairs. They ascend by item, declaration and selector. The answers are asked for couple
/// by couple, the earlier selector first. All answers that were held stay. `AllocError` where memory runs out; they
/// stay then too.
#[tactic(auto, using(crate::proofs::Bodies::few_blocks))]
pub fn compare(
    alloc: Global,
    pairs: &mut Pairs,
    sheet: &Sheet,
    source: &[u8],
    other: &Sheet,
    there: &[u8],
) -> Result<Difference, AllocError>
    requires first { sheet_of source.now ≡ Ok sheet.now.items }
    requires second { sheet_of there.now ≡ Ok other.now.items }
    ensures stays { Stays pairs.old pairs.new }
    ensures difference { IfOk result (λ d. spec.IsDifference pairs.new.answers source.now sheet.now.items there.now other.now.items d) }
{
    opened_blocks_are_sheets();
    read_is_plannable();
    let media = open_media(alloc, sheet, source)?;
    let twins = open_media(alloc, other, there)?;
    let text = Text {
        sheet,
        source,
        media: &media,
    };
    let twin = Text {
        sheet: other,
        source: there,
        media: &twins,
    };
    match found_in_texts(alloc, pairs, &text, &twin)? {
        Some(compared) => Ok(Difference {
            compared,
            body: None,
        }),
        None => compare_bodies(alloc, pairs, source, &media, there, &twins),
    }
}
