//! What the rules of a sheet apply to an element of a document, from bytes to bytes.

ghost use Rattle.std.specs.Prelude.{◌≡◌, ◌++◌, ◌∷◌, Ok, IsTrue, false, map, IfErr, IfOk, OnOk};
ghost use Rattle.std.specs.Cmp.Lexicographic.{slice_cmp};
ghost use Rattle.std.specs.Ordering.{nat_cmp};
ghost use Rattle.std.specs.List.{All, AllPairs, Contains, IsDistinct, flat_map};
ghost use Rattle.std.specs.List.Sorted.{IsStrictlySortedBy};
ghost use Rattle.css_model.specs.Documents.RunDocuments.{KeepsRules};
ghost use Rattle.css_model.specs.Sheets.Sheet.{sheet_of};
ghost use Rattle.css_model.specs.Sheets.Spelling.{kept_text};
ghost use Rattle.inspect_laws.specs.Entries as laws;
ghost use Rattle.inspect_laws.specs.Groups as groups;
ghost use Rattle.inspect_laws.specs.Order as order;
ghost use Rattle.media_groups.specs.Opened.{opened_of};
ghost use Rattle.style_text.specs.Styled.{IsCause};
ghost use Rattle.inspect_text.specs.InspectTexts as spec;

use crate::claims::{Claims, is_beaten, put_claim};
use crate::counting::kept_in_all;
use crate::entry::Entry;
use crate::families::families_of;
use crate::gathering::{entries_of, heads_of};
use crate::groups::{GroupText, no_lines, put_line};
use crate::ordering::in_order;
use crate::telling::line_of;
use css_model::{Bytes, Example, MAX_BYTES, Sheet, Text};
use inspect_laws::ranks_differ;
use itoa::Buffer;
use line_places::Lines;
use media_groups::{Media, open_media, reading_of};
use std::alloc::{AllocError, Global};
use std::collections::HashSet;
use style_text::{StyleError, read_document, read_source, split_input, too_long};

/// The lines of each group. The entries are in order, and these are the families that have a group.
fn group_texts(
    alloc: Global,
    lines: &Lines<'_>,
    sorted: &[Entry<'_>],
    families: &[Text],
) -> Result<Vec<GroupText>, AllocError>
    requires descending { AllPairs (λ e f. IsTrue (order.outranks e f)) sorted.now }
    requires ascending { IsStrictlySortedBy (slice_cmp nat_cmp) families.now }
    requires there { All (λ e. groups.is_all e ≡ false → Contains families.now (groups.family_name e)) sorted.now }
    ensures { IfOk result (λ texts. texts.items ≡ map (spec.lines_in lines.now.text.now sorted.now sorted.now) families.now) }
{
    let mut texts = no_lines(alloc, families)?;
    let mut claims: Claims<'_> = HashSet::new(alloc);
    for e in sorted {
        let lost = is_beaten(&claims, e);
        let line = line_of(alloc, lines, lost, e)?;
        put_line(&mut texts, alloc, families, e, &line)?;
        put_claim(&mut claims, e)?;
    }
    Ok(texts)
}

/// Appends the lines of a group after an empty line.
fn push_group(out: &mut Vec<u8>, group: &GroupText) -> Result<(), AllocError>
    ensures { OnOk result (out.new.items ≡ out.old.items ++ (10 ∷ group.now)) }
{
    out.push(b'\n')?;
    out.extend_from_slice(&group.text)
}

/// Appends the lines of groups, each after an empty line.
fn push_groups(out: &mut Vec<u8>, groups: &[GroupText]) -> Result<(), AllocError>
    ensures { OnOk result (out.new.items ≡ out.old.items ++ flat_map (λ text. 10 ∷ text) groups.now) }
{
    for group in groups {
        push_group(out, group)?;
    }
    Ok(())
}

/// The line with the number of kept items.
fn kept_line(alloc: Global, count: usize) -> Result<Vec<u8>, AllocError>
    ensures { IfOk result (λ text. text.items ≡ spec.kept_line count) }
{
    let mut text = b"kept ".to_vec(alloc)?;
    let mut buffer = Buffer::new();
    text.extend_from_slice(buffer.format(count).as_bytes())?;
    text.push(b'\n')?;
    Ok(text)
}

/// The kept texts of the heads of the opened blocks of a sheet that was read from this source.
fn heads_in(
    alloc: Global,
    source: &[u8],
    sheet: &Sheet,
    media: &[Media],
) -> Result<Vec<Bytes>, AllocError>
    requires { sheet_of source.now ≡ Ok sheet.now.items }
    ensures { IfOk result (λ heads. heads.items ≡ map (λ m. kept_text source.now m.head) media.now) }
{
    if media.is_empty() {
        return Ok(Vec::new(alloc));
    }
    let reading = reading_of(alloc, sheet, source)?;
    heads_of(alloc, &reading, media)
}

/// The lines of all groups of some entries.
fn lines_of_groups(
    alloc: Global,
    lines: &Lines<'_>,
    entries: Vec<Entry<'_>>,
) -> Result<Vec<GroupText>, AllocError>
    requires { IsDistinct order.same_rank entries.items }
    ensures { IfOk result (λ texts. spec.AreGroups lines.now.text.now entries.entry.items texts.items) }
{
    let families = families_of(alloc, &entries)?;
    let sorted = in_order(entries)?;
    group_texts(alloc, lines, &sorted, &families)
}

/// The lines of all groups of the entries of a sheet with these opened blocks.
fn groups_of(
    alloc: Global,
    x: &Example,
    source: &[u8],
    sheet: &Sheet,
    media: &[Media],
) -> Result<Vec<GroupText>, AllocError>
    requires rules { KeepsRules x.now }
    requires read { sheet_of source.now ≡ Ok sheet.now.items }
    requires blocks { media.now ≡ opened_of sheet.now.items source.now }
    ensures { IfOk result (λ texts. spec.AreGroups source.now (laws.entries_of x.now source.now sheet.now.items) texts.items) }
{
    // A law, which does nothing.
    ranks_differ();
    let lines = Lines::new(alloc, source)?;
    let heads = heads_in(alloc, source, sheet, media)?;
    let entries = entries_of(alloc, x, source, sheet, media, &heads)?;
    lines_of_groups(alloc, &lines, entries)
}

/// What a sheet that was read from this source applies to the marked element of an example, as lines.
fn tell_entries(
    alloc: Global,
    x: &Example,
    source: &[u8],
    sheet: &Sheet,
) -> Result<Vec<u8>, AllocError>
    requires rules { KeepsRules x.now }
    requires read { sheet_of source.now ≡ Ok sheet.now.items }
    ensures { IfOk result (λ text. spec.TellsEntries x.now source.now sheet.now.items text.items) }
{
    let media = open_media(alloc, sheet, source)?;
    let texts = groups_of(alloc, x, source, sheet, &media)?;
    let mut text = kept_line(alloc, kept_in_all(source, sheet, &media))?;
    push_groups(&mut text, &texts)?;
    Ok(text)
}

/// What is told of a document's text and a sheet.
fn inspection(alloc: Global, document: &[u8], source: &[u8]) -> Result<Vec<u8>, StyleError>
    ensures { spec.Inspects result document.now source.now }
{
    let x = read_document(alloc, document)?;
    let sheet = read_source(alloc, source)?;
    Ok(tell_entries(alloc, &x, source, &sheet)?)
}

/// What the rules of a style sheet apply to an element of a small page, in the order of the cascade, as lines of bytes
/// (CSS Cascading 3, section 6). `input` is that of `style_lines`: the text of a document, as `print_doc` writes it, then
/// an empty line and a style sheet.
///
/// - The first line has the number of kept items: those of the sheet and of its opened `@media` bodies, without the
///   opened blocks. What these apply does not count.
/// - Then comes each group after an empty line: the entries whose properties are of one family, and those of `all`. The
///   groups ascend by the names of the families. An entry is a declaration of a style rule, by a selector of this rule
///   that matches the marked element or its pseudo-element.
/// - An entry has a line `WORD LINE:COLUMN A,B,C SELECTOR{DECLARATION}`, the greatest first: its word, where the
///   declaration begins in the sheet, the specificity of the selector, and both printed. In an opened block ` HEAD`
///   follows, the kept text of the block's head. Control codes of ASCII are spaces.
///
/// | word | the entry |
/// |---|---|
/// | `lost` | a greater one, in no block or under the same head, has the same property or `all` |
/// | `wins` | otherwise, in no block |
/// | `when` | otherwise, in an opened block |
///
/// | error | exactly when |
/// |---|---|
/// | `Sheet(TooLong at 1048576)` | first: the input has more than 1,048,576 bytes |
/// | `Document` | then: `read_doc` has that fault |
/// | `Sheet` | then: the sheet has that fault, at a place in bytes from its start |
///
/// `NoMemory` comes where memory is short.
pub fn inspect_lines(alloc: Global, input: &[u8]) -> Result<Vec<u8>, StyleError>
    ensures ok { IfOk result (λ text. spec.IsInspected input.now text.items) }
    ensures err { IfErr result (IsCause input.now) }
{
    if input.len() > MAX_BYTES as usize {
        return Err(StyleError::Sheet(too_long()));
    }
    let (document, source) = split_input(input);
    inspection(alloc, document, source)
}
