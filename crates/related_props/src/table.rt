//! The table of families, and the family that it names for a part.

ghost use Rattle.std.specs.Prelude.{◌≡◌, ◌==◌, false, None, find, map, zip};
ghost use Rattle.std.specs.List.{list_all, list_any};
ghost use Rattle.std.specs.Option.{option_copied};
ghost use Rattle.css_model.specs.Lists.{same_text};
ghost use Rattle.css_model.specs.Cascade.Family.{rows, family_in};
ghost use Rattle.related_props.specs.Table.{row_of};

use crate::bits::bit_of;

/// A family of the table, and the parts of names that lead to it, in ASCII.
struct Row {
    family: &'static [u8],
    parts: &'static [&'static [u8]],
}

/// The table of families.
const TABLE: [Row; 10] = [
    Row {
        family: b"grid",
        parts: &[
            b"columns", b"column", b"gap", b"row", b"rule", b"grid", b"page", b"break",
        ],
    },
    Row {
        family: b"font",
        parts: &[b"font", b"line"],
    },
    Row {
        family: b"inset",
        parts: &[b"top", b"right", b"bottom", b"left", b"inset"],
    },
    Row {
        family: b"size",
        parts: &[b"width", b"height", b"inline", b"block", b"logical"],
    },
    Row {
        family: b"place",
        parts: &[b"align", b"justify", b"place"],
    },
    Row {
        family: b"wrap",
        parts: &[b"word", b"overflow"],
    },
    Row {
        family: b"text",
        parts: &[b"white", b"text", b"glyph"],
    },
    Row {
        family: b"color",
        parts: &[b"color", b"print"],
    },
    Row {
        family: b"offset",
        parts: &[b"offset", b"motion"],
    },
    Row {
        family: b"vertical",
        parts: &[b"vertical", b"alignment", b"baseline"],
    },
];

fn agrees(text: &[char], word: &[u8]) -> bool
    ensures { result ≡ list_all (λ p. p.0 == p.1) (zip text.now word.now) }
{
    text.iter().zip(word).all(|(c, b)| *c == char::from(*b))
}

/// Whether a text is this word of ASCII.
pub(crate) fn is_word(text: &[char], word: &[u8]) -> bool
    ensures { result ≡ same_text text.now word.now }
{
    text.len() == word.len() && agrees(text, word)
}

fn has_word(words: &[&'static [u8]], text: &[char]) -> bool
    ensures { result ≡ list_any (λ word. same_text text.now word.now) words.now }
{
    words.iter().any(|word| is_word(text, word))
}

/// The first row of a table that has a part.
fn row_among<'a>(table: &'a [Row], part: &[char]) -> Option<&'a Row>
    ensures { option_copied result ≡ find (λ row. list_any (λ word. same_text part.now word.now) row.parts.now) table.now }
{
    table.iter().find(|row| has_word(row.parts, part))
}

/// The family that a table names for a part, if it has the part.
fn family_among(table: &[Row], part: &[char]) -> Option<&'static [u8]>
    ensures { option_copied result ≡ family_in (map row_of table.now) part.now }
{
    match row_among(table, part) {
        Some(row) => Some(row.family),
        None => None,
    }
}

/// The bits of the parts of the table.
const LISTED: u64 = 0x8313_c144_788c_741c;

/// Whether the table may have a part, by its bit.
#[tactic(auto, using(crate::proofs::ListedBits::none_listed))]
fn may_be_listed(part: &[char]) -> bool
    ensures { result ≡ false → family_in rows part.now ≡ None }
{
    LISTED & (1 << bit_of(part)) != 0
}

/// The family that the table names for a part, if it has the part.
pub(crate) fn listed_family(part: &[char]) -> Option<&'static [u8]>
    ensures { option_copied result ≡ family_in rows part.now }
{
    if !may_be_listed(part) {
        return None;
    }
    family_among(&TABLE, part)
}
