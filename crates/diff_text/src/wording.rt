//! The word for a couple that is told.

ghost use Rattle.std.specs.Prelude.{◌≡◌, ◌∷◌, [], IfOk};
ghost use Rattle.std.specs.Option.{option_copied};
ghost use Rattle.css_model.specs.Documents.RunDocuments.{KeepsRules};
ghost use Rattle.css_model.specs.Lists.{begins_with};
ghost use Rattle.turned_members.specs.Turned.{couple};
ghost use Rattle.diff_text.specs.Shown.{AreReadySides, IsShownIn};
ghost use Rattle.diff_text.specs.Words as spec;

use crate::sides::Sides;
use crate::winning::{agree, name_of, winning};
use crate::word::Word;
use css_model::Example;
use sheet_members::Common;
use std::alloc::{AllocError, Global};
use turned_members::{Told, Verdict};

/// Whether two blocks have different heads.
fn are_other_heads(head: Option<&[u8]>, other: Option<&[u8]>) -> bool
    ensures { result ≡ spec.are_other_heads (option_copied head.entry) (option_copied other.entry) }
{
    match (head, other) {
        (Some(head), Some(other)) => head != other,
        _ => false,
    }
}

/// Whether two pairs are in blocks with different heads.
fn are_in_other_blocks(first: &Common<'_>, second: &Common<'_>) -> bool
    ensures { result ≡ spec.are_in_other_blocks (couple first.now second.now) }
{
    let one = first.here();
    let two = second.here();
    are_other_heads(one.head(), two.head())
}

/// Whether a text begins with `-`.
fn begins_with_dash(text: &[char]) -> bool
    ensures { result ≡ begins_with text.now (0x2D ∷ []) }
{
    match text {
        [] => false,
        [c, ..] => *c == '-',
    }
}

/// Whether a name is another one with `-` and more.
fn is_part_of(name: &[char], whole: &[char]) -> bool
    ensures { result ≡ spec.is_part_of name.now whole.now }
{
    match name.strip_prefix(whole) {
        Some(rest) => begins_with_dash(rest),
        None => false,
    }
}

/// The property `all`.
const ALL: &[char] = &['a', 'l', 'l'];

/// Whether a property is `all`.
fn is_all(name: &[char]) -> bool
    ensures { result ≡ spec.is_all name.now }
{
    name == ALL
}

/// Whether two properties may set one longhand by their spelling.
fn may_set_one(name: &[char], other: &[char]) -> bool
    ensures { result ≡ spec.may_set_one name.now other.now }
{
    name == other
        || (is_all(name) || is_all(other))
        || (is_part_of(name, other) || is_part_of(other, name))
}

/// Whether the properties of two pairs may set one longhand by their spelling.
fn sets_one(first: &Common<'_>, second: &Common<'_>) -> bool
    ensures { result ≡ spec.sets_one (couple first.now second.now) }
{
    may_set_one(name_of(first.here()), name_of(second.here()))
}

/// Whether the winners of two sheets agree at an example.
fn winners_agree(
    alloc: Global,
    sides: &Sides<'_>,
    first: &Common<'_>,
    second: &Common<'_>,
    x: &Example,
) -> Result<bool, AllocError>
    requires rules { KeepsRules x.now }
    requires ready { AreReadySides sides.now }
    ensures { IfOk result (λ found. found ≡ spec.winners_agree sides.now.occurrences sides.now.others (couple first.now second.now) x.now) }
{
    let mine = winning(alloc, x, first, second, sides.occurrences)?;
    let yours = winning(alloc, x, first, second, sides.others)?;
    Ok(agree(mine, yours))
}

/// The word for two pairs whose selectors meet at an example.
fn meeting_word(
    alloc: Global,
    sides: &Sides<'_>,
    first: &Common<'_>,
    second: &Common<'_>,
    x: &Example,
) -> Result<Word, AllocError>
    requires rules { KeepsRules x.now }
    requires ready { AreReadySides sides.now }
    ensures { IfOk result (λ word. word ≡ spec.meeting_word sides.now.occurrences sides.now.others (couple first.now second.now) x.now) }
{
    if are_in_other_blocks(first, second) {
        return Ok(Word::Media);
    }
    if !sets_one(first, second) {
        return Ok(Word::Related);
    }
    if winners_agree(alloc, sides, first, second, x)? {
        Ok(Word::Masked)
    } else {
        Ok(Word::Reversed)
    }
}

/// The word for a couple that is told.
pub(crate) fn word_of(alloc: Global, sides: &Sides<'_>, t: &Told<'_>) -> Result<Word, AllocError>
    requires shown { ∥ IsShownIn t.now.verdict ∥₁ }
    requires ready { AreReadySides sides.now }
    ensures { IfOk result (λ word. word ≡ spec.word_of sides.now.occurrences sides.now.others t.now) }
{
    match &t.verdict {
        Verdict::Kept => Ok(Word::Kept),
        Verdict::Outside(reason) => Ok(Word::Outside(*reason)),
        Verdict::Spent => Ok(Word::Spent),
        Verdict::Meet(x) => meeting_word(alloc, sides, t.first, t.second, x),
    }
}
