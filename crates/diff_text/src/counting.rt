//! The first line: how many lines there are of each word.

ghost use Rattle.std.specs.Prelude.{◌≡◌, ◌≤◌, ◌++◌, IfOk, OnOk, length, decimal};
ghost use Rattle.std.specs.List.{count_by, filter};
ghost use Rattle.diff_text.specs.Counting as counting;
ghost use Rattle.diff_text.specs.Lines as spec;

use crate::word::Word;
use itoa::Buffer;
use sheet_members::{Common, Compared, Member};
use std::alloc::AllocError;

/// A group of words in the first line.
#[derive(Clone, Copy)]
enum Group {
    Reversed,
    Related,
    Masked,
    Unsure,
}

/// Whether a word is of a group.
fn is_of(group: Group, word: Word) -> bool
    ensures { result ≡ counting.is_of group word }
{
    match group {
        Group::Reversed => matches!(word, Word::Reversed),
        Group::Related => matches!(word, Word::Related),
        Group::Masked => matches!(word, Word::Masked),
        Group::Unsure => matches!(
            word,
            Word::Kept | Word::Outside(_) | Word::Spent | Word::Media
        ),
    }
}

/// How many of some words are of a group.
fn count_of(group: Group, words: &[Word]) -> usize
    ensures exact { result ≡ count_by (counting.is_of group) words.now }
    ensures few { result ≤ length words.now }
{
    let mut count = 0;
    for word in words {
        if is_of(group, *word) {
            count += 1;
        }
    }
    count
}

/// How many of some common members are changed.
fn changed_count(commons: &[Common<'_>]) -> usize
    ensures exact { result ≡ count_by (λ c. c.mine.label.changed) commons.now }
    ensures few { result ≤ length commons.now }
{
    let mut count = 0;
    for common in commons {
        if common.is_changed() {
            count += 1;
        }
    }
    count
}

/// Appends a number in decimal.
pub(crate) fn push_number(out: &mut Vec<u8>, number: usize) -> Result<(), AllocError>
    ensures { OnOk result (out.new.items ≡ out.old.items ++ decimal number) }
{
    let mut buffer = Buffer::new();
    out.extend_from_slice(buffer.format(number).as_bytes())
}

/// Appends a text and a number after it.
fn push_count(out: &mut Vec<u8>, text: &[u8], number: usize) -> Result<(), AllocError>
    ensures { OnOk result (out.new.items ≡ out.old.items ++ (text.now ++ decimal number)) }
{
    out.extend_from_slice(text)?;
    push_number(out, number)
}

/// Appends a text, and how many of some words are of a group.
fn push_group(
    out: &mut Vec<u8>,
    text: &[u8],
    group: Group,
    words: &[Word],
) -> Result<(), AllocError>
    ensures { OnOk result (out.new.items ≡ out.old.items ++ (text.now ++ decimal (count_by (counting.is_of group) words.now))) }
{
    push_count(out, text, count_of(group, words))
}

/// Appends a text, and how many members there are.
fn push_members(out: &mut Vec<u8>, text: &[u8], members: &[Member<'_>]) -> Result<(), AllocError>
    ensures { OnOk result (out.new.items ≡ out.old.items ++ (text.now ++ decimal (length members.now))) }
{
    push_count(out, text, members.len())
}

/// Appends a text, and how many of some common members are changed.
fn push_changed(out: &mut Vec<u8>, text: &[u8], commons: &[Common<'_>]) -> Result<(), AllocError>
    ensures { OnOk result (out.new.items
        ≡ out.old.items ++ (text.now ++ decimal (length (filter (λ c. c.mine.label.changed) commons.now)))) }
{
    push_count(out, text, changed_count(commons))
}

/// Appends the first line: how many couples are told with each word, and how many members are lacking or changed.
pub(crate) fn put_first_line(
    out: &mut Vec<u8>,
    words: &[Word],
    compared: &Compared<'_>,
) -> Result<(), AllocError>
    ensures { OnOk result (out.new.items ≡ out.old.items ++ spec.first_line words.now compared.now) }
{
    push_group(out, b"reversed ", Group::Reversed, words)?;
    push_group(out, b" related ", Group::Related, words)?;
    push_group(out, b" masked ", Group::Masked, words)?;
    push_group(out, b" unsure ", Group::Unsure, words)?;
    push_members(out, b" missing ", &compared.missing)?;
    push_members(out, b" extra ", &compared.extra)?;
    push_changed(out, b" changed ", &compared.commons)?;
    out.push(b'\n')?;
    Ok(())
}
