//! The lines of entries.

ghost use Rattle.std.specs.Prelude.{◌≡◌, ◌++◌, IfOk, OnOk, is_some};
ghost use Rattle.std.specs.Option.{option_copied};
ghost use Rattle.line_places.specs.Lines.{place_of, place_text};
ghost use Rattle.inspect_laws.specs.Words as words;
ghost use Rattle.inspect_text.specs.InspectTexts as spec;

use crate::entry::Entry;
use line_places::{Lines, put_place, put_shown};
use std::alloc::{AllocError, Global};
use style_text::push_specificity;

/// The word for an entry in a block or in none, where it has lost or has not.
fn word(lost: bool, inside: bool) -> &'static [u8]
    ensures { result.now ≡ spec.word_text (words.word lost inside) }
{
    match (lost, inside) {
        (true, _) => b"lost",
        (false, true) => b"when",
        (false, false) => b"wins",
    }
}

/// Appends where an entry's declaration begins.
fn push_place(out: &mut Vec<u8>, lines: &Lines<'_>, at: usize) -> Result<(), AllocError>
    ensures { OnOk result (out.new.items ≡ out.old.items ++ place_text (place_of lines.now.text.now at)) }
{
    put_place(out, lines.place(at))
}

/// Appends the head of a block, after a space, if there is one.
fn push_head(out: &mut Vec<u8>, head: Option<&[u8]>) -> Result<(), AllocError>
    ensures { OnOk result (out.new.items ≡ out.old.items ++ spec.head_part (option_copied head.entry)) }
{
    match head {
        None => Ok(()),
        Some(head) => {
            out.extend_from_slice(b" ")?;
            put_shown(out, head)
        }
    }
}

/// The line of an entry that has lost or has not, with its end.
pub(crate) fn line_of(
    alloc: Global,
    lines: &Lines<'_>,
    lost: bool,
    e: &Entry<'_>,
) -> Result<Vec<u8>, AllocError>
    ensures { IfOk result (λ line. line.items ≡ spec.entry_line lines.now.text.now (words.word lost (is_some e.now.head)) e.now) }
{
    let mut line = word(lost, e.head.is_some()).to_vec(alloc)?;
    line.extend_from_slice(b" ")?;
    push_place(&mut line, lines, e.at)?;
    line.extend_from_slice(b" ")?;
    push_specificity(&mut line, e.weight)?;
    line.extend_from_slice(b" ")?;
    put_shown(&mut line, &e.text)?;
    push_head(&mut line, e.head)?;
    line.extend_from_slice(b"\n")?;
    Ok(line)
}
