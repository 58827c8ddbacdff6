//! The text of an example.

ghost use Rattle.std.specs.Prelude.{◌≡◌, ◌++◌, ◌∷◌, [], Some, IfOk, OnOk};
ghost use Rattle.css_model.specs.Text.Characters.{line_feed};
ghost use Rattle.doc_text.specs.DocText.{doc_text, ended, is_marked, line_text, line_texts};

use crate::heads::push_head;
use crate::line::push_line;
use css_model::{Example, RunLine};
use std::alloc::{AllocError, Global};

/// The text of an example, as bytes. The first line says whether the root counts as a child, and names the
/// pseudo-element. Each line of the document has one line of text: its depth, its count, whether it is the marked one,
/// and its type, text, flags and attributes. `AllocError` where memory runs out.
pub fn print_doc(alloc: Global, x: &Example) -> Result<Vec<u8>, AllocError>
    ensures { IfOk result (λ text. text.items ≡ doc_text x.now) }
{
    let mut out = Vec::new(alloc);
    push_head(&mut out, x.doc.root_is_child, x.pseudo)?;
    out.push(b'\n')?;
    push_lines(&mut out, alloc, x.doc.lines.as_slice(), x.marked)?;
    Ok(out)
}

/// Appends lines, each with its end. The line of this number is marked.
fn push_lines(
    out: &mut Vec<u8>,
    alloc: Global,
    lines: &[RunLine],
    marked: u32,
) -> Result<(), AllocError>
    ensures { OnOk result (out.new.items ≡ out.old.items ++ ended (line_texts (Some marked) 0 lines.now)) }
{
    let mut rest = lines;
    let mut k = 0;
    'lines: while let [line, more @ ..] = rest {
        push_ended(out, alloc, marked as usize == k, line)?;
        rest = more;
        k += 1;
    }
    Ok(())
}

/// Appends a line with its end.
fn push_ended(
    out: &mut Vec<u8>,
    alloc: Global,
    marked: bool,
    line: &RunLine,
) -> Result<(), AllocError>
    ensures { OnOk result (out.new.items ≡ out.old.items ++ (line_text marked line.now ++ line_feed ∷ [])) }
{
    push_line(out, alloc, marked, line)?;
    out.push(b'\n')?;
    Ok(())
}
