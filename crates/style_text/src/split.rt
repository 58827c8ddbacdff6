//! The two parts of an input.

ghost use Rattle.std.specs.Prelude.{◌≡◌, false};
ghost use Rattle.css_model.specs.Text.Characters.{begins, line_feed};
ghost use Rattle.style_text.specs.Inputs.{document_part, sheet_part};

use memchr::memmem;

/// The parts of an input that does not begin with an empty line.
fn split_behind_line(input: &[u8]) -> (&[u8], &[u8])
    requires { begins line_feed input.now ≡ false }
    ensures document { result.0.now ≡ document_part input.now }
    ensures sheet { result.1.now ≡ sheet_part input.now }
{
    match memmem::find(input, b"\n\n") {
        Some(at) => (&input[..at + 1], &input[at + 2..]),
        None => (input, &[]),
    }
}

/// The document's text and the sheet of an input: what comes before the first empty line, and what comes after it. Without
/// an empty line the sheet is empty. It takes no memory.
pub fn split_input(input: &[u8]) -> (&[u8], &[u8])
    ensures document { result.0.now ≡ document_part input.now }
    ensures sheet { result.1.now ≡ sheet_part input.now }
{
    match input.strip_prefix(b"\n") {
        Some(sheet) => (&[], sheet),
        None => split_behind_line(input),
    }
}
