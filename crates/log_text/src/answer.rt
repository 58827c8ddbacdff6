//! The text of an answer.

ghost use Rattle.std.specs.Prelude.{◌≡◌, IfOk};
ghost use Rattle.log_text.specs.CheckedTexts.{checked_text};

use itoa::Buffer;
use rup_check::Checked;
use std::alloc::{AllocError, Global};

/// The line of an answer. `AllocError` where memory runs out.
pub(crate) fn print_answer(alloc: Global, answer: Checked) -> Result<Vec<u8>, AllocError>
    ensures { IfOk result (λ text. text.items ≡ checked_text answer) }
{
    match answer {
        Checked::Yes => b"yes\n".to_vec(alloc),
        Checked::No(number) => print_no(alloc, number),
    }
}

/// The line of a step that is not forced.
fn print_no(alloc: Global, number: u64) -> Result<Vec<u8>, AllocError>
    ensures { IfOk result (λ text. text.items ≡ checked_text (Checked.No number)) }
{
    let mut text = b"no ".to_vec(alloc)?;
    let mut buffer = Buffer::new();
    text.extend_from_slice(buffer.format(number).as_bytes())?;
    text.push(b'\n')?;
    Ok(text)
}
