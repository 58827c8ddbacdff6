//! Texts of whole lines.

ghost use Rattle.std.specs.Prelude.{◌≡◌, ◌++◌, ◌∷◌, [], OnOk, IfOk};
ghost use Rattle.command_texts.specs.Texts.{BeginsWithLine, EndsLine};

use std::alloc::{AllocError, Global};

/// The text, with an end of its last line where it has none.
pub(crate) fn ended(text: &[u8], alloc: Global) -> Result<Vec<u8>, AllocError>
    ensures { IfOk result (λ whole. EndsLine whole.items) }
{
    let front = match text.strip_suffix(b"\n") {
        Some(front) => front,
        None => text,
    };
    let mut whole = front.to_vec(alloc)?;
    whole.push(b'\n')?;
    Ok(whole)
}

/// Appends a text and the end of a line. `AllocError` if memory runs out.
fn put_line(out: &mut Vec<u8>, text: &[u8]) -> Result<(), AllocError>
    ensures { OnOk result (out.new.items ≡ out.old.items ++ (text.now ++ 10 ∷ [])) }
{
    out.extend_from_slice(text)?;
    out.push(b'\n')?;
    Ok(())
}

/// A text that begins with this line. After the line comes what comes after it in `text`, or all of `text` if that does not
/// begin with the line. `AllocError` if memory runs out.
pub(crate) fn begun(alloc: Global, line: &str, text: &[u8]) -> Result<Vec<u8>, AllocError>
    ensures { IfOk result (λ whole. BeginsWithLine line.now whole.items) }
{
    let mut whole = Vec::new(alloc);
    put_line(&mut whole, line.as_bytes())?;
    let after = match text.strip_prefix(whole.as_slice()) {
        Some(after) => after,
        None => text,
    };
    let more = match after.strip_suffix(b"\n") {
        Some(more) => more,
        None => after,
    };
    put_line(&mut whole, more)?;
    Ok(whole)
}
