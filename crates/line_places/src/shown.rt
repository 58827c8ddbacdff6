//! A text as it is shown on one line of a terminal.

ghost use Rattle.std.specs.Prelude.{◌≡◌, ◌++◌, OnOk};
ghost use Rattle.line_places.specs.Shown as spec;

use std::alloc::AllocError;

/// Whether a byte is a control code of ASCII.
fn is_control(byte: u8) -> bool
    ensures { result ≡ spec.is_control byte }
{
    byte < b' ' || byte == 0x7F
}

/// A space for a control code. All else stays.
fn shown_byte(byte: u8) -> u8
    ensures { result ≡ spec.shown_byte byte }
{
    if is_control(byte) { b' ' } else { byte }
}

/// Appends a text with a space for each control code of ASCII, so that it is one line and no terminal obeys it.
/// `AllocError` where memory is short.
pub fn put_shown(out: &mut Vec<u8>, text: &[u8]) -> Result<(), AllocError>
    ensures { OnOk result (out.new.items ≡ out.old.items ++ spec.shown text.now) }
{
    for byte in text {
        out.push(shown_byte(*byte))?;
    }
    Ok(())
}
