//! A place by line and column.

ghost use Rattle.std.specs.Prelude.{◌≡◌, ◌++◌, decimal, OnOk};
ghost use Rattle.line_places.specs.Lines as spec;

use itoa::Buffer;
use std::alloc::AllocError;

/// A place in a text.
#[derive(Clone, Copy, Debug, PartialEq, Eq)]
pub struct Place {
    /// The number of its line, from 1.
    pub line: usize,
    /// Its number among the code points of the line, from 1.
    pub column: usize,
}

/// Appends a number in decimal.
fn push_number(out: &mut Vec<u8>, number: usize) -> Result<(), AllocError>
    ensures { OnOk result (out.new.items ≡ out.old.items ++ decimal number) }
{
    let mut buffer = Buffer::new();
    out.extend_from_slice(buffer.format(number).as_bytes())
}

/// Appends a place, as `LINE:COLUMN`. `AllocError` where memory is short.
pub fn put_place(out: &mut Vec<u8>, place: Place) -> Result<(), AllocError>
    ensures { OnOk result (out.new.items ≡ out.old.items ++ spec.place_text place) }
{
    push_number(out, place.line)?;
    out.extend_from_slice(b":")?;
    push_number(out, place.column)
}
