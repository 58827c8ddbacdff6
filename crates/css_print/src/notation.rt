//! The printed form of a step and an offset: the shortest notation (Selectors 3, section 6.6.5.2).

ghost use Rattle.std.specs.Prelude.{◌≡◌, ◌∷◌, ◌++◌, OnOk};
ghost use Rattle.std.specs.Fmt.{signed_decimal};
ghost use Rattle.css_model.specs.Positions.Printed.{anb_text, letter_n, numbers_text, offset_text, step_text};
ghost use Rattle.css_print.specs.Terms.{plus_before};

use crate::output::Output;
use css_model::AnB;
use itoa::Buffer;

fn put_number<O: Output>(out: &mut O, number: i32) -> Result<(), O::Error>
    ensures { OnOk result (O.more out.old (signed_decimal number) out.new) }
{
    let mut buffer = Buffer::new();
    out.put(buffer.format(number).as_bytes())
}

/// Writes what comes before the `n`: the number 1 is left out.
fn put_step<O: Output>(out: &mut O, step: i32) -> Result<(), O::Error>
    ensures { OnOk result (O.more out.old (step_text step) out.new) }
{
    match step {
        1 => out.put(b""),
        -1 => out.put(b"-"),
        _ => put_number(out, step),
    }
}

/// The sign before a size that has none of its own.
fn plus_before(offset: i32) -> &'static [u8]
    ensures { result.now ≡ plus_before offset }
{
    if offset < 0 { b"" } else { b"+" }
}

/// An offset with its sign.
fn put_signed<O: Output>(out: &mut O, offset: i32) -> Result<(), O::Error>
    ensures { OnOk result (O.more out.old (plus_before offset ++ signed_decimal offset) out.new) }
{
    out.put(plus_before(offset))?;
    put_number(out, offset)
}

/// Writes what comes after the `n`: nothing for 0.
fn put_offset<O: Output>(out: &mut O, offset: i32) -> Result<(), O::Error>
    ensures { OnOk result (O.more out.old (offset_text offset) out.new) }
{
    if offset == 0 {
        out.put(b"")
    } else {
        put_signed(out, offset)
    }
}

/// Writes a step and an offset, with the `n` between them.
fn put_both<O: Output>(out: &mut O, step: i32, offset: i32) -> Result<(), O::Error>
    ensures { OnOk result (O.more out.old (step_text step ++ letter_n ∷ offset_text offset) out.new) }
{
    put_step(out, step)?;
    out.put(b"n")?;
    put_offset(out, offset)?;
    Ok(())
}

/// Writes the offset alone for step 0, else step and offset.
fn put_numbers<O: Output>(out: &mut O, x: AnB) -> Result<(), O::Error>
    ensures { OnOk result (O.more out.old (numbers_text x) out.new) }
{
    if x.a == 0 {
        put_number(out, x.b)
    } else {
        put_both(out, x.a, x.b)
    }
}

/// Writes the shortest notation of a step and an offset.
pub(crate) fn put_anb<O: Output>(out: &mut O, x: AnB) -> Result<(), O::Error>
    ensures { OnOk result (O.more out.old (anb_text x) out.new) }
{
    if x.a == 2 && x.b == 1 {
        out.put(b"odd")
    } else {
        put_numbers(out, x)
    }
}
