//! Names that no test refuses, of `x`, `x1`, `x2` ..

ghost use Rattle.std.specs.Prelude.{◌≡◌, ◌++◌, not, IfOk, OnOk, decimal};
ghost use Rattle.compound_fit.specs.FreeNames.{IsFirstFree, free_name, is_among};

use css_model::Text;
use itoa::Buffer;
use std::alloc::{AllocError, Global};

/// The first name that is not refused, of `x` and `x` with a number from 1. `AllocError` where memory runs out.
pub fn first_free(alloc: Global, refused: &[Text]) -> Result<Text, AllocError>
    ensures { IfOk result (λ v. IsFirstFree v refused.now) }
{
    for number in 0..=refused.len() {
        let name = free_name(alloc, number)?;
        if is_free(refused, &name) {
            return Ok(name);
        }
    }
    unreachable!()
}

/// Whether a name is not refused.
fn is_free(refused: &[Text], name: &Text) -> bool
    ensures { result ≡ not (is_among refused.now name.now) }
{
    !refused.contains(name)
}

/// The name of a number.
fn free_name(alloc: Global, number: usize) -> Result<Text, AllocError>
    ensures { IfOk result (λ v. v ≡ free_name number) }
{
    let mut codes = Vec::new(alloc);
    codes.push('x')?;
    if number > 0 {
        push_decimal(&mut codes, number)?;
    }
    Ok(Text::new(codes))
}

/// Appends the digits of a number.
fn push_decimal(codes: &mut Vec<char>, number: usize) -> Result<(), AllocError>
    ensures { OnOk result (codes.new.items ≡ codes.old.items ++ decimal number) }
{
    let mut buffer = Buffer::new();
    push_ascii(codes, buffer.format(number).as_bytes())?;
    Ok(())
}

/// Appends bytes of ASCII as code points.
fn push_ascii(codes: &mut Vec<char>, bytes: &[u8]) -> Result<(), AllocError>
    ensures { OnOk result (codes.new.items ≡ codes.old.items ++ bytes.now) }
{
    for byte in bytes {
        codes.push(*byte as char)?;
    }
    Ok(())
}
