//! The rules of a made sheet.

ghost use Rattle.std.specs.Prelude.{◌≡◌, ◌≤◌, ◌++◌, ◌%◌, decimal, IfOk, OnOk};
ghost use Rattle.trial_gen.specs.Made.{declaration_text, made_sheet, property, rule_text, selector_text};

use crate::draws::Draws;
use itoa::Buffer;
use std::alloc::{AllocError, Global};

fn push_number(sheet: &mut Vec<u8>, number: u32) -> Result<(), AllocError>
    ensures { OnOk result (sheet.new.items ≡ sheet.old.items ++ decimal number) }
{
    let mut buffer = Buffer::new();
    sheet.extend_from_slice(buffer.format(number).as_bytes())
}

/// The property of a number.
fn property(number: u32) -> &'static [u8]
    ensures { result.now ≡ property (number % 4) }
{
    match number % 4 {
        0 => b"top",
        1 => b"left",
        2 => b"margin",
        _ => b"margin-left",
    }
}

fn push_selector(sheet: &mut Vec<u8>, draw: u32) -> Result<(), AllocError>
    ensures { OnOk result (sheet.new.items ≡ sheet.old.items ++ selector_text draw) }
{
    sheet.extend_from_slice(b".c")?;
    push_number(sheet, draw % 40)?;
    if draw % 3 == 0 {
        sheet.extend_from_slice(b">.d")?;
    }
    Ok(())
}

fn push_declaration(sheet: &mut Vec<u8>, draw: u32) -> Result<(), AllocError>
    ensures { OnOk result (sheet.new.items ≡ sheet.old.items ++ declaration_text draw) }
{
    sheet.extend_from_slice(property(draw))?;
    sheet.extend_from_slice(b":")?;
    push_number(sheet, draw / 4 % 5)?;
    sheet.extend_from_slice(b"px")
}

fn push_rule(sheet: &mut Vec<u8>, selector: u32, declaration: u32) -> Result<(), AllocError>
    ensures { OnOk result (sheet.new.items ≡ sheet.old.items ++ rule_text selector declaration) }
{
    push_selector(sheet, selector)?;
    sheet.extend_from_slice(b"{")?;
    push_declaration(sheet, declaration)?;
    sheet.extend_from_slice(b"}")
}

/// A sheet of `n` rules, as bytes: the same at each call. `n` is at most 2,000. `AllocError` where memory runs out.
pub fn make_sheet(alloc: Global, n: u32) -> Result<Vec<u8>, AllocError>
    requires { n ≤ 2000 }
    ensures { IfOk result (λ sheet. sheet.items ≡ made_sheet n) }
{
    let mut sheet = Vec::new(alloc);
    let mut draws = Draws::new();
    for _rule in 0..n {
        let selector = draws.draw();
        let declaration = draws.draw();
        push_rule(&mut sheet, selector, declaration)?;
    }
    Ok(sheet)
}
