//! The line of a blocked step.

ghost use Rattle.std.specs.Prelude.{◌≡◌, ◌+◌, ◌++◌, codes, decimal, OnOk};
ghost use Rattle.report_text.specs.Report.{
  blocked_line,
  cause_text,
  item_text,
  items_text,
  kind_name,
  parts_text,
  taken_text,
};

use crate::lines::push_number;
use std::alloc::AllocError;
use step_laws::{BlockCause, Step};

/// The name of a step's kind.
fn kind_name(step: &Step) -> &'static [u8]
    ensures { result.now ≡ kind_name step.now }
{
    match step {
        Step::CutDecl { .. } => b"CutDecl",
        Step::CutSel { .. } => b"CutSel",
        Step::JoinSelUp { .. } => b"JoinSelUp",
        Step::JoinSelDown { .. } => b"JoinSelDown",
        Step::JoinDeclUp { .. } => b"JoinDeclUp",
        Step::JoinDeclDown { .. } => b"JoinDeclDown",
        Step::Share { .. } => b"Share",
    }
}

/// Appends a number that counts from 0 as one that counts from 1.
fn push_counted(out: &mut Vec<u8>, number: u32) -> Result<(), AllocError>
    ensures { OnOk result (out.new.items ≡ out.old.items ++ decimal (number + 1)) }
{
    push_number(out, u64::from(number) + 1)
}

/// Appends the number of an item, after that of the item whose body it is in.
fn push_item(out: &mut Vec<u8>, block: Option<u32>, item: u32) -> Result<(), AllocError>
    ensures { OnOk result (out.new.items ≡ out.old.items ++ item_text block item) }
{
    match block {
        None => push_counted(out, item),
        Some(outer) => {
            push_counted(out, outer)?;
            out.extend_from_slice(b".")?;
            push_counted(out, item)
        }
    }
}

/// Appends the numbers of an item and of a part of it.
fn push_part(out: &mut Vec<u8>, block: Option<u32>, item: u32, part: u32) -> Result<(), AllocError>
    ensures { OnOk result (out.new.items ≡ out.old.items ++ parts_text block item part) }
{
    push_item(out, block, item)?;
    out.extend_from_slice(b" ")?;
    push_counted(out, part)
}

/// Appends the numbers of two items.
fn push_items(
    out: &mut Vec<u8>,
    block: Option<u32>,
    upper: u32,
    lower: u32,
) -> Result<(), AllocError>
    ensures { OnOk result (out.new.items ≡ out.old.items ++ items_text block upper lower) }
{
    push_item(out, block, upper)?;
    out.extend_from_slice(b" ")?;
    push_item(out, block, lower)
}

/// Appends what a step takes.
fn push_taken(out: &mut Vec<u8>, block: Option<u32>, step: &Step) -> Result<(), AllocError>
    ensures { OnOk result (out.new.items ≡ out.old.items ++ taken_text block step.now) }
{
    match *step {
        Step::CutDecl { item, decl } => push_part(out, block, item, decl),
        Step::CutSel { item, sel } => push_part(out, block, item, sel),
        Step::JoinSelUp { upper, lower }
        | Step::JoinSelDown { upper, lower }
        | Step::JoinDeclUp { upper, lower }
        | Step::JoinDeclDown { upper, lower }
        | Step::Share { upper, lower } => push_items(out, block, upper, lower),
    }
}

/// Appends the word of a cause with the number of its item.
fn push_named(
    out: &mut Vec<u8>,
    word: &[u8],
    block: Option<u32>,
    item: u32,
) -> Result<(), AllocError>
    ensures { OnOk result (out.new.items ≡ out.old.items ++ (word.now ++ codes " " ++ item_text block item)) }
{
    out.extend_from_slice(word)?;
    out.extend_from_slice(b" ")?;
    push_item(out, block, item)
}

/// Appends a cause with the number of its item.
fn push_cause(out: &mut Vec<u8>, block: Option<u32>, cause: &BlockCause) -> Result<(), AllocError>
    ensures { OnOk result (out.new.items ≡ out.old.items ++ cause_text block cause.now) }
{
    match *cause {
        BlockCause::Kept(item) => push_named(out, b"kept", block, item),
        BlockCause::Meet(item) => push_named(out, b"meet", block, item),
        BlockCause::Outside(item, reason) => {
            out.extend_from_slice(b"outside ")?;
            push_number(out, u64::from(reason))?;
            out.extend_from_slice(b" ")?;
            push_item(out, block, item)
        }
        BlockCause::Spent(item) => push_named(out, b"spent", block, item),
    }
}

/// Appends the line of a blocked step.
pub(crate) fn push_blocked(
    out: &mut Vec<u8>,
    block: Option<u32>,
    step: &Step,
    cause: &BlockCause,
) -> Result<(), AllocError>
    ensures { OnOk result (out.new.items ≡ out.old.items ++ blocked_line (block, step.now, cause.now)) }
{
    out.extend_from_slice(b"blocked ")?;
    out.extend_from_slice(kind_name(step))?;
    out.extend_from_slice(b" ")?;
    push_taken(out, block, step)?;
    out.extend_from_slice(b" ")?;
    push_cause(out, block, cause)?;
    out.extend_from_slice(b"\n")
}
