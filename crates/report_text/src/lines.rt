//! The report of a run.

ghost use Rattle.std.specs.Prelude.{◌≡◌, ◌++◌, decimal, IfOk, OnOk};
ghost use Rattle.report_text.specs.Report.{blocked_lines, report_of, two_numbers};

use crate::blocked::push_blocked;
use itoa::Buffer;
use std::alloc::{AllocError, Global};
use step_laws::{BlockCause, Step};

/// Appends a number in decimal.
pub(crate) fn push_number(out: &mut Vec<u8>, number: u64) -> Result<(), AllocError>
    ensures { OnOk result (out.new.items ≡ out.old.items ++ decimal number) }
{
    let mut buffer = Buffer::new();
    out.extend_from_slice(buffer.format(number).as_bytes())
}

/// Appends a line with a name and two numbers.
fn push_two(out: &mut Vec<u8>, name: &[u8], read: u64, written: u64) -> Result<(), AllocError>
    ensures { OnOk result (out.new.items ≡ out.old.items ++ two_numbers name.now read written) }
{
    out.extend_from_slice(name)?;
    out.extend_from_slice(b" ")?;
    push_number(out, read)?;
    out.extend_from_slice(b" ")?;
    push_number(out, written)?;
    out.extend_from_slice(b"\n")
}

/// Appends a line for each blocked step.
fn push_all_blocked(
    out: &mut Vec<u8>,
    blocked: &[(Option<u32>, Step, BlockCause)],
) -> Result<(), AllocError>
    ensures { OnOk result (out.new.items ≡ out.old.items ++ blocked_lines blocked.now) }
{
    let mut rest = blocked;
    'lines: while let [(block, step, cause), more @ ..] = rest {
        push_blocked(out, *block, step, cause)?;
        rest = more;
    }
    Ok(())
}

/// The report of a run, as bytes. `AllocError` where memory runs out.
///
/// - How many items and how many bytes were read and were written.
/// - How many steps were taken.
/// - A line for each step that is blocked in the sheet that was written, in the order given. With it comes the number
///   from 0 of the item whose body it is in, or none where it is a step of the sheet itself.
pub fn report(
    alloc: Global,
    items: (u32, u32),
    bytes: (u64, u64),
    taken: u32,
    blocked: &[(Option<u32>, Step, BlockCause)],
) -> Result<Vec<u8>, AllocError>
    ensures { IfOk result (λ text. text.items ≡ report_of items bytes taken blocked.now) }
{
    let mut out = Vec::new(alloc);
    push_two(&mut out, b"items", u64::from(items.0), u64::from(items.1))?;
    push_two(&mut out, b"bytes", bytes.0, bytes.1)?;
    out.extend_from_slice(b"steps ")?;
    push_number(&mut out, u64::from(taken))?;
    out.extend_from_slice(b"\n")?;
    push_all_blocked(&mut out, blocked)?;
    Ok(out)
}
