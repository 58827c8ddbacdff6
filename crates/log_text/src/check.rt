//! The check of a text.

ghost use Rattle.std.specs.Prelude.{IfErr, IfOk};
ghost use Rattle.log_text.specs.CheckedTexts.{IsCheckedText, Refuses};

use crate::answer::print_answer;
use crate::error::CheckError;
use rup_check::{check_log, read_log};
use std::alloc::Global;

/// The most bytes of a log that is checked.
pub const MAX_LOG_BYTES: u32 = 134_217_728;

/// The answer to a log, given as bytes, as one line that ends with a line feed. It follows the log by unit propagation
/// alone.
///
/// - `yes` where each step is forced by the formula and the steps before it, and the formula has an empty clause or the
///   last step is empty.
/// - `no N` otherwise. N is the number of the first step that is not forced, from 1; or one more than the number of the
///   steps.
///
/// | error | exactly when |
/// |---|---|
/// | `TooLong` | first: the text has more than [`MAX_LOG_BYTES`] bytes |
/// | `BadLine` | then: the text is not that of a log; with the number of the first line, from 1, that no log has |
///
/// `NoMemory` comes where memory runs out.
#[tactic(auto, using(crate::proofs::Refusals::refuses))]
pub fn check_text(alloc: Global, text: &[u8]) -> Result<Vec<u8>, CheckError>
    ensures ok { IfOk result (λ answer. IsCheckedText text.now answer.items) }
    ensures err { IfErr result (Refuses text.now) }
{
    if text.len() > MAX_LOG_BYTES as usize {
        return Err(CheckError::TooLong);
    }
    let log = read_log(alloc, text)?;
    let answer = check_log(alloc, &log)?;
    let line = print_answer(alloc, answer)?;
    Ok(line)
}
