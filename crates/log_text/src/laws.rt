//! What follows from the printed answer, as functions that do nothing.

ghost use Rattle.log_text.specs.Laws.{LimitIsDefined, RefutingLogsPass, YesRefutes};

use crate::check::MAX_LOG_BYTES;
use rup_check::{checked_log_refutes, printed_logs_read_back, refutations_pass};

/// Where `yes` is printed for a log, no values satisfy its formula.
pub fn yes_refutes_the_formula()
    ensures { YesRefutes }
{
    checked_log_refutes();
    printed_logs_read_back();
}

/// For the text of a log that refutes its formula, within the limit of bytes, `yes` is printed, unless memory runs out.
pub fn refuting_logs_pass()
    ensures { RefutingLogsPass }
{
    printed_logs_read_back();
    refutations_pass();
}

/// [`MAX_LOG_BYTES`] is the limit that the definitions call `max_log_bytes`.
pub fn limit_is_defined()
    ensures { LimitIsDefined }
{
    let _limit = MAX_LOG_BYTES;
}
