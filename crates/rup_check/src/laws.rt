//! The laws of the definitions in `specs/`, as functions that do nothing.
ghost use Rattle.rup_check.specs.Checks.{RefutationsRefute};
ghost use Rattle.rup_check.specs.Laws.{LedgersAreLogs, LedgersRefute, LogsHaveNoFault, RefutationsPass, TextsAreOfOneLog};

/// No values satisfy a formula that a log refutes.
pub fn checked_log_refutes()
    ensures { RefutationsRefute }
{}

/// A log that refutes its formula is answered with yes, unless memory runs out.
pub fn refutations_pass()
    ensures { RefutationsPass }
{}

/// A printed log reads back: where `print_log` printed a log, `read_log` gives the same formula and the same steps,
/// unless memory runs out. A text is that of one log at most, and then none of its lines is bad.
pub fn printed_logs_read_back()
    ensures one { TextsAreOfOneLog }
    ensures sound { LogsHaveNoFault }
{}

/// A formula within the limits and a ledger of it are a log. They refute the formula where one of its clauses is empty,
/// or the last of the ledger is.
pub fn ledgers_are_logs()
    ensures logs { LedgersAreLogs }
    ensures refute { LedgersRefute }
{}
