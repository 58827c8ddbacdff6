//! What follows from the printed text, as functions that do nothing.

ghost use Rattle.compare_text.specs.Laws.{DisjointSelectorsDoNotMeet, LogsPass, OverlapShowsMeeting, PassedLogsShowApartness};

use log_text::{refuting_logs_pass, yes_refutes_the_formula};
use overlap::apart_selectors_do_not_meet;
use pair_laws::{meeting_satisfies_the_formula, profile_keeps_the_limits};
use rup_check::ledgers_are_logs;

/// Two selectors for which `disjoint` is printed do not meet: no legal document has a target that both match.
pub fn disjoint_selectors_do_not_meet()
    ensures { DisjointSelectorsDoNotMeet }
{
    apart_selectors_do_not_meet();
}

/// After `overlap` comes the text of an example, which shows that the two selectors meet: its document is legal, and
/// both match the marked element, or its pseudo-element.
pub fn overlap_shows_meeting()
    ensures { OverlapShowsMeeting }
{}

/// A log in the place of an answer, within the limit of bytes, passes: `check_text` of `log_text` gives `yes`, unless
/// memory runs out.
pub fn logs_pass()
    ensures { LogsPass }
{
    ledgers_are_logs();
    refuting_logs_pass();
}

/// Two selectors do not meet where `check_text` gives `yes` for a log of their formula, whoever wrote it.
pub fn passed_logs_show_apartness()
    ensures { PassedLogsShowApartness }
{
    profile_keeps_the_limits();
    meeting_satisfies_the_formula();
    yes_refutes_the_formula();
}
