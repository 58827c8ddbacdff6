//! What is written of a merged sheet.

ghost use Rattle.merge_laws.specs.Merged.{LeadingMakesOf, PlannedIsMerged};

use order_laws::keeping_keeps_winners;
use plan_laws::{leading_keeps, planned_comes_from, twins_are_done, twins_keep};
use print_laws::{printed_is_no_longer, printed_reads_back, printed_reads_back_as_twin};
use sheet_laws::read_is_sound;
use step_laws::{each_is_made_of_itself, steps_make_of};

/// The sheet to which steps lead from a sound one is made of its parts, with its kept items in their places, where that
/// one has no more items than a sheet may have.
pub fn leading_makes_of()
    ensures { LeadingMakesOf }
{
    each_is_made_of_itself();
    steps_make_of();
}

/// What is written of a planned sheet is no longer than what was read, has the same winners in every legal document,
/// and nothing is left to do in it. The sheet was read, planned by true answers until nothing was left to do, and
/// printed.
pub fn planned_is_merged()
    ensures { PlannedIsMerged }
{
    planned_comes_from();
    read_is_sound();
    printed_is_no_longer();
    printed_reads_back();
    printed_reads_back_as_twin();
    leading_keeps();
    twins_keep();
    twins_are_done();
    keeping_keeps_winners();
}
