//! What is written of a sheet that was merged with its opened blocks, as functions that do nothing.

ghost use Rattle.opened_merge_laws.specs.Merged.{PlannedIsMergedOpened};
ghost use Rattle.opened_merge_laws.specs.Told.{PlannedIsToldOpened};

use media_groups::{blocks_stay, merged_is_no_longer, opened_blocks_are_sheets};
use merge_laws::{leading_makes_of, read_keeps_the_limits};
use opened_laws::{
    bodies_count_by_winners, opened_is_no_longer, opened_reads_back, scenes_give_meanings,
};
use order_laws::keeping_keeps_winners;
use plan_laws::{
    leading_keeps, planned_comes_from, twins_are_done, twins_but_blocks_are_done, twins_keep,
};
use sheet_laws::read_is_sound;

/// The two laws on what is written, which have the same lemmas.
fn planned_is_written()
    ensures merged { PlannedIsMergedOpened }
    ensures told { PlannedIsToldOpened }
{
    read_is_sound();
    read_keeps_the_limits();
    leading_makes_of();
    planned_comes_from();
    opened_blocks_are_sheets();
    blocks_stay();
    merged_is_no_longer();
    opened_is_no_longer();
    opened_reads_back();
    leading_keeps();
    twins_keep();
    twins_are_done();
    twins_but_blocks_are_done();
    keeping_keeps_winners();
    scenes_give_meanings();
    bodies_count_by_winners();
}

/// What is written of a sheet with opened blocks is no longer than what was read, has the same winners in every legal
/// document and scene, and nothing is left to do in it, nor in any body of its opened blocks. The sheet was read and
/// planned by true answers until nothing was left to do, each body of its opened blocks too, and it was printed with
/// these bodies.
pub fn planned_is_merged_opened()
    ensures { PlannedIsMergedOpened }
{
    planned_is_written();
}

/// What is written of a sheet with opened blocks has as many items as the planned sheets together.
pub fn planned_is_told_opened()
    ensures { PlannedIsToldOpened }
{
    planned_is_written();
}
