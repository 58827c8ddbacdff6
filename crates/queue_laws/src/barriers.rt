//! Barriers of an indexed sheet.

ghost use Rattle.queue_laws.specs.IndexedBarriers.{BarredMayBeWatched, BarriersGoOver, BarriersStay};

use crate::mark_names::marks_are_names;
use pending_laws::{
    barred_items_go_on, barred_priorities_are_blocked, barred_priorities_are_moves,
    first_priority_is_first, moves_are_barred,
};
use plan_laws::items_stay;

/// Barriers that are at no item of a step are barriers after it, too, if the candidates under moved pairs are queued again.
/// After the step, the item of such a barrier has a barrier there, or all its steps in this way are queued, or the item is gone.
pub fn barriers_go_over()
    ensures { BarriersGoOver }
{
    barred_items_go_on();
    items_stay();
    marks_are_names();
}

/// Barriers stay while answers come in, more entries are put in, and the candidates of all steps of an item in a way stay.
pub fn barriers_stay()
    ensures { BarriersStay }
{}

/// The priorities of all steps past barriers may be on the watch list at once: they are hindered and remembered, or queued.
pub fn barred_may_be_watched()
    ensures { BarredMayBeWatched }
{
    marks_are_names();
    first_priority_is_first();
    barred_priorities_are_blocked();
    barred_priorities_are_moves();
    moves_are_barred();
}
