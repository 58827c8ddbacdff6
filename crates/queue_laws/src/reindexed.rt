//! What a plan holds, reindexed after a step.

ghost use Rattle.queue_laws.specs.Reindexed.{TakenGoesOver};

use pending_laws::first_priority_is_first;

/// If what is pending is reindexed after an edit, it goes over to the sheet after the edit.
/// The edit must not make the sheet longer.
pub fn taken_goes_over()
    ensures { TakenGoesOver }
{
    first_priority_is_first();
}
