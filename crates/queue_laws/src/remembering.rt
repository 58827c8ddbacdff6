//! How code remembers what is on the watch list.

ghost use Rattle.queue_laws.specs.Remembering.{EntriesAreFound, MoreAreRemembered, OneMoreIsRemembered, RememberedGoesOver, RememberedIsReactivated, UntouchedIsKept};

use pending_laws::{candidates_go_on, names_tell_steps, steps_have_been};

/// An entry under digests is found there.
pub fn entries_are_found()
    ensures { EntriesAreFound }
{}

/// All that is on the watch list stays remembered, if one more priority is on the watch list and its step is remembered.
pub fn one_more_is_remembered()
    ensures { OneMoreIsRemembered }
{
    names_tell_steps();
}

/// All that is on the watch list stays remembered, if more priorities are on the watch list and their steps are remembered.
pub fn more_are_remembered()
    ensures { MoreAreRemembered }
{}

/// The test finds exactly those of what is on the watch list that an edit does not touch.
pub fn untouched_is_kept()
    ensures { UntouchedIsKept }
{}

/// Each priority that was on the watch list is untouched, or its steps that go on are queued again.
/// The candidates of all entries under moved pairs must be queued again.
pub fn remembered_is_reactivated()
    ensures { RememberedIsReactivated }
{
    candidates_go_on();
}

/// What stays on the watch list after a step of a sound sheet with room is remembered, if no entry is taken out.
pub fn remembered_goes_over()
    ensures { RememberedGoesOver }
{
    steps_have_been();
    candidates_go_on();
}
