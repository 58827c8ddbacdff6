//! The bodies of opened blocks, and what plans of them lead to.

ghost use Rattle.opened_merge_laws.specs.Bodies.{OpenedBodiesStandApart};
ghost use Rattle.opened_merge_laws.specs.Merged.{PlannedBodiesAreSound};

use media_groups::opened_blocks_are_sheets;
use merge_laws::{leading_makes_of, read_keeps_the_limits};
use sheet_laws::read_is_sound;

/// Sheets to which plans of the bodies of opened blocks lead may be printed inside these blocks.
pub fn planned_bodies_are_sound()
    ensures { PlannedBodiesAreSound }
{
    opened_blocks_are_sheets();
    read_is_sound();
    read_keeps_the_limits();
    leading_makes_of();
}

/// The bodies of the opened blocks of a sheet have together no more bytes than its source.
pub fn opened_bodies_stand_apart()
    ensures { OpenedBodiesStandApart }
{}
