//! What a source that is read gives to a plan.

ghost use Rattle.merge_laws.specs.Reading.{ReadIsPlannable, ReadKeepsTheLimits};

use print_laws::printed_is_no_longer;
use sheet_laws::read_is_sound;

/// What a source is read as keeps the limits: the source is no longer than a sheet may be, and the sheet has no more
/// items and pairs than one may have.
pub fn read_keeps_the_limits()
    ensures { ReadKeepsTheLimits }
{}

/// What a source is read as can be planned.
pub fn read_is_plannable()
    ensures { ReadIsPlannable }
{
    read_is_sound();
    printed_is_no_longer();
}
