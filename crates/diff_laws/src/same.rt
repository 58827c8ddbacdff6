//! What it means that nothing is found between two sheets laid flat, as functions that do nothing.

ghost use Rattle.diff_laws.specs.Same.{SameMembersWinAlike};

use cascade_laws::matching_is_decided;
use order_laws::weighing_is_decided;
use overlap::apart_selectors_do_not_meet;

/// Two sheets between which nothing is found have the same winners over normal values, in every legal document, for every target
/// and of all understood declarations that compete (CSS Cascading 3, section 6). It holds in every two scenes in which blocks with
/// one normal head hold together and alike kept items apply the same (CSS Conditional Rules 3, section 2).
pub fn same_members_win_alike()
    ensures { SameMembersWinAlike }
{
    apart_selectors_do_not_meet();
    matching_is_decided();
    weighing_is_decided();
}
