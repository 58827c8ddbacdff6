//! Which blocks are opened in two sheets that say the same, the law as the contract of a function that does nothing.

ghost use Rattle.same_laws.specs.Opened.{NoneIsOpenedAlone};

use opened_laws::same_texts_are_opened_alike;

/// In two sheets that are read, of which no place differs, no block is opened in one of them alone.
///
/// At each place both kept items are opened blocks, or neither is. So the comparison need not look at which are.
pub fn none_is_opened_alone()
    ensures { NoneIsOpenedAlone }
{
    same_texts_are_opened_alike();
}
