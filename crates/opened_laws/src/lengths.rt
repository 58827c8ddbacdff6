//! How long sheets with opened blocks are, as functions that do nothing.

ghost use Rattle.opened_laws.specs.Media.Lengths.{OpenedIsNoLonger};

use crate::bodies::bodies_read_back;

/// The printed text of a sheet as read, with its blocks opened, is no longer than its source.
pub fn opened_is_no_longer()
    ensures { OpenedIsNoLonger }
{
    bodies_read_back();
}
