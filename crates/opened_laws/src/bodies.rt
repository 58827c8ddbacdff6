//! What is printed inside opened blocks, as functions that do nothing.

ghost use Rattle.opened_laws.specs.Media.Bodies.{BodiesAreNoLonger, BodiesReadBack};

use media_groups::opened_blocks_are_sheets;
use print_laws::{printed_is_no_longer, printed_reads_back, printed_reads_back_as_twin};

/// The printed text of a sheet that is made of the parts of an opened body is read back as that sheet, and does not
/// begin with a byte order mark. That of the body as it was read is no longer than the body.
pub fn bodies_read_back()
    ensures back { BodiesReadBack }
    ensures short { BodiesAreNoLonger }
{
    opened_blocks_are_sheets();
    printed_reads_back();
    printed_reads_back_as_twin();
    printed_is_no_longer();
}
