//! What the text of one opened block is read back as, as functions that do nothing.

ghost use Rattle.opened_laws.specs.Block.Blocks.{BlocksReadBack};

use media_groups::opened_blocks_are_sheets;

/// The printed text of an opened block is one whole block `@media` by itself, where it is not too long. Its body is
/// printed from a sheet that is made of parts of the opened body. It has the head of the opened block, and as its body
/// the printed text of that sheet.
pub fn blocks_read_back()
    ensures { BlocksReadBack }
{
    opened_blocks_are_sheets();
}
