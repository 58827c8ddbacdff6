//! What holds of opened blocks, as functions that do nothing.

ghost use Rattle.media_groups.specs.Laws.{BlocksStay, MergedIsNoLonger, OpenedBlocksAreSheets, OpenedBodiesAreSound, PrintedByOldBlocks};

use css_tokens::tokens_restart;
use sheet_laws::read_is_sound;

/// The body of each opened block is in its source and is read as the block's sheet. That sheet is sound for it.
pub fn opened_blocks_are_sheets()
    ensures sheets { OpenedBlocksAreSheets }
    ensures sound { OpenedBodiesAreSound }
{
    tokens_restart();
    read_is_sound();
}

/// Where the kept items of a sheet stay, with rules only where a rule was, the same blocks are opened. The opened
/// blocks of the sheet that was read serve to print a sheet that is made of its parts.
pub fn blocks_stay()
    ensures blocks { BlocksStay }
    ensures printed { PrintedByOldBlocks }
{}

/// Where the items of a sheet become shorter by at least so many bytes, and no opened body becomes longer, their text
/// with these bodies becomes shorter by at least as many. A space before a byte order mark does not count.
pub fn merged_is_no_longer()
    ensures { MergedIsNoLonger }
{}
