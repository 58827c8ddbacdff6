//! What the text of opened blocks is read back as, as functions that do nothing.

ghost use Rattle.opened_laws.specs.Again.{OpenedReadsBack};

use crate::blocks_read_back;
use media_groups::blocks_stay;

/// The printed text of a sheet whose blocks of media are opened is read back as that sheet, with the same blocks
/// opened. Each body is read back as the twin of the body that was printed, and any other item as its twin. Printed
/// again it is the same text. The sheet and the bodies are made of what was read, and the text is no longer than a
/// sheet may be.
pub fn opened_reads_back()
    ensures { OpenedReadsBack }
{
    blocks_read_back();
    blocks_stay();
}
