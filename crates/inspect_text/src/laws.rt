//! What follows from the lines, as functions that do nothing.

ghost use Rattle.inspect_text.specs.Laws.{EachEntryHasItsLine, EntriesAreTold, LostLinesLose, WhenLinesWin, WinsLinesWin};

use doc_text::texts_differ;
use inspect_laws::{first_wins, lost_never_wins, told_winners_win};

/// What is told of an input tells what the rules of its sheet, and of its opened bodies, apply to the marked element of
/// its document (CSS Cascading 3, section 5). Each entry has its line.
pub fn entries_are_told()
    ensures told { EntriesAreTold }
    ensures each { EachEntryHasItsLine }
{
    texts_differ();
}

/// An entry with the word `wins` is the winner of its property where no head of an opened block holds, and one with the
/// word `when` where its head alone does (CSS Cascading 3, section 6). Kept items that are not opened are taken to apply
/// nothing.
pub fn winners_are_told()
    ensures outside { WinsLinesWin }
    ensures inside { WhenLinesWin }
{
    told_winners_win();
}

/// An entry with the word `lost` is the winner in no scene in which blocks with one head hold together.
pub fn lost_lines_lose()
    ensures { LostLinesLose }
{
    first_wins();
    lost_never_wins();
}
