//! What printed sheets are read back as, as functions that do nothing.

ghost use Rattle.print_laws.specs.Printing.{PrintedIsNoLonger, PrintedReadsBack, PrintedReadsBackAsTwin};
ghost use Rattle.print_laws.specs.Replaced.{ReplacedReadsBack};
ghost use Rattle.print_laws.specs.Profile.{PrintedSelectorsAreRead, SelectorsAreInProfile};

/// The printed text of a sheet is read back as that sheet up to spelling, and printed again it is the same text. The
/// sheet was read, or is made of the parts of one that was, with its kept items in their places, no more items and
/// pairs than one may have, and a text that is no longer than a sheet may be.
pub fn printed_reads_back()
    ensures { PrintedReadsBack }
{}

/// The printed text of a sheet is read back as its twin. Item by item, and in rules selector by selector and
/// declaration by declaration, the twin says the same and is printed alike. The sheet is as in `printed_reads_back`.
pub fn printed_reads_back_as_twin()
    ensures { PrintedReadsBackAsTwin }
{}

/// Where whole blocks are in the places of kept blocks, the printed text is read back as these items too, one by one as
/// twins. Printed again it is the same text. The text is no longer than a sheet may be.
pub fn replaced_reads_back()
    ensures { ReplacedReadsBack }
{}

/// The printed text of a sheet as read is no longer than its source.
pub fn printed_is_no_longer()
    ensures { PrintedIsNoLonger }
{}

/// The printed text of a selector of a sheet that was read, by itself, is read as this selector, and is no longer than
/// a sheet may be. Each selector of a sheet that is made of its parts is then in the profile.
pub fn selectors_are_in_the_profile()
    ensures one { PrintedSelectorsAreRead }
    ensures all { SelectorsAreInProfile }
{}
