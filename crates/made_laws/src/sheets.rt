//! What made sheets are read as.

ghost use Rattle.made_laws.specs.Faultless.{MadeSheetsHaveNoFault};

use print_laws::printed_reads_back;
use sheet_laws::read_is_sound;

/// A made sheet of at most 2,000 rules has no fault: it is read as items.
pub fn made_sheets_have_no_fault()
    ensures { MadeSheetsHaveNoFault }
{
    read_is_sound();
    printed_reads_back();
}
