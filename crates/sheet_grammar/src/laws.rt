//! The laws. They do nothing when they run.

ghost use Rattle.sheet_grammar.specs.Laws.{BracketsMatch, FaultsAreThoseOfTheGrammar, ItemsAreThoseOfTheGrammar, SheetsAreThoseOfTheGrammar};

use selector_laws::selectors_are_read_exactly;

/// The depths of tokens are those of the grammar, and the bracket that is left open, if any, is the one that is found.
pub fn brackets_match()
    ensures { BracketsMatch }
{}

/// The items of tokens whose brackets match are those of the grammar of CSS Syntax 3, and there are no others.
pub fn items_are_those_of_the_grammar()
    ensures { ItemsAreThoseOfTheGrammar }
{}

/// A source is read as a sheet exactly if it is that by the grammar of CSS Syntax 3 and within the limits of this tool.
pub fn sheets_are_those_of_the_grammar()
    ensures { SheetsAreThoseOfTheGrammar }
{
    selectors_are_read_exactly();
}

/// A source has a fault exactly if it has that by the grammar.
pub fn faults_are_those_of_the_grammar()
    ensures { FaultsAreThoseOfTheGrammar }
{
    selectors_are_read_exactly();
}
