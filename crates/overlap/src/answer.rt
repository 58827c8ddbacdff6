//! What is answered for two selectors.

use cnf::{Formula, Ledger};
use css_model::Example;

/// The reason of `Answer::Outside` for two selectors that together have more than four positions whose step has a size
/// of 2 or more (Selectors 3, section 6.6.5.2). The number beside it says how many.
pub const TOO_MANY_STEPPED: u32 = 11;

/// The reason of `Answer::Outside` for an attribute that is asked for with a word, where each white space that could
/// separate it is refused (Selectors 3, sections 6.3.1 and 6.3.2).
pub const NO_SPACE_LEFT: u32 = 12;

/// Whether two selectors meet.
#[derive(Debug, PartialEq, Eq, Drop)]
pub enum Answer {
    /// They do not: no legal document has a target that both match.
    Apart,
    /// They do: both match the marked element of this example, which has a legal document.
    Meet(Example),
    /// They were not compared, for the reason of the first number: `TOO_MANY_STEPPED` or `NO_SPACE_LEFT`. The second
    /// one counts positions, and is 0 for the other reason.
    Outside(u32, u64),
    /// The budget of learned clauses was spent on this ledger of the formula of the pair. It comes only where a
    /// selector has a combinator.
    Spent(Ledger),
}

/// What is decided for two selectors.
#[derive(Drop)]
pub(crate) struct Decision {
    /// The answer.
    pub answer: Answer,
    /// The formula of the pair with the ledger that refutes it, where the answer comes from that.
    pub log: Option<(Formula, Ledger)>,
}
