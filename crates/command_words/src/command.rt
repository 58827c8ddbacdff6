//! What a command line asks for.

ghost use Rattle.std.specs.Prelude.{◌≡◌, ◌≤◌};
ghost use Rattle.command_words.specs.Forms.{most_rules};

/// The greatest budget of learned clauses that words may name.
pub const MOST_BUDGET: u32 = 20_000;

/// The most rules of a made sheet that words may ask for.
pub const MOST_RULES: u32 = 2_000;

/// The most couples that words may let `diff` tell.
pub const MOST_LIMIT: u32 = 10_000;

/// How many couples `diff` tells if words name no number.
pub const USUAL_LIMIT: u32 = 20;

/// How many rules a made sheet is to have: at most `MOST_RULES`.
#[derive(Clone, Copy, Debug)]
pub struct RuleCount {
    pub(crate) number: u32,
    ghost few: { number ≤ most_rules },
}

impl RuleCount {
    /// The number of rules, at most `MOST_RULES`.
    pub fn number(&self) -> u32
        ensures is { result ≡ self.now.number }
        ensures few { result ≤ most_rules }
    {
        self.number
    }
}

/// What help is asked about.
#[derive(Clone, Copy, Debug, PartialEq, Eq)]
pub enum Topic {
    /// The program.
    Program,
    /// The command `min`.
    Min,
    /// The command `dead`.
    Dead,
    /// The command `style`.
    Style,
    /// The command `cmp`.
    Cmp,
    /// The command `why`.
    Why,
    /// The command `same`.
    Same,
    /// The command `diff`.
    Diff,
    /// The command `blockers`.
    Blockers,
    /// The command `list`.
    Listing,
    /// The command `lint`.
    Lint,
    /// The command `inspect`.
    Inspect,
    /// The command `check`.
    Check,
    /// The command `trial`.
    Trial,
}

/// What the program is to do.
#[derive(Clone, Copy, Debug)]
pub enum Command<'a> {
    /// Minify a style sheet.
    Min {
        /// How many clauses may be learned for a pair, where the words say it: at most `MOST_BUDGET`.
        budget: Option<u32>,
        /// How many steps and answers may be made before the plan ends, where the words say it.
        work: Option<u32>,
        /// Whether a report is to be written.
        report: bool,
    },
    /// List which selectors of a style sheet match nothing in any legal document.
    Dead {
        /// How many clauses may be learned for a pair, where the words say it: at most `MOST_BUDGET`.
        budget: Option<u32>,
    },
    /// List which declarations win in a document.
    Style,
    /// Compare two selectors.
    Cmp {
        /// The text of the first one.
        left: &'a str,
        /// The text of the second one.
        right: &'a str,
        /// How many clauses may be learned for a pair, where the words say it: at most `MOST_BUDGET`.
        budget: Option<u32>,
        /// Whether a log is to take the place of `disjoint`.
        log: bool,
    },
    /// Check a log that refutes a formula.
    Check,
    /// Explain why a rule of a style sheet may not be moved to another one. Both count from 1 among the items.
    Why {
        /// The number of the one that is moved.
        from: u32,
        /// The number of the one that it is moved to.
        to: u32,
        /// How many clauses may be learned for a pair, where the words say it: at most `MOST_BUDGET`.
        budget: Option<u32>,
    },
    /// Compare two style sheets. The first has the first bytes of the input.
    Same {
        /// How many bytes the first sheet has.
        split: u32,
        /// How many clauses may be learned for a pair, where the words say it: at most `MOST_BUDGET`.
        budget: Option<u32>,
    },
    /// Tell all differences of two style sheets. The first has the first bytes of the input.
    Diff {
        /// How many bytes the first sheet has.
        split: u32,
        /// How many clauses may be learned for a pair, where the words say it: at most `MOST_BUDGET`.
        budget: Option<u32>,
        /// How many couples in another order may be told: from 1 to `MOST_LIMIT`, and `USUAL_LIMIT` where the words do not say
        /// it.
        limit: u32,
    },
    /// Tell which items of a style sheet stop the merges that are left.
    Blockers {
        /// How many clauses may be learned for a pair, where the words say it: at most `MOST_BUDGET`.
        budget: Option<u32>,
    },
    /// List the items of a style sheet with their places.
    Listing,
    /// Tell what can go from a style sheet without a change.
    Lint {
        /// How many clauses may be learned for a pair, where the words say it: at most `MOST_BUDGET`.
        budget: Option<u32>,
    },
    /// List what the rules of a style sheet apply to an element of a document.
    Inspect,
    /// Make a sheet and merge it, and report the outcome.
    Trial {
        /// How many rules the sheet is to have.
        rules: RuleCount,
    },
    /// Explain how the program, or a command of it, is used.
    Help(Topic),
    /// Print the version.
    Version,
}
