//! Which value of an attribute passes tests.

ghost use Rattle.std.specs.Prelude.{◌≡◌};
ghost use Rattle.attr_values.specs.Separators.{HasUnused};
ghost use Rattle.attr_values.specs.Solved.{CandidatePasses, IsSolved};

use crate::asked::is_asked;
use crate::passing::passes_as_asked;
use crate::separators::spaces_taken;
use crate::value::candidate;
use css_model::{AttrTest, Text};
use std::alloc::{AllocError, Global};
use std::fmt;
use thiserror::Error;

/// How an attribute passes tests as they are asked.
#[derive(Debug, PartialEq, Eq, Drop)]
pub enum Fits {
    /// By its absence: no test is asked to hold.
    Absent,
    /// By this value.
    Value(Text),
    /// Not at all: some test is asked to hold, and no text passes as asked.
    Nothing,
}

/// Why there is no answer.
#[derive(Clone, Copy, Debug, PartialEq, Eq, Error)]
pub enum ValueError {
    /// A word is asked for, and each white space that could separate it is refused.
    SpacesTaken,
    /// There is not enough memory.
    NoMemory,
}

impl fmt::Display for ValueError {
    ghost use Rattle.std.specs.Prelude.{Some};
    ghost use Rattle.attr_values.specs.Messages.{value_error};

    ghost output = { λ error. Some (value_error error) };

    fn fmt<W: fmt::Write>(&self, f: &mut fmt::Formatter<W>) -> fmt::Result {
        f.write_str(match self {
            ValueError::SpacesTaken => "no white space is left to stand beside a word",
            ValueError::NoMemory => "out of memory",
        })
    }
}

impl From<AllocError> for ValueError {
    ghost use Rattle.attr_values.specs.declared.solve.ValueError.TheVariants.{NoMemory};

    ghost from_gives = { λ _ e. e ≡ NoMemory };

    fn from(_: AllocError) -> ValueError {
        ValueError::NoMemory
    }
}

/// The value that is tried passes the tests as they are asked, where a white space is left and some text passes them.
pub fn candidate_passes()
    ensures { CandidatePasses }
{}

/// How one attribute passes its tests as they are asked (Selectors 3, sections 6.3.1, 6.3.2 and 6.6.7). A test with the
/// flag true is asked to hold, one with the flag false not to hold. The names in the tests do not count. Some code
/// point from `a` on has to be in the value of no test.
///
/// - `SpacesTaken`, before all others, exactly where a Word is asked to hold, no Equal is, and each white space is in
///   the value of a Part that is asked not to hold.
/// - `Absent` exactly where no test is asked to hold.
/// - `Nothing` exactly where some test is asked to hold, and no text passes as asked.
/// - `Value` otherwise, with a value of code points that passes.
/// - `NoMemory` where memory is short.
///
/// The value is the first of these that applies:
///
/// - the value of the first Equal that is asked for;
/// - where each test is one of a word or of presence: the words that are asked for, each once, with a space between
///   each two;
/// - the value of the first Dash that is asked for and passes;
/// - one after the other, with the least unused code point between them: the longest text that a value has to begin
///   with, each Part, the words between white spaces, and the longest Suffix.
pub fn solve_value(alloc: Global, tests: &[(AttrTest, bool)]) -> Result<Fits, ValueError>
    requires { HasUnused tests.now }
    ensures { IsSolved result tests.now }
{
    if spaces_taken(tests) {
        return Err(ValueError::SpacesTaken);
    }
    if !is_asked(tests) {
        return Ok(Fits::Absent);
    }
    let value = candidate(alloc, tests)?;
    if passes_as_asked(alloc, tests, value.codes())? {
        Ok(Fits::Value(value))
    } else {
        Ok(Fits::Nothing)
    }
}
