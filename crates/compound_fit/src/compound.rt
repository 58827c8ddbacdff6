//! Features of an element that passes compounds.

ghost use Rattle.std.specs.Prelude.{◌≡◌, ◌<◌, ◌^◌, ◌++◌, ℕ, List, false, IfOk, OnOk, option_copied};
ghost use Rattle.css_model.specs.declared.selector.Flag.{Flag};
ghost use Rattle.css_model.specs.Documents.Document.{IsText};
ghost use Rattle.css_model.specs.Documents.Features.{flags_of};
ghost use Rattle.attr_values.specs.Separators.{HasUnused};
ghost use Rattle.compound_fit.specs.Attributes.{attribute_tests, tests_of};
ghost use Rattle.compound_fit.specs.Fitting.{IsFit, simples_of};
ghost use Rattle.compound_fit.specs.Flags.{is_flag_asked};
ghost use Rattle.compound_fit.specs.Ids.{HasPlainIds};

use crate::answers::{answers, attributes};
use crate::attributes::attribute_tests;
use crate::flags::{flags, flags_clash};
use crate::kind::kind;
use css_model::{Compound, Features, Simple, Text};
use std::alloc::{AllocError, Global};
use std::fmt;
use thiserror::Error;

/// Why there are no features to answer.
#[derive(Clone, Copy, Debug, PartialEq, Eq, Error)]
pub enum FitError {
    /// A word of an attribute is asked for, and each white space that could separate it is refused.
    SpacesTaken,
    /// There is not enough memory.
    NoMemory,
}

impl fmt::Display for FitError {
    ghost use Rattle.std.specs.Prelude.{Some};
    ghost use Rattle.compound_fit.specs.Messages.{fit_error};

    ghost output = { λ error. Some (fit_error error) };

    fn fmt<W: fmt::Write>(&self, f: &mut fmt::Formatter<W>) -> fmt::Result {
        f.write_str(match self {
            FitError::SpacesTaken =>
                "no white space is left to stand beside a word of an attribute",
            FitError::NoMemory => "out of memory",
        })
    }
}

impl From<AllocError> for FitError {
    ghost use Rattle.compound_fit.specs.declared.compound.FitError.TheVariants.{NoMemory};

    ghost from_gives = { λ _ e. e ≡ NoMemory };

    fn from(_: AllocError) -> FitError {
        FitError::NoMemory
    }
}

/// The features of an element that passes a compound, and a second one where there is one (Selectors 3, sections 6.1 to
/// 6.6.4). Tests of its place among its siblings, of being the root and of what is in it do not count.
///
/// The attribute `id` may be tested for presence and for equality alone. For each attribute some code point from `a` on
/// has to be in the value of none of its tests.
///
/// | answer | exactly when |
/// |---|---|
/// | `SpacesTaken` | before all others: `solve_value` gives it for an attribute other than `id` |
/// | `None` | no legal element passes |
/// | features | otherwise |
///
/// `NoMemory` comes where memory is short.
///
/// The features are:
///
/// - The type is the one that is asked for, or the first of `x`, `x1`, `x2` .. that is not refused.
/// - The flags are those that are asked for.
/// - Each attribute has the value that `solve_value` gives for its tests, and is absent where it gives none.
/// - The attribute `id` has the value that is asked for. Where any will do it is empty; where the empty one is refused,
///   it is the first of those names that is not.
/// - There is no text.
pub fn fit(alloc: Global, x: &Compound, y: Option<&Compound>) -> Result<Option<Features>, FitError>
    requires ids { HasPlainIds (x.now ++ simples_of (option_copied y)) }
    requires unused { (name : List ℕ)
        → HasUnused (tests_of name (attribute_tests (x.now ++ simples_of (option_copied y)))) }
    ensures { IsFit result (x.now ++ simples_of (option_copied y.entry)) }
{
    match y {
        Some(y) => fit_both(alloc, x.simples.as_slice(), y.simples.as_slice()),
        None => fit_both(alloc, x.simples.as_slice(), &[]),
    }
}

/// Features of an element that passes the simple selectors of two lists.
pub(crate) fn fit_both(
    alloc: Global,
    x: &[Simple],
    y: &[Simple],
) -> Result<Option<Features>, FitError>
    requires ids { HasPlainIds (x.now ++ y.now) }
    requires unused { (name : List ℕ) → HasUnused (tests_of name (attribute_tests (x.now ++ y.now))) }
    ensures { IsFit result (x.now ++ y.now) }
{
    let tests = attribute_tests(alloc, x, y)?;
    let answers = match answers(alloc, tests.as_slice()) {
        Ok(answers) => answers,
        Err(e) => return Err(e),
    };
    let attrs = match attributes(alloc, answers)? {
        Some(attrs) => attrs,
        None => return Ok(None),
    };
    let kind = match kind(alloc, x, y)? {
        Some(kind) => kind,
        None => return Ok(None),
    };
    if flags_clash(x, y) {
        return Ok(None);
    }
    Ok(Some(features(kind, attrs, flags(x, y))))
}

/// The features of this type, these attributes and these flags.
fn features(kind: Text, attrs: Vec<(Text, Text)>, flags: u16) -> Features
    ensures parts { (result.kind ≡ kind) × (result.attrs ≡ attrs.items) × (result.text ≡ false) }
    ensures flags { result.flags ≡ flags }
    ensures text { IsText kind }
{
    let _kind = kind.codes();
    Features {
        kind,
        attrs,
        flags,
        text: false,
    }
}
