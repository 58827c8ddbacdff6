//! How each attribute passes its tests.

ghost use Rattle.std.specs.Prelude.{◌≡◌, ◌++◌, [], ◌∷◌, false, true, ℕ, List, IfOk, IfErr, OnOk, MatchOption, codes};
ghost use Rattle.std.specs.List.{list_all};
ghost use Rattle.css_model.specs.Documents.Document.{IsText};
ghost use Rattle.css_model.specs.Lists.{same_text};
ghost use Rattle.attr_values.specs.Separators.{HasUnused};
ghost use Rattle.compound_fit.specs.Attributes.{given, given_one, has_nothing, is_nothing, tests_of};
ghost use Rattle.compound_fit.specs.Answers.{AreAnswers, AreTexts, IsSolvedName, IsRefused};
ghost use Rattle.compound_fit.specs.Ids.{ArePlain};

use crate::attributes::{common_name, names, tests_of};
use crate::compound::FitError;
use crate::conditions::is_id;
use crate::id::solve_id;
use attr_values::{Fits, ValueError, solve_value};
use css_model::{AttrTest, Text};
use std::alloc::{AllocError, Global};

/// How each attribute passes its tests, by ascending names.
pub(crate) fn answers(
    alloc: Global,
    tests: &[(AttrTest, bool)],
) -> Result<Vec<(Text, Fits)>, FitError>
    requires ids { ArePlain (tests_of (codes "id") tests.now) }
    requires unused { (name : List ℕ) → HasUnused (tests_of name tests.now) }
    ensures ok { IfOk result (λ answers. AreAnswers answers.items tests.now) }
    ensures err { IfErr result (λ e. IsRefused e tests.now) }
{
    match common_name(tests) {
        Some(name) => one_answer(alloc, tests, name),
        None => all_answers(alloc, tests),
    }
}

/// How an attribute passes its tests, where all are its own.
fn one_answer(
    alloc: Global,
    tests: &[(AttrTest, bool)],
    name: &Text,
) -> Result<Vec<(Text, Fits)>, FitError>
    requires named { list_all (λ t. same_text t.0.name name.now) tests.now ≡ true }
    requires ids { ArePlain (tests_of (codes "id") tests.now) }
    requires unused { (name : List ℕ) → HasUnused (tests_of name tests.now) }
    ensures ok { IfOk result (λ answers. AreAnswers answers.items tests.now) }
    ensures err { IfErr result (λ e. IsRefused e tests.now) }
{
    let fits = match answer(alloc, is_id(name), tests) {
        Ok(fits) => fits,
        Err(e) => return Err(e),
    };
    let mut answers = Vec::with_capacity(alloc, 1)?;
    push_answer(&mut answers, name, fits)?;
    Ok(answers)
}

/// How each attribute passes its tests, by ascending names, from copies of the tests of each.
fn all_answers(alloc: Global, tests: &[(AttrTest, bool)]) -> Result<Vec<(Text, Fits)>, FitError>
    requires ids { ArePlain (tests_of (codes "id") tests.now) }
    requires unused { (name : List ℕ) → HasUnused (tests_of name tests.now) }
    ensures ok { IfOk result (λ answers. AreAnswers answers.items tests.now) }
    ensures err { IfErr result (λ e. IsRefused e tests.now) }
{
    let names = names(alloc, tests)?;
    let mut answers = Vec::new(alloc);
    for name in names.as_slice() {
        let group = tests_of(alloc, tests, name)?;
        let fits = match answer(alloc, is_id(name), group.as_slice()) {
            Ok(fits) => fits,
            Err(e) => return Err(e),
        };
        push_answer(&mut answers, name, fits)?;
    }
    Ok(answers)
}

/// How one attribute passes its tests.
fn answer(alloc: Global, is_id: bool, tests: &[(AttrTest, bool)]) -> Result<Fits, FitError>
    requires ids { is_id ≡ true → ArePlain tests.now }
    requires unused { HasUnused tests.now }
    ensures { IsSolvedName is_id result tests.now }
{
    if is_id {
        let fits = solve_id(alloc, tests)?;
        return Ok(fits);
    }
    match solve_value(alloc, tests) {
        Ok(fits) => Ok(fits),
        Err(ValueError::SpacesTaken) => Err(FitError::SpacesTaken),
        Err(ValueError::NoMemory) => Err(FitError::NoMemory),
    }
}

/// Appends the answer for a name.
fn push_answer(answers: &mut Vec<(Text, Fits)>, name: &Text, fits: Fits) -> Result<(), AllocError>
    ensures { OnOk result (answers.new.items ≡ answers.old.items ++ (name.now, fits) ∷ []) }
{
    let copy = name.copy()?;
    answers.push((copy, fits))?;
    Ok(())
}

/// The attributes that have a value, with it; nothing where some attribute can pass in no way.
pub(crate) fn attributes(
    alloc: Global,
    answers: Vec<(Text, Fits)>,
) -> Result<Option<Vec<(Text, Text)>>, AllocError>
    ensures { IfOk result (λ found. MatchOption found
        (has_nothing answers.items ≡ true)
        (λ pairs. (has_nothing answers.items ≡ false) × (pairs.items ≡ given answers.items) × AreTexts pairs.items)) }
{
    if has_nothing(answers.as_slice()) {
        return Ok(None);
    }
    let pairs = all_given(alloc, answers)?;
    Ok(Some(pairs))
}

/// Whether some answer is `Nothing`: no value passes.
fn has_nothing(answers: &[(Text, Fits)]) -> bool
    ensures { result ≡ has_nothing answers.now }
{
    answers.iter().any(|(_, fits)| is_nothing(fits))
}

/// Whether an answer is `Nothing`.
fn is_nothing(fits: &Fits) -> bool
    ensures { result ≡ is_nothing fits.now }
{
    matches!(fits, Fits::Nothing)
}

/// The attributes that have a value, with it.
fn all_given(alloc: Global, answers: Vec<(Text, Fits)>) -> Result<Vec<(Text, Text)>, AllocError>
    ensures { IfOk result (λ pairs. (pairs.items ≡ given answers.items) × AreTexts pairs.items) }
{
    let mut pairs = Vec::with_capacity(alloc, answers.len())?;
    for (name, fits) in answers {
        push_given(&mut pairs, name, fits)?;
    }
    Ok(pairs)
}

/// Appends a name with its value, if it has one.
fn push_given(pairs: &mut Vec<(Text, Text)>, name: Text, fits: Fits) -> Result<(), AllocError>
    ensures pair { OnOk result (pairs.new.items ≡ pairs.old.items ++ given_one name fits []) }
    ensures texts { OnOk result (AreTexts (given_one name fits [])) }
{
    match fits {
        Fits::Value(value) => push_pair(pairs, name, value),
        _ => Ok(()),
    }
}

/// Appends a name and a value.
fn push_pair(pairs: &mut Vec<(Text, Text)>, name: Text, value: Text) -> Result<(), AllocError>
    ensures pair { OnOk result (pairs.new.items ≡ pairs.old.items ++ (name, value) ∷ []) }
    ensures texts { AreTexts ((name, value) ∷ []) }
{
    see(&name);
    see(&value);
    pairs.push((name, value))?;
    Ok(())
}

/// Shows that a text is one, by reading it.
fn see(text: &Text)
    ensures { IsText text.now }
{
    let _codes = text.codes();
}
