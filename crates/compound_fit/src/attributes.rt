//! The tests of attributes in compounds, name by name (Selectors 3, sections 6.3, 6.4 and 6.5).

ghost use Rattle.std.specs.Prelude.{◌≡◌, ◌++◌, not, true, [], IfOk, IfSome, OnOk, codes};
ghost use Rattle.std.specs.List.{list_all};
ghost use Rattle.css_model.specs.Lists.{same_text};
ghost use Rattle.compound_fit.specs.Attributes.{
  AreNames,
  attribute_test,
  attribute_tests,
  id_test,
  names_of,
  tests_of,
};

use css_model::{AttrTest, Op, Simple, Test, Text};
use std::alloc::{AllocError, Global};

/// The tests of attributes in two lists, each with whether it is asked to hold.
pub(crate) fn attribute_tests(
    alloc: Global,
    x: &[Simple],
    y: &[Simple],
) -> Result<Vec<(AttrTest, bool)>, AllocError>
    ensures { IfOk result (λ tests. tests.items ≡ attribute_tests (x.now ++ y.now)) }
{
    let mut tests = Vec::new(alloc);
    push_tests(&mut tests, alloc, x)?;
    push_tests(&mut tests, alloc, y)?;
    Ok(tests)
}

/// Appends the tests of attributes that simple selectors make.
fn push_tests(
    tests: &mut Vec<(AttrTest, bool)>,
    alloc: Global,
    simples: &[Simple],
) -> Result<(), AllocError>
    ensures { OnOk result (tests.new.items ≡ tests.old.items ++ attribute_tests simples.now) }
{
    for simple in simples {
        push_test(tests, alloc, simple)?;
    }
    Ok(())
}

/// Appends the test of an attribute that a simple selector makes, if it makes one.
fn push_test(
    tests: &mut Vec<(AttrTest, bool)>,
    alloc: Global,
    simple: &Simple,
) -> Result<(), AllocError>
    ensures { OnOk result (tests.new.items
        ≡ tests.old.items ++ attribute_test simple.now.test (not simple.now.negated) []) }
{
    match &simple.test {
        Test::Attr(test) => {
            let copy = test.copy()?;
            tests.push((copy, !simple.negated))?;
            Ok(())
        }
        Test::Id(id) => {
            let test = id_test(alloc, id)?;
            tests.push((test, !simple.negated))?;
            Ok(())
        }
        _ => Ok(()),
    }
}

/// The test that the attribute `id` is this.
fn id_test(alloc: Global, id: &Text) -> Result<AttrTest, AllocError>
    ensures { IfOk result (λ test. test ≡ id_test id.now) }
{
    let name = id_name(alloc)?;
    let value = id.copy()?;
    Ok(AttrTest {
        name,
        op: Op::Equal,
        value,
    })
}

/// The name of the attribute `id`.
fn id_name(alloc: Global) -> Result<Text, AllocError>
    ensures { IfOk result (λ name. name ≡ codes "id") }
{
    let codes = Vec::from_slice(alloc, &['i', 'd'])?;
    Ok(Text::new(codes))
}

/// The name of all tests, if there are tests and they have one name.
pub(crate) fn common_name(tests: &[(AttrTest, bool)]) -> Option<&Text>
    ensures { IfSome result (λ name. list_all (λ t. same_text t.0.name name.now) tests.now ≡ true) }
{
    match tests {
        [] => None,
        [(first, _), ..] => {
            if have_name(tests, &first.name) {
                Some(&first.name)
            } else {
                None
            }
        }
    }
}

/// Whether all tests have a name.
fn have_name(tests: &[(AttrTest, bool)], name: &Text) -> bool
    ensures { result ≡ list_all (λ t. same_text t.0.name name.now) tests.now }
{
    tests.iter().all(|(test, _)| test.name == *name)
}

/// The names of all tests, each once, ascending.
pub(crate) fn names(alloc: Global, tests: &[(AttrTest, bool)]) -> Result<Vec<Text>, AllocError>
    ensures { IfOk result (λ names. AreNames names.items tests.now) }
{
    let mut names = all_names(alloc, tests)?;
    names.sort()?;
    names.dedup();
    Ok(names)
}

/// The names of all tests.
fn all_names(alloc: Global, tests: &[(AttrTest, bool)]) -> Result<Vec<Text>, AllocError>
    ensures { IfOk result (λ names. names.items ≡ names_of tests.now) }
{
    let mut names = Vec::new(alloc);
    for (test, _) in tests {
        let name = test.name.copy()?;
        names.push(name)?;
    }
    Ok(names)
}

/// The tests of one attribute.
pub(crate) fn tests_of(
    alloc: Global,
    tests: &[(AttrTest, bool)],
    name: &Text,
) -> Result<Vec<(AttrTest, bool)>, AllocError>
    ensures { IfOk result (λ found. found.items ≡ tests_of name.now tests.now) }
{
    let mut found = Vec::new(alloc);
    for (test, wanted) in tests {
        if test.name == *name {
            let copy = test.copy()?;
            found.push((copy, *wanted))?;
        }
    }
    Ok(found)
}
