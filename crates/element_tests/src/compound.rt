//! What simple selectors say of an element, from its features and its place (Selectors 3, section 6).

ghost use Rattle.std.specs.Prelude.{◌≡◌, ◌<◌, ◌^◌, codes};
ghost use Rattle.css_model.specs.Documents.Attribute.{passes};
ghost use Rattle.css_model.specs.Documents.Document.{attribute_value};
ghost use Rattle.css_model.specs.Documents.Features.{element_of, flag_number, flags_of};
ghost use Rattle.css_model.specs.Documents.Matching.{some_passes};
ghost use Rattle.css_model.specs.Lists.{same_text};
ghost use Rattle.cascade_laws.specs.Eval.Surrounded.{compound_among, simple_among, test_among};
ghost use Rattle.element_tests.specs.Whereabouts.{surroundings_of};

use crate::attribute::{passes, value_of};
use crate::nth::is_nth;
use crate::whereabouts::Whereabouts;
use css_model::{AttrTest, Compound, Features, Flag, Simple, Test, Text};

/// Whether all simple selectors of a sequence hold of an element with these features at this place (Selectors 3,
/// section 4). The counts of siblings are below 2^100.
pub fn passes_compound(element: &Features, place: &Whereabouts, compound: &Compound) -> bool
    requires before { place.now.before < 2 ^ 100 }
    requires behind { place.now.behind < 2 ^ 100 }
    ensures { result ≡ compound_among (element_of element.now) (surroundings_of place.now) compound.now }
{
    for simple in compound.simples.as_slice() {
        if !passes_simple(element, place, simple) {
            return false;
        }
    }
    true
}

/// Whether a simple selector holds of an element; it may be a negation (section 6.6.7).
fn passes_simple(element: &Features, place: &Whereabouts, simple: &Simple) -> bool
    requires before { place.now.before < 2 ^ 100 }
    requires behind { place.now.behind < 2 ^ 100 }
    ensures { result ≡ simple_among (element_of element.now) (surroundings_of place.now) simple.now }
{
    if simple.negated {
        !passes_test(element, place, &simple.test)
    } else {
        passes_test(element, place, &simple.test)
    }
}

/// Whether a test holds of an element.
fn passes_test(element: &Features, place: &Whereabouts, test: &Test) -> bool
    requires before { place.now.before < 2 ^ 100 }
    requires behind { place.now.behind < 2 ^ 100 }
    ensures { result ≡ test_among (element_of element.now) (surroundings_of place.now) test.now }
{
    match test {
        Test::Any => true,
        Test::Kind(name) => element.kind == *name,
        Test::Id(name) => has_id(element, name),
        Test::Attr(test) => has_attribute(element, test),
        Test::Nth(x) => place.is_child && is_nth(*x, place.before + 1),
        Test::NthLast(x) => place.is_child && is_nth(*x, place.behind + 1),
        Test::OnlyChild => place.is_child && place.before == 0 && place.behind == 0,
        Test::Root => place.is_root,
        Test::Empty => !place.has_children && !element.text,
        Test::State(flag) => has_flag(element.flags, *flag),
    }
}

/// Whether an element has an id (section 6.5).
fn has_id(element: &Features, name: &Text) -> bool
    ensures { result ≡ some_passes (λ value. same_text value name.now) (attribute_value (element_of element.now) (codes "id")) }
{
    match value_of(element.attrs.as_slice(), &['i', 'd']) {
        Some(value) => value == name,
        None => false,
    }
}

/// Whether an element has an attribute whose value passes a test (section 6.3).
fn has_attribute(element: &Features, test: &AttrTest) -> bool
    ensures { result ≡ some_passes (passes test.now.op test.now.value) (attribute_value (element_of element.now) test.now.name) }
{
    match value_of(element.attrs.as_slice(), test.name.codes()) {
        Some(value) => passes(test, value.codes()),
        None => false,
    }
}

/// Whether a flag is among those of a number.
fn has_flag(flags: u16, flag: Flag) -> bool
    ensures { result ≡ flags_of flags flag }
{
    (flags >> flag_number(flag)) % 2 == 1
}

/// The number of a flag, from 0.
fn flag_number(flag: Flag) -> u16
    ensures number { result ≡ flag_number flag }
    ensures small { result < 9 }
{
    match flag {
        Flag::Link => 0,
        Flag::Visited => 1,
        Flag::Hover => 2,
        Flag::Active => 3,
        Flag::Focus => 4,
        Flag::Target => 5,
        Flag::Enabled => 6,
        Flag::Disabled => 7,
        Flag::Checked => 8,
    }
}
