//! The families that have a group.

ghost use Rattle.std.specs.Prelude.{◌≡◌, ◌++◌, ◌∷◌, [], true, map, IfOk, OnOk};
ghost use Rattle.std.specs.List.{Contains, list_all};
ghost use Rattle.css_model.specs.Cascade.Family.{family_of};
ghost use Rattle.inspect_laws.specs.Groups as groups;
ghost use Rattle.inspect_text.specs.Leading as spec;

use crate::claims::ALL;
use crate::entry::Entry;
use css_model::{Family, Text};
use related_props::family;
use std::alloc::{AllocError, Global};

/// The name of the family of a property.
fn family_name(alloc: Global, name: &Text) -> Result<Text, AllocError>
    ensures { IfOk result (λ family. family ≡ groups.name_of (family_of name.now)) }
{
    match family(alloc, name)? {
        Family::All => Ok(Text::new(Vec::from_slice(alloc, ALL)?)),
        Family::Custom(name) | Family::Named(name) => Ok(name),
    }
}

/// The name of the family of an entry's property.
pub(crate) fn family_of_entry(alloc: Global, e: &Entry<'_>) -> Result<Text, AllocError>
    ensures { IfOk result (λ family. family ≡ groups.family_name e.now) }
{
    family_name(alloc, &e.decl.name)
}

/// Whether an entry is of the property `all`.
pub(crate) fn is_all(e: &Entry<'_>) -> bool
    ensures { result ≡ groups.is_all e.now }
{
    e.decl.name.codes() == ALL
}

/// Whether all entries are of the property `all`.
fn are_all(entries: &[Entry<'_>]) -> bool
    ensures { result ≡ list_all groups.is_all entries.now }
{
    entries.iter().all(|e| is_all(e))
}

/// Whether the last of some texts is this one.
fn is_last(names: &[Text], name: &Text) -> bool
    ensures { result ≡ true → Contains names.now name.now }
{
    match names {
        [] => false,
        [.., last] => last == name,
    }
}

/// Puts a name after the others, unless the last of them is the same.
fn push_name(names: &mut Vec<Text>, name: Text) -> Result<(), AllocError>
    ensures { OnOk result (spec.SameNames names.new.items (names.old.items ++ name ∷ [])) }
{
    if !is_last(names, &name) {
        names.push(name)?;
    }
    Ok(())
}

/// Whether the family of an entry has a group, where all entries are of `all` or not.
fn leads(only_all: bool, e: &Entry<'_>) -> bool
    ensures { result ≡ spec.leads only_all e.now }
{
    only_all || !is_all(e)
}

/// Puts the name of the family of an entry after the others, if it has a group.
fn push_leading(
    names: &mut Vec<Text>,
    alloc: Global,
    only_all: bool,
    e: &Entry<'_>,
) -> Result<(), AllocError>
    ensures { OnOk result (spec.SameNames names.new.items (names.old.items ++ spec.leading_names only_all (e.now ∷ []))) }
{
    if leads(only_all, e) {
        let name = family_of_entry(alloc, e)?;
        push_name(names, name)?;
    }
    Ok(())
}

/// The names of the families that have a group, in the order of the entries.
fn leading_names(alloc: Global, entries: &[Entry<'_>]) -> Result<Vec<Text>, AllocError>
    ensures { IfOk result (λ names. spec.SameNames names.items (map groups.family_name (groups.leading entries.now))) }
{
    let only_all = are_all(entries);
    let mut names = Vec::new(alloc);
    for e in entries {
        push_leading(&mut names, alloc, only_all, e)?;
    }
    Ok(names)
}

/// The names of the families that have a group, each once, ascending by code points.
pub(crate) fn families_of(alloc: Global, entries: &[Entry<'_>]) -> Result<Vec<Text>, AllocError>
    ensures { IfOk result (λ families. groups.AreFamilies entries.now families.items) }
{
    let mut names = leading_names(alloc, entries)?;
    names.sort()?;
    names.dedup();
    Ok(names)
}
