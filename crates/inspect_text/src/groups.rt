//! The texts of groups.

ghost use Rattle.std.specs.Prelude.{◌≡◌, ◌<◌, ◌++◌, ◌∷◌, [], ℕ, List, Some, false, get_or, length, map, set, slice_get, IfOk, OnOk};
ghost use Rattle.std.specs.Cmp.Lexicographic.{slice_cmp};
ghost use Rattle.std.specs.Ordering.{nat_cmp};
ghost use Rattle.std.specs.List.{Contains, filter, flat_map};
ghost use Rattle.std.specs.List.Sorted.{IsStrictlySortedBy};
ghost use Rattle.inspect_laws.specs.Entries as entries;
ghost use Rattle.inspect_laws.specs.Groups as groups;

use crate::entry::Entry;
use crate::families::{family_of_entry, is_all};
use css_model::Text;
use std::alloc::{AllocError, Global};
use std::marker::Model;

/// The lines of a group so far.
#[derive(Drop)]
pub(crate) struct GroupText {
    /// The lines, each with its end.
    pub(crate) text: Vec<u8>,
}

impl Model for GroupText {
    ghost use Rattle.std.specs.Prelude.{List, ℕ};

    ghost Value = { List ℕ };

    ghost view = { λ g. g.text.items };
}

/// No lines for each of these families.
pub(crate) fn no_lines(alloc: Global, families: &[Text]) -> Result<Vec<GroupText>, AllocError>
    ensures { IfOk result (λ texts. texts.items ≡ map (λ family. []) families.now) }
{
    let mut texts = Vec::with_capacity(alloc, families.len())?;
    for _family in families {
        texts.push(GroupText {
            text: Vec::new(alloc),
        })?;
    }
    Ok(texts)
}

/// Appends a line to a group.
fn append(group: &mut GroupText, line: &[u8]) -> Result<(), AllocError>
    ensures { OnOk result (group.new ≡ group.old ++ line.now) }
{
    group.text.extend_from_slice(line)
}

/// Appends a line to the group of this number.
fn append_at(texts: &mut Vec<GroupText>, number: usize, line: &[u8]) -> Result<(), AllocError>
    requires { number < length texts.old.items }
    ensures { OnOk result (texts.new.items ≡ set texts.old.items number (get_or texts.old.items number [] ++ line.now)) }
{
    append(&mut texts[number], line)
}

/// Appends a line to each group.
fn append_each(texts: &mut Vec<GroupText>, line: &[u8]) -> Result<(), AllocError>
    ensures { OnOk result (texts.new.items ≡ map (λ text. text ++ line.now) texts.old.items) }
{
    for number in 0..texts.len() {
        append_at(texts, number, line)?;
    }
    Ok(())
}

/// The number of the group of an entry, whose family is among these.
#[tactic(auto, using(crate::proofs::Placing::found_there, crate::proofs::Placing::is_there))]
fn group_of(alloc: Global, families: &[Text], e: &Entry<'_>) -> Result<usize, AllocError>
    requires ascending { IsStrictlySortedBy (slice_cmp nat_cmp) families.now }
    requires there { Contains families.now (groups.family_name e.now) }
    ensures { IfOk result (λ number. slice_get families.now number ≡ Some (groups.family_name e.now)) }
{
    let family = family_of_entry(alloc, e)?;
    match families.binary_search(&family) {
        Ok(number) => Ok(number),
        Err(_) => unreachable!(),
    }
}

/// Appends the line of an entry to the group of its family; of one of `all` to each group.
#[tactic(auto, using(crate::proofs::Placing::line_at, crate::proofs::Placing::line_in_each))]
pub(crate) fn put_line(
    texts: &mut Vec<GroupText>,
    alloc: Global,
    families: &[Text],
    e: &Entry<'_>,
    line: &[u8],
) -> Result<(), AllocError>
    requires many { length texts.old.items ≡ length families.now }
    requires ascending { IsStrictlySortedBy (slice_cmp nat_cmp) families.now }
    requires there { groups.is_all e.now ≡ false → Contains families.now (groups.family_name e.now) }
    ensures { OnOk result ((before : List entries.Entry) (f : entries.Entry → List ℕ) → f e.now ≡ line.now
        → texts.old.items ≡ map (λ family. flat_map f (filter (groups.is_in_group family) before)) families.now
        → texts.new.items ≡ map (λ family. flat_map f (filter (groups.is_in_group family) (before ++ e.now ∷ []))) families.now) }
{
    if is_all(e) {
        append_each(texts, line)
    } else {
        let number = group_of(alloc, families, e)?;
        append_at(texts, number, line)
    }
}
