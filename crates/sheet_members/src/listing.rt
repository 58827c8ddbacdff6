//! The members of a sheet.

ghost use Rattle.std.specs.Prelude.{◌≡◌, ◌<◌, ◌^◌, ◌+◌, ◌++◌, ◌∷◌, ◌||◌, [], List, Some, cond, IfOk, OnOk, map, reverse};
ghost use Rattle.std.specs.Map.{count_at};
ghost use Rattle.std.specs.HashMap.{get};
ghost use Rattle.sheet_members.specs.Labels as labels;
ghost use Rattle.sheet_members.specs.Members as spec;
ghost use Rattle.sheet_members.specs.Occurrences as laid;
ghost use Rattle.sheet_members.specs.Seen.{part_seen};
ghost use Rattle.sheet_members.specs.Tables.{AreCounts, AreListed, IsBack};

use crate::label::{Label, label_of};
use crate::occurrence::{Occurrence, Part};
use std::alloc::{AllocError, Global};
use std::collections::{HashMap, HashSet};
use std::marker::Model;

/// A member of a sheet: a pair where it occurs last, or a kept item.
#[derive(Drop)]
pub struct Member<'a> {
    /// Where it occurs.
    pub occurrence: &'a Occurrence<'a>,
    /// What it is compared by.
    pub label: Label<'a>,
}

impl<'a> Model for Member<'a> {
    ghost use Rattle.sheet_members.specs.Members as spec;

    ghost Value = { spec.Member };

    ghost view = { λ m. record { occurrence = m.occurrence.now; label = m.label } };
}

impl<'a> Member<'a> {
    /// The same member.
    pub fn copy(&self) -> Member<'a>
        ensures { result ≡ self.now }
    {
        Member {
            occurrence: self.occurrence,
            label: self.label.copy(),
        }
    }
}

/// Whether a part is a pair.
fn is_pair(part: Part<'_>) -> bool
    ensures { result ≡ spec.is_pair (part_seen part.entry) }
{
    match part {
        Part::Pair(_, _) => true,
        Part::Kept(_) => false,
    }
}

/// Whether an occurrence is among those whose labels are listed, if it is a pair.
fn is_listed<'a>(listed: &HashSet<Label<'a>>, o: &'a Occurrence<'a>) -> bool
    ensures { (others : List laid.Occurrence) → AreListed others listed.now.keys → result ≡ spec.is_listed others o.now }
{
    let label = label_of(o);
    let found = listed.contains(&label);
    is_pair(o.part) && found
}

/// Whether an occurrence does not count before those whose labels are listed.
fn is_passed<'a>(listed: &HashSet<Label<'a>>, o: &'a Occurrence<'a>) -> bool
    ensures { (others : List laid.Occurrence) → AreListed others listed.now.keys
        → result ≡ (o.now.repeated || spec.is_listed others o.now) }
{
    let found = is_listed(listed, o);
    o.repeated || found
}

/// Puts the label of an occurrence to those that are listed.
#[tactic(auto, using(crate::proofs::Listed::listed_with))]
fn put_listed<'a>(listed: &mut HashSet<Label<'a>>, o: &'a Occurrence<'a>) -> Result<(), AllocError>
    ensures { OnOk result ((others : List laid.Occurrence) → AreListed others listed.old.keys
        → AreListed (o.now ∷ others) listed.new.keys) }
{
    listed.insert(label_of(o))?;
    Ok(())
}

/// Puts an occurrence after those that come later, if it counts.
#[tactic(auto, using(crate::proofs::Listed::passed_stays, crate::proofs::Listed::put_back))]
fn push_last<'a>(
    found: &mut Vec<Member<'a>>,
    listed: &mut HashSet<Label<'a>>,
    o: &'a Occurrence<'a>,
) -> Result<(), AllocError>
    ensures { OnOk result ((others : List laid.Occurrence) → IsBack others listed.old.keys found.old.items
        → IsBack (spec.with_last o.now others) listed.new.keys found.new.items) }
{
    if is_passed(listed, o) {
        return Ok(());
    }
    put_listed(listed, o)?;
    found.push(Member {
        occurrence: o,
        label: label_of(o),
    })?;
    Ok(())
}

/// The occurrences that count, the last one first, with their labels.
#[tactic(auto, using(crate::proofs::Listed::none_back, crate::proofs::Listed::back_next))]
fn lasts_back<'a>(
    alloc: Global,
    occurrences: &'a [Occurrence<'a>],
) -> Result<Vec<Member<'a>>, AllocError>
    ensures { IfOk result (λ found. found.items ≡ map spec.member_of (reverse (spec.lasts occurrences.now))) }
{
    let mut found = Vec::new(alloc);
    let mut listed: HashSet<Label<'_>> = HashSet::new(alloc);
    let mut left = occurrences.len();
    'left: while left > 0 {
        left -= 1;
        push_last(&mut found, &mut listed, &occurrences[left])?;
    }
    Ok(found)
}

/// The occurrences that count, with their labels.
fn lasts<'a>(
    alloc: Global,
    occurrences: &'a [Occurrence<'a>],
) -> Result<Vec<Member<'a>>, AllocError>
    ensures { IfOk result (λ found. found.items ≡ map spec.member_of (spec.lasts occurrences.now)) }
{
    let mut found = lasts_back(alloc, occurrences)?;
    found.reverse();
    Ok(found)
}

/// Counts a label. It says how many equal ones were counted before.
fn count<'a>(counts: &mut HashMap<Label<'a>, usize>, label: &Label<'a>) -> Result<usize, AllocError>
    requires { count_at (get labels.same_label counts.old) label.now + 1 < 2 ^ 64 }
    ensures before { IfOk result (λ n. n ≡ count_at (get labels.same_label counts.old) label.now) }
    ensures counts { OnOk result ((q : labels.Label) → get labels.same_label counts.new q
        ≡ cond (labels.same_label label.now q) (Some (count_at (get labels.same_label counts.old) label.now + 1)) (get labels.same_label counts.old q)) }
{
    let before = match counts.get(label) {
        None => 0,
        Some(count) => *count,
    };
    counts.insert(label.copy(), before + 1)?;
    Ok(before)
}

/// A member with the number of equal labels that were counted before.
#[tactic(auto, using(crate::proofs::Repeats::counts_with))]
fn numbered_one<'a>(
    counts: &mut HashMap<Label<'a>, usize>,
    m: &Member<'a>,
) -> Result<Member<'a>, AllocError>
    requires { count_at (get labels.same_label counts.old) m.now.label + 1 < 2 ^ 64 }
    ensures { (before : List labels.Label) → AreCounts before (get labels.same_label counts.old)
        → IfOk result (λ x. (x ≡ spec.numbered_one before m.now) × AreCounts (before ++ m.now.label ∷ []) (get labels.same_label counts.new)) }
{
    let number = count(counts, &m.label)?;
    Ok(Member {
        occurrence: m.occurrence,
        label: m.label.with_number(number),
    })
}

/// Some members, each one that equal ones come before with their number.
#[tactic(auto, using(crate::proofs::Repeats::no_counts, crate::proofs::Repeats::counts_next, crate::proofs::Repeats::numbers_next, crate::proofs::Repeats::counts_small))]
pub(crate) fn numbered<'a>(
    alloc: Global,
    members: &[Member<'a>],
) -> Result<Vec<Member<'a>>, AllocError>
    ensures { IfOk result (λ found. found.items ≡ spec.numbered [] members.now) }
{
    let mut found = Vec::with_capacity(alloc, members.len())?;
    let mut counts: HashMap<Label<'_>, usize> = HashMap::new(alloc);
    for m in members {
        found.push(numbered_one(&mut counts, m)?)?;
    }
    Ok(found)
}

/// The members of a sheet in which these occur: each pair where it occurs last, of one declaration the first of equal
/// selectors, and each kept item; in the order in which they occur. `AllocError` where memory is short.
pub fn members_of<'a>(
    alloc: Global,
    occurrences: &'a [Occurrence<'a>],
) -> Result<Vec<Member<'a>>, AllocError>
    ensures { IfOk result (λ found. found.items ≡ spec.members_of occurrences.now) }
{
    let members = lasts(alloc, occurrences)?;
    numbered(alloc, &members)
}
