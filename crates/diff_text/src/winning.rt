//! Which pair of a sheet wins at an example.

ghost use Rattle.std.specs.Prelude.{◌≡◌, ◌||◌, ◌∷◌, List, Some, IfOk, IfSome};
ghost use Rattle.std.specs.List.{AllByRecursion};
ghost use Rattle.std.specs.Option.{option_copied};
ghost use Rattle.css_model.specs.Documents.RunDocuments.{KeepsRules};
ghost use Rattle.css_model.specs.Lists.{same_text};
ghost use Rattle.selector_laws.specs.Limits.{KeepsLimits};
ghost use Rattle.sheet_members.specs.Labels as labels;
ghost use Rattle.sheet_members.specs.Occurrences as laid;
ghost use Rattle.sheet_members.specs.Ready.{IsReady};
ghost use Rattle.sheet_members.specs.Seen.{part_seen};
ghost use Rattle.turned_members.specs.Turned.{couple};
ghost use Rattle.diff_text.specs.Winning as spec;

use cascade_eval::matches_in;
use css_model::{Decl, DeclItem, Example, SelItem, specificity};
use sheet_members::{Common, Occurrence, Part};
use sheet_order::exceeds;
use std::alloc::{AllocError, Global};

/// Whether two heads are both none, or the same text.
pub(crate) fn same_head(head: Option<&[u8]>, other: Option<&[u8]>) -> bool
    ensures { result ≡ labels.same_head (option_copied head.entry) (option_copied other.entry) }
{
    match (head, other) {
        (None, None) => true,
        (Some(head), Some(other)) => head == other,
        _ => false,
    }
}

/// The property of a pair; of a kept item nothing.
pub(crate) fn name_of<'a>(o: &'a Occurrence<'a>) -> &'a [char]
    ensures { result.now ≡ spec.name_of o.now }
{
    match o.part {
        Part::Pair(_, d) => d.decl.name.codes(),
        Part::Kept(_) => &[],
    }
}

/// Whether a declaration is of one of two properties.
fn is_one_of(decl: &Decl, name: &[char], other: &[char]) -> bool
    ensures { result ≡ (same_text decl.now.name name.now || same_text decl.now.name other.now) }
{
    decl.name.codes() == name || decl.name.codes() == other
}

/// Whether a part competes at an example for one of two properties.
fn part_competes(
    alloc: Global,
    x: &Example,
    name: &[char],
    other: &[char],
    part: Part<'_>,
) -> Result<bool, AllocError>
    requires { KeepsRules x.now }
    ensures { IfOk result (λ found. found ≡ spec.part_competes x.now name.now other.now (part_seen part.entry)) }
{
    match part {
        Part::Pair(s, d) => {
            if !is_one_of(&d.decl, name, other) {
                return Ok(false);
            }
            matches_in(alloc, x, &s.selector)
        }
        Part::Kept(_) => Ok(false),
    }
}

/// Whether a block with this normal head holds where exactly those with these two hold, or no block.
fn stands_under(head: Option<&[u8]>, other: Option<&[u8]>, around: Option<&[u8]>) -> bool
    ensures { result ≡ spec.stands_under (option_copied head.entry) (option_copied other.entry) (option_copied around.entry) }
{
    same_head(around, None) || (same_head(around, head) || same_head(around, other))
}

/// Whether an occurrence competes with the pairs of a couple at an example.
fn competes(
    alloc: Global,
    x: &Example,
    first: &Common<'_>,
    second: &Common<'_>,
    o: &Occurrence<'_>,
) -> Result<bool, AllocError>
    requires { KeepsRules x.now }
    ensures { IfOk result (λ found. found ≡ spec.competes x.now (couple first.now second.now) o.now) }
{
    let one = first.here();
    let two = second.here();
    if !stands_under(one.head(), two.head(), o.head()) {
        return Ok(false);
    }
    part_competes(alloc, x, name_of(one), name_of(two), o.part)
}

/// The numbers of a pair that decide before the order of appearance.
fn pair_rank(s: &SelItem, d: &DeclItem) -> [usize; 4]
    requires { KeepsLimits s.now.selector }
    ensures { result ≡ spec.pair_rank s.now d.now }
{
    let counts = specificity(&s.selector);
    let important = if d.decl.important { 1 } else { 0 };
    [
        important,
        counts.a as usize,
        counts.b as usize,
        counts.c as usize,
    ]
}

/// Whether an occurrence is greater than a later one.
fn stays_greater(p: &Occurrence<'_>, o: &Occurrence<'_>) -> bool
    requires first { IsReady p.now }
    requires second { IsReady o.now }
    ensures { result ≡ spec.stays_greater p.now.part o.now.part }
{
    match (p.part, o.part) {
        (Part::Pair(s, d), Part::Pair(t, e)) => exceeds(&pair_rank(s, d), &pair_rank(t, e)),
        _ => false,
    }
}

/// The greater one of an occurrence that won so far, if there is one, and a later one.
fn later_or<'a>(best: Option<&'a Occurrence<'a>>, o: &'a Occurrence<'a>) -> &'a Occurrence<'a>
    requires best { IfSome (option_copied best) IsReady }
    requires later { IsReady o.now }
    ensures ready { IsReady result.now }
    ensures greater { Some result.now ≡ spec.later_or (option_copied best.entry) o.now }
{
    match best {
        None => o,
        Some(p) => { if stays_greater(p, o) { p } else { o } }
    }
}

/// The greatest so far of those that compete with the pairs of a couple at an example, and of a later occurrence. What
/// more occurrences say of it, they say of both.
fn greater_of<'a>(
    alloc: Global,
    x: &Example,
    first: &Common<'_>,
    second: &Common<'_>,
    best: Option<&'a Occurrence<'a>>,
    o: &'a Occurrence<'a>,
) -> Result<Option<&'a Occurrence<'a>>, AllocError>
    requires rules { KeepsRules x.now }
    requires best { IfSome (option_copied best) IsReady }
    requires later { IsReady o.now }
    ensures ready { IfOk result (λ found. IfSome (option_copied found) IsReady) }
    ensures greatest { IfOk result (λ found. (more : List laid.Occurrence) → spec.greatest_from x.now (couple first.now second.now) (option_copied found) more
        ≡ spec.greatest_from x.now (couple first.now second.now) (option_copied best.entry) (o.now ∷ more)) }
{
    if competes(alloc, x, first, second, o)? {
        Ok(Some(later_or(best, o)))
    } else {
        Ok(best)
    }
}

/// The winner of a sheet in which these occur, at an example, among those that compete with the pairs of a couple.
#[tactic(auto, using(crate::proofs::Best::ready_next, crate::proofs::Best::greatest_next))]
pub(crate) fn winning<'a>(
    alloc: Global,
    x: &Example,
    first: &Common<'_>,
    second: &Common<'_>,
    occurrences: &'a [Occurrence<'a>],
) -> Result<Option<&'a Occurrence<'a>>, AllocError>
    requires rules { KeepsRules x.now }
    requires ready { AllByRecursion IsReady occurrences.now }
    ensures ready { IfOk result (λ best. IfSome (option_copied best) IsReady) }
    ensures winner { IfOk result (λ best. option_copied best ≡ spec.winning x.now (couple first.now second.now) occurrences.now) }
{
    let mut best = None;
    let mut rest = occurrences;
    'occurrences: while let [o, others @ ..] = rest {
        best = greater_of(alloc, x, first, second, best, o)?;
        rest = others;
    }
    Ok(best)
}

/// Whether two parts with these normal texts agree in property, value and importance.
fn parts_agree(p: &Occurrence<'_>, o: &Occurrence<'_>) -> bool
    ensures { result ≡ spec.parts_agree p.now.part p.now.text o.now.part o.now.text }
{
    match (p.part, o.part) {
        (Part::Pair(_, d), Part::Pair(_, e)) => {
            d.decl.name.codes() == e.decl.name.codes()
                && (p.text.bytes() == o.text.bytes() && d.decl.important == e.decl.important)
        }
        _ => false,
    }
}

/// Whether two winners agree in property, normal value and importance.
pub(crate) fn agree(first: Option<&Occurrence<'_>>, second: Option<&Occurrence<'_>>) -> bool
    ensures { result ≡ spec.agree (option_copied first.entry) (option_copied second.entry) }
{
    match (first, second) {
        (None, None) => true,
        (Some(p), Some(o)) => parts_agree(p, o),
        _ => false,
    }
}
