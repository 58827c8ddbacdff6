//! The order of entries.

ghost use Rattle.std.specs.Prelude.{◌≡◌, ◌&&◌, ◌||◌, ◌==◌, nat_lt, if◌then◌else◌, IfOk};
ghost use Rattle.std.specs.List.{IsDistinct};
ghost use Rattle.std.specs.Ordering.{is_lt};
ghost use Rattle.inspect_laws.specs.Order as spec;

use crate::entry::Entry;
use std::alloc::AllocError;
use std::cmp::Ordering;

/// Whether the first of two numbers is greater. Where they are equal, `rest` decides.
fn decides(x: u64, y: u64, rest: bool) -> bool
    ensures { result ≡ (nat_lt y x || x == y && rest) }
{
    y < x || x == y && rest
}

fn importance(e: &Entry<'_>) -> u64
    ensures { result ≡ (if e.now.decl.important then 1 else 0) }
{
    if e.decl.important { 1 } else { 0 }
}

/// Whether an entry is greater than another one.
fn outranks(e: &Entry<'_>, f: &Entry<'_>) -> bool
    ensures { result ≡ spec.outranks e.now f.now }
{
    let selector = decides(e.selector as u64, f.selector as u64, false);
    let declaration = decides(e.declaration as u64, f.declaration as u64, selector);
    let inner = decides(e.inner as u64, f.inner as u64, declaration);
    let spot = decides(e.item as u64, f.item as u64, inner);
    let c = decides(u64::from(e.weight.c), u64::from(f.weight.c), spot);
    let b = decides(u64::from(e.weight.b), u64::from(f.weight.b), c);
    let a = decides(u64::from(e.weight.a), u64::from(f.weight.a), b);
    decides(importance(e), importance(f), a)
}

/// How two entries are put: the greater one first.
fn compare(e: &Entry<'_>, f: &Entry<'_>) -> Ordering
    ensures { is_lt result ≡ spec.outranks e.now f.now }
{
    if outranks(e, f) {
        Ordering::Less
    } else if outranks(f, e) {
        Ordering::Greater
    } else {
        Ordering::Equal
    }
}

/// Entries of different ranks, the greatest first.
pub(crate) fn in_order<'a>(entries: Vec<Entry<'a>>) -> Result<Vec<Entry<'a>>, AllocError>
    requires { IsDistinct spec.same_rank entries.items }
    ensures { IfOk result (λ sorted. spec.AreOrdered entries.entry.items sorted.items) }
{
    let mut sorted = entries;
    sorted.sort_by(
        |e, f|
            ensures { is_lt result ≡ spec.outranks e.now f.now }
        { compare(e, f) },
    )?;
    Ok(sorted)
}
