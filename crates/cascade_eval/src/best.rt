//! The greatest declaration of a name.

ghost use Rattle.std.specs.Prelude.{◌≡◌, Some, ◌&&◌, ◌||◌, ◌==◌, nat_lt, if◌then◌else◌};
ghost use Rattle.std.specs.List.{filter};
ghost use Rattle.css_model.specs.Cascade.Winner.{greater, greatest, outranks};
ghost use Rattle.css_model.specs.Lists.{same_text};

use crate::entries::Entry;
use css_model::Text;

/// The greatest declaration of those that have a name, by importance, then specificity, then place. Of equal ones it is
/// the last.
pub(crate) fn best_of<'a>(entries: &[Entry<'a>], name: &Text) -> Option<Entry<'a>>
    ensures { result ≡ greatest (filter (λ e. same_text e.decl.name name.now) entries.now) }
{
    let mut best = None;
    let mut left = entries.len();
    while left > 0 {
        left -= 1;
        let entry = &entries[left];
        if has_name(entry, name) {
            best = Some(greater(entry, &best));
        }
    }
    best
}

/// Whether a declaration has a name.
fn has_name(entry: &Entry<'_>, name: &Text) -> bool
    ensures { result ≡ same_text entry.now.decl.name name.now }
{
    entry.decl.name == *name
}

/// The greater of an entry and perhaps another one. Of equal ones it is the other.
fn greater<'a>(entry: &Entry<'a>, best: &Option<Entry<'a>>) -> Entry<'a>
    ensures { Some result ≡ greater entry.now best.now }
{
    match best {
        None => entry.copy(),
        Some(other) => {
            if outranks(entry, other) {
                entry.copy()
            } else {
                other.copy()
            }
        }
    }
}

/// Whether an entry wins over another one.
fn outranks(e: &Entry<'_>, f: &Entry<'_>) -> bool
    ensures { result ≡ outranks e.now f.now }
{
    let place = decides(
        e.item as u64,
        f.item as u64,
        decides(e.position as u64, f.position as u64, false),
    );
    let weight = decides(
        u64::from(e.weight.a),
        u64::from(f.weight.a),
        decides(
            u64::from(e.weight.b),
            u64::from(f.weight.b),
            decides(u64::from(e.weight.c), u64::from(f.weight.c), place),
        ),
    );
    decides(importance(e), importance(f), weight)
}

/// Whether the first of two numbers is greater. Where they are equal, `rest` decides.
fn decides(x: u64, y: u64, rest: bool) -> bool
    ensures { result ≡ (nat_lt y x || x == y && rest) }
{
    y < x || x == y && rest
}

fn importance(e: &Entry<'_>) -> u64
    ensures { result ≡ (if e.now.decl.important then 1 else 0) }
{
    if e.decl.important { 1 } else { 0 }
}
