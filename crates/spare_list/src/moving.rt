//! Moves an element to another place of its list.

ghost use Rattle.std.specs.Prelude.{◌<◌, ◌≤◌, length};
ghost use Rattle.spare_list.specs.Moved.{IsMoved};

/// Moves the element of one place to a place before it. Those between them move up by one.
pub(crate) fn lower<T>(slots: &mut Vec<T>, from: usize, to: usize)
    requires before { to ≤ from }
    requires within { from < length slots.old.items }
    ensures { IsMoved slots.old.items slots.new.items from to }
{
    let mut at = from;
    while at > to {
        slots.swap(at - 1, at);
        at -= 1;
    }
}

/// Moves the element of one place to a place after it. Those between them move down by one.
pub(crate) fn raise<T>(slots: &mut Vec<T>, from: usize, to: usize)
    requires after { from ≤ to }
    requires within { to < length slots.old.items }
    ensures { IsMoved slots.old.items slots.new.items from to }
{
    let mut at = from;
    while at < to {
        slots.swap(at, at + 1);
        at += 1;
    }
}
