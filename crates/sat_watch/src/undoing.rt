//! Taking levels back.
ghost use Rattle.std.specs.Prelude.{◌≡◌, ◌≤◌, List, length};
ghost use Rattle.sat_arena.specs.Arena.{WatchedClauses};
ghost use Rattle.sat_trail.specs.Trail.{IsTrail, undone_to};
ghost use Rattle.sat_watch.specs.Numbered.{Numbered};
ghost use Rattle.sat_watch.specs.Soundness.{IsSound};
ghost use Rattle.sat_watch.specs.Watches.{IsReady, head_within};

use sat_trail::Trail;

/// Takes back all entries of the levels above one. Propagation goes on where it was, or after the entries that are
/// left. No watch has to move.
pub fn undo(trail: &mut Trail, head: &mut u32, level: u32)
    requires { level ≤ trail.old.level }
    ensures trail { trail.new ≡ undone_to trail.old level }
    ensures head { head.new ≡ head_within head.old (length trail.new.entries) }
    ensures ready { (a : WatchedClauses) → IsReady a trail.old head.old
        → IsReady a trail.new head.new }
    ensures sound { (ns : List Numbered) → IsTrail trail.old → IsSound ns trail.old
        → IsSound ns trail.new }
{
    trail.undo_to(level);
    *head = within(*head, trail.len());
}

/// A place among so many entries, or after them.
fn within(head: u32, count: u32) -> u32
    ensures { result ≡ head_within head count }
{
    if head <= count { head } else { count }
}
