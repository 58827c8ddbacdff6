//! Which literals a clause watches, and in which lists it is.

ghost use Rattle.std.specs.Prelude.{◌≡◌, IsTrue, IfOk};
ghost use Rattle.cnf.specs.Lits.{is_below};

use cnf::Lit;
use rup_check::{LogError, read_log};
use sat_arena::Arena;
use std::alloc::Global;
use std::process::Abort;
use std::test::Fail;

const EIGHT: &[u8] = b"vars 3 clauses 8
1 2 0
-1 -2 0
-3 1 0
-3 2 0
3 -1 -2 0
3 0
2 2 0
2 2 -2 1 0
";

/// The eight clauses, and a ninth one that is attached.
fn nine(rt: &impl Abort, alloc: Global) -> Result<Arena, LogError>
    ensures { IfOk result (λ a. a.vars ≡ 3) }
{
    let log = read_log(alloc, EIGHT)?;
    assert_eq!(rt; log.formula.vars(), 3);
    let mut arena = Arena::new(alloc, &log.formula)?;
    arena.attach(&[Lit(1), Lit(4)])?;
    assert_eq!(rt; arena.len(), 9);
    Ok(arena)
}

/// Whether the list of a literal has the clauses at these places.
fn has_list(arena: &Arena, lit: Lit, places: &[usize]) -> bool
    requires { IsTrue (is_below arena.now.vars lit) }
{
    let mut next = arena.first(lit);
    for place in places {
        match next {
            Some(clause) if *place < arena.len() && arena.at(*place) == clause => {
                next = arena.next(lit, clause);
            }
            _ => return false,
        }
    }
    next.is_none()
}

/// Compares the lists of the six literals.
fn has_lists(rt: &impl Abort, arena: &Arena, lists: [&[usize]; 6])
    requires { arena.now.vars ≡ 3 }
{
    for number in 0..6u32 {
        assert!(rt;
            has_list(arena, Lit(number), lists[number as usize]),
            "of {number}"
        );
    }
}

/// The newest clause comes first. A clause of one literal is in no list.
#[test]
fn a_clause_watches_two_of_its_literals(rt: HostRuntime) -> Result<(), Fail> {
    let arena = nine(&rt, rt.alloc())?;
    for (place, size, one, other) in [
        (0, 2, 2, 0),
        (1, 2, 3, 1),
        (2, 2, 0, 5),
        (3, 2, 2, 5),
        (4, 3, 3, 1),
        (5, 1, 4, 4),
        (6, 2, 2, 2),
        (7, 4, 0, 3),
        (8, 2, 4, 1),
    ] {
        assert!(rt; place < arena.len());
        let clause = arena.at(place);
        assert_eq!(rt; arena.size(clause), size, "at {place}");
        assert!(rt;
            arena.watches(clause) == (Lit(one), Lit(other)),
            "at {place}"
        );
    }
    has_lists(
        &rt,
        &arena,
        [&[7, 2, 0], &[8, 4, 1], &[3, 0], &[7, 4, 1], &[8], &[3, 2]],
    );
    Ok(())
}

/// Lets the clause at a place watch its first literal in place of its first watch.
fn rewatch(rt: &impl Abort, arena: &mut Arena, place: usize)
    ensures { arena.new.vars ≡ arena.old.vars }
{
    assert!(rt; place < arena.len());
    let clause = arena.at(place);
    let (one, other) = arena.watches(clause);
    assert!(rt; one.0 != other.0 && arena.size(clause) > 0);
    let to = arena.literal(clause, 0);
    assert!(rt; to.0 != one.0 && to.0 != other.0);
    arena.move_watch(one, clause, to);
}

#[test]
fn a_moved_watch_goes_to_the_front_of_its_list(rt: HostRuntime) -> Result<(), Fail> {
    let mut arena = nine(&rt, rt.alloc())?;
    rewatch(&rt, &mut arena, 4);
    has_lists(
        &rt,
        &arena,
        [&[7, 2, 0], &[8, 4, 1], &[3, 0], &[7, 1], &[4, 8], &[3, 2]],
    );
    assert!(rt; arena.len() > 4);
    assert!(rt; arena.watches(arena.at(4)) == (Lit(4), Lit(1)));
    Ok(())
}
