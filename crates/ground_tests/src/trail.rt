//! What a trail holds once levels are taken back, and which variable it names next.

use cnf::Lit;
use sat_trail::Trail;
use std::test::Fail;

/// What is implied at level 0 stays.
#[test]
fn takes_back_the_levels_above(rt: HostRuntime) -> Result<(), Fail> {
    let mut trail = Trail::new(rt.alloc(), 3)?;
    trail.imply(Lit(4), 2);
    assert!(rt; trail.value(Lit(1)).is_none());
    trail.decide(Lit(1));
    assert_eq!(rt; (trail.level(), trail.len()), (1, 2));
    trail.undo_to(0);
    assert_eq!(rt; (trail.level(), trail.len()), (0, 1));
    assert_eq!(rt;
        (trail.value(Lit(4)), trail.value(Lit(1))),
        (Some(true), None)
    );
    Ok(())
}

/// The lowest variable comes first where nothing was bumped, then the one with the highest activity. One that has a
/// value is not named, and is named again once its level is taken back.
#[test]
fn names_the_most_active_open_variable(rt: HostRuntime) -> Result<(), Fail> {
    let mut trail = Trail::new(rt.alloc(), 4)?;
    assert_eq!(rt; trail.next_free(), Some(0));
    trail.bump(2);
    trail.bump(3);
    trail.bump(3);
    assert_eq!(rt; trail.next_free(), Some(3));
    trail.decide(Lit(7));
    assert_eq!(rt; trail.next_free(), Some(2));
    trail.undo_to(0);
    assert_eq!(rt; trail.next_free(), Some(3));
    Ok(())
}
