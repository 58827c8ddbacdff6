//! What blocks steps of small sheets, worked by hand.

use crate::asking::obstacle_of;
use crate::sheets::{DOWN, UP, sheet};
use merge_steps::{Step, is_step};
use obstacles::{Obstacle, Obstacles, Other, PairPlace, Stopped};
use overlap::Pairs;
use std::alloc::Global;
use std::process::Abort;
use step_obstacles::PairObstacles;

/// What blocks a step of the sheet of a source, or why it is not known.
fn obstacle(
    rt: &impl Abort,
    alloc: Global,
    obstacles: &mut PairObstacles,
    source: &str,
    step: &Step,
    most_answers: Option<usize>,
) -> Result<Option<Obstacle>, Stopped> {
    let sheet = sheet(rt, alloc, source.as_bytes());
    let is_step = is_step(alloc, &sheet.items, step).expect(rt, "memory");
    assert!(rt; is_step, "{source}");
    obstacle_of(rt, alloc, obstacles, &sheet, step, most_answers)
}

/// The first pair of a sheet.
const FIRST: PairPlace = PairPlace {
    item: 0,
    sel: 0,
    decl: 0,
};

/// The first pair of the second item.
const NEXT: PairPlace = PairPlace { item: 1, ..FIRST };

/// The second declaration of the second item.
const NEXT_SECOND: PairPlace = PairPlace { decl: 1, ..NEXT };

/// The first pair of the third item.
const THIRD: PairPlace = PairPlace { item: 2, ..FIRST };

/// The second declaration of the third item.
const THIRD_SECOND: PairPlace = PairPlace { decl: 1, ..THIRD };

/// A step that shares what the rules of the first and the third item have in common.
const SHARE: Step = Step::Share { upper: 0, lower: 2 };

/// A source, a step, and what blocks it: the moved pair and the other one.
const ROWS: [(&str, Step, Option<(PairPlace, Other)>); 14] = [
    (
        ".a{top:0}.b{top:1px}.a{color:red;top:2px}",
        UP,
        Some((THIRD_SECOND, Other::Pair(NEXT))),
    ),
    (".a{top:0}@x;.a{left:0}", UP, Some((THIRD, Other::Kept(1)))),
    (
        ".a{top:0}:is(b){top:1px}.a{top:2px}",
        UP,
        Some((THIRD, Other::Kept(1))),
    ),
    // a kept rule that sets something else
    (".a{top:0}:is(b){color:red}.a{top:2px}", UP, None),
    // no element is a link that is visited and one that is not
    ("a:link{top:0}a:visited{top:1px}a:link{top:2px}", UP, None),
    // the pair occurs again further down
    (".a{top:0}.b{top:1px}.a{top:2px}.a{top:2px}", UP, None),
    // so does the other one
    (".a{top:0}.b{top:1px}.a{top:2px}.b{top:1px}", UP, None),
    (
        ".a{top:0}.b{color:red;top:1px}.a{left:0}",
        DOWN,
        Some((FIRST, Other::Pair(NEXT_SECOND))),
    ),
    (".a{top:0}.b{color:red}.a{left:0}", DOWN, None),
    (
        ".a{top:0;color:red}.c{top:1px}.b{top:0;margin:0}",
        SHARE,
        Some((FIRST, Other::Pair(NEXT))),
    ),
    (
        ".a{top:0;color:red}.c{margin:0}.b{top:0;margin:0}",
        SHARE,
        None,
    ),
    (
        ".a{top:0}.b{top:1px}.a{top:0}",
        Step::CutDecl { item: 2, decl: 0 },
        Some((THIRD, Other::Pair(NEXT))),
    ),
    (
        ".a{top:0}.b{color:red}.a{top:0}",
        Step::CutDecl { item: 2, decl: 0 },
        None,
    ),
    (
        ".a{top:0}.b{top:1px}.a{top:0}",
        Step::CutDecl { item: 0, decl: 0 },
        None,
    ),
];

#[test]
fn steps_are_blocked(rt: HostRuntime) {
    let alloc = rt.alloc();
    let mut obstacles = PairObstacles::new(alloc, Pairs::new(alloc, 0));
    for (source, step, want) in &ROWS {
        let found = obstacle(&rt, alloc, &mut obstacles, source, step, None);
        let found = match found.expect(&rt, "memory") {
            Some(Obstacle { moved, other }) => Some((moved, other)),
            None => None,
        };
        assert!(rt; found == *want, "{source}");
    }
}

#[test]
fn no_more_answers_are_held_than_allowed(rt: HostRuntime) {
    let alloc = rt.alloc();
    let mut obstacles = PairObstacles::new(alloc, Pairs::new(alloc, 0));
    // `#a` and `#b` are compared with `#c` and `#d`
    let source = "#a,#b{top:0}#c,#d{top:1px}#a,#b{top:2px}";
    for most in 0..4 {
        let found = obstacle(&rt, alloc, &mut obstacles, source, &UP, Some(most));
        assert!(rt; found == Err(Stopped::Work));
        assert!(rt; obstacles.held() == most);
    }
    let found = obstacle(&rt, alloc, &mut obstacles, source, &UP, Some(4));
    assert!(rt; found == Ok(None));
    assert!(rt; obstacles.held() == 4);
    // what is held is no new answer
    let found = obstacle(&rt, alloc, &mut obstacles, source, &UP, Some(0));
    assert!(rt; found == Ok(None));
}
