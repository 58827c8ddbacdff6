//! A list with spare places at its front.

use spare_list::SpareList;
use std::process::Abort;
use std::test::Fail;

/// Compares the elements of a list.
fn has(rt: &impl Abort, list: &SpareList<u8>, elements: &[u8]) {
    assert_eq!(rt; list.as_slice(), elements);
    assert_eq!(rt; list.len(), elements.len());
}

/// Elements come out and go in near the front and near the end. A removed element leaves a spare place, which an inserted one takes.
#[test]
fn edits_at_both_ends(rt: HostRuntime) -> Result<(), Fail> {
    let mut list = SpareList::new([0u8, 1, 2, 3, 4, 5, 6, 7].to_vec(rt.alloc())?);
    has(&rt, &list, &[0, 1, 2, 3, 4, 5, 6, 7]);
    assert_eq!(rt; list.remove(1, 90), 1);
    has(&rt, &list, &[0, 2, 3, 4, 5, 6, 7]);
    assert_eq!(rt; list.remove(5, 91), 6);
    has(&rt, &list, &[0, 2, 3, 4, 5, 7]);
    assert_eq!(rt; list.set(2, 8), 3);
    has(&rt, &list, &[0, 2, 8, 4, 5, 7]);
    list.insert(1, 9)?;
    has(&rt, &list, &[0, 9, 2, 8, 4, 5, 7]);
    list.insert(0, 10)?;
    has(&rt, &list, &[10, 0, 9, 2, 8, 4, 5, 7]);
    list.insert(8, 11)?;
    has(&rt, &list, &[10, 0, 9, 2, 8, 4, 5, 7, 11]);
    assert_eq!(rt; list.remove(0, 92), 10);
    assert_eq!(rt;
        list.into_vec().as_slice(),
        [0, 9, 2, 8, 4, 5, 7, 11].as_slice()
    );
    Ok(())
}
