use crate::{GroupedOrder, IndexLists};
use std::test::Fail;

/// Three lists over five numbers: pushed, then one taken from the middle, one from the front, one from the end.
#[test]
fn pushed_taken_out_and_walked(rt: HostRuntime) -> Result<(), Fail> {
    let mut lists = IndexLists::new(rt.alloc(), 3, 5)?;
    lists.push_back(1, 4);
    lists.push_back(1, 0);
    lists.push_back(1, 2);
    lists.push_back(2, 3);
    assert_eq!(rt; lists.first(0), None);
    assert_eq!(rt; lists.last(0), None);
    assert_eq!(rt; lists.first(1), Some(4));
    assert_eq!(rt; lists.next(4), Some(0));
    assert_eq!(rt; lists.next(0), Some(2));
    assert_eq!(rt; lists.next(2), None);
    lists.remove(0);
    assert_eq!(rt; lists.next(4), Some(2));
    assert_eq!(rt; lists.last(1), Some(2));
    lists.remove(4);
    assert_eq!(rt; lists.first(1), Some(2));
    lists.push_back(1, 0);
    lists.remove(0);
    assert_eq!(rt; lists.last(1), Some(2));
    lists.push_front(1, 4);
    lists.insert_behind(4, 1);
    assert_eq!(rt; lists.first(1), Some(4));
    assert_eq!(rt; lists.next(4), Some(1));
    assert_eq!(rt; lists.next(1), Some(2));
    lists.remove(1);
    lists.remove(4);
    lists.remove(2);
    assert_eq!(rt; lists.first(1), None);
    assert_eq!(rt; lists.first(2), Some(3));
    Ok(())
}

/// Members of two groups that are marked out of turn: the first marked of a group is the oldest, whichever came last.
#[test]
fn marked_in_their_places(rt: HostRuntime) -> Result<(), Fail> {
    let mut order = GroupedOrder::new(rt.alloc(), 2, 4)?;
    order.push_back(0, 0, false);
    order.push_back(1, 1, false);
    order.push_back(0, 2, false);
    order.push_back(0, 3, false);
    assert_eq!(rt; order.first_marked(0), None);
    order.mark(3);
    assert_eq!(rt; order.first_marked(0), Some(3));
    order.mark(0);
    order.mark(2);
    assert_eq!(rt; order.first_marked(0), Some(0));
    assert_eq!(rt; order.first_marked(1), None);
    order.unmark(0);
    assert_eq!(rt; order.first_marked(0), Some(2));
    Ok(())
}

/// Members of two groups taken out and put in again: the firsts, what stands behind them, and which of two stands first.
#[test]
fn firsts_of_groups(rt: HostRuntime) -> Result<(), Fail> {
    let mut order = GroupedOrder::new(rt.alloc(), 2, 3)?;
    order.push_back(1, 2, true);
    order.push_back(0, 0, true);
    order.push_back(1, 1, true);
    assert_eq!(rt; order.first(), Some(2));
    assert_eq!(rt; order.next(0), Some(1));
    assert_eq!(rt; order.first_of(0), Some(0));
    assert_eq!(rt; order.first_of(1), Some(2));
    assert_eq!(rt; order.first_of(7), None);
    assert_eq!(rt; order.first_marked_but(1, 2), Some(1));
    assert_eq!(rt; order.first_marked_but(1, 1), Some(2));
    assert_eq!(rt; order.older(Some(0), Some(2)), Some(2));
    order.remove(2);
    order.push_back(1, 2, false);
    order.whole();
    assert_eq!(rt; order.first_of(1), Some(1));
    assert_eq!(rt; order.older(Some(0), Some(2)), Some(0));
    assert_eq!(rt; order.older(None, Some(2)), Some(2));
    Ok(())
}
