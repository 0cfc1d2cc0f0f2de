//! Tables of nodes: a store, and a tail over a store of 18 nodes.
ghost use Rattle.std.specs.Prelude.{◌≡◌};
ghost use Rattle.terms.specs.Rules.{const_node};

use crate::playing::first_wrong;
use std::test::Fail;
use term_store::{Interner, Store, Tail};
use terms::{Node, NodeKind, Nodes};

fn constant(v: u64) -> Node
    ensures { result ≡ const_node v }
{
    Node {
        kind: NodeKind::Const(v),
        low: v,
        high: v,
    }
}

// The registers at the start, and two input words.
const BASE: &str = "\
start 0 -> 0 start 0 | 0 ffffffffffffffff
start 1 -> 1 start 1 | 0 ffffffffffffffff
start 2 -> 2 start 2 | 0 ffffffffffffffff
start 3 -> 3 start 3 | 0 ffffffffffffffff
start 4 -> 4 start 4 | 0 ffffffffffffffff
start 5 -> 5 start 5 | 0 ffffffffffffffff
start 6 -> 6 start 6 | 0 ffffffffffffffff
start 7 -> 7 start 7 | 0 ffffffffffffffff
start 8 -> 8 start 8 | 0 ffffffffffffffff
start 9 -> 9 start 9 | 0 ffffffffffffffff
start 10 -> 10 start 10 | 0 ffffffffffffffff
start 11 -> 11 start 11 | 0 ffffffffffffffff
start 12 -> 12 start 12 | 0 ffffffffffffffff
start 13 -> 13 start 13 | 0 ffffffffffffffff
start 14 -> 14 start 14 | 0 ffffffffffffffff
start 15 -> 15 start 15 | 0 ffffffffffffffff
in 0 0 | 0 ffffffffffffffff -> 16 in 0 0 | 0 ffffffffffffffff
in 0 1 | 0 ff -> 17 in 0 1 | 0 ff";

// Over the base: its own nodes are found in it, and new nodes go behind them.
const BEHIND: &str = "\
in 0 1 | 0 ff -> 17 in 0 1 | 0 ff
start 3 -> 3 start 3 | 0 ffffffffffffffff
lin 5 1*17 -> 18 sum 5 1*17 | 5 104
lin 1 1*18 -> 19 sum 6 1*17 | 6 105
lin 5 1*17 -> 18
lin fffffffffffffffb 1*18 -> 17";

const ANEW: &str = "\
const 9 -> 18 const 9 | 9 9
lin 5 1*17 -> 19 sum 5 1*17 | 5 104
in 0 1 | 0 ff -> 17 in 0 1 | 0 ff";

#[test]
fn a_node_is_interned_once(rt: HostRuntime) -> Result<(), Fail> {
    let mut store = Store::new(rt.alloc());
    for (v, number) in [(7, 0), (5, 1), (7, 0)] {
        assert!(rt; store.count() < u32::MAX);
        assert_eq!(rt; store.intern(constant(v))?, number);
    }
    assert_eq!(rt; store.count(), 2);
    assert_eq!(rt; store.find(&constant(5)), Some(1));
    assert_eq!(rt; store.find(&constant(6)), None);
    Ok(())
}

#[test]
fn a_form_is_made_once(rt: HostRuntime) -> Result<(), Fail> {
    let mut store = Store::new(rt.alloc());
    let rows = "const 7 -> 0 const 7 | 7 7\nconst 5 -> 1 const 5 | 5 5\nconst 7 -> 0";
    assert_eq!(rt; first_wrong(rt.alloc(), &mut store, rows), None);
    assert_eq!(rt; store.count(), 2);
    Ok(())
}

#[test]
fn a_tail_goes_on_behind_its_base(rt: HostRuntime) -> Result<(), Fail> {
    let mut store = Store::new(rt.alloc());
    assert_eq!(rt; first_wrong(rt.alloc(), &mut store, BASE), None);
    let mut tail = Tail::new(rt.alloc(), &store);
    assert_eq!(rt; (tail.count(), tail.own()), (18, 0));
    assert_eq!(rt; first_wrong(rt.alloc(), &mut tail, BEHIND), None);
    assert_eq!(rt; (tail.count(), tail.own()), (20, 2));
    tail.clear();
    assert_eq!(rt; (tail.count(), tail.own()), (18, 0));
    assert_eq!(rt; first_wrong(rt.alloc(), &mut tail, ANEW), None);
    assert_eq!(rt; (tail.count(), tail.own(), store.count()), (20, 2, 18));
    Ok(())
}

#[test]
fn a_tail_finds_nodes_of_both_parts(rt: HostRuntime) -> Result<(), Fail> {
    let mut store = Store::new(rt.alloc());
    for v in [7, 5] {
        assert!(rt; store.count() < u32::MAX);
        store.intern(constant(v))?;
    }
    let mut tail = Tail::new(rt.alloc(), &store);
    for (v, number) in [(5, 1), (9, 2), (7, 0), (9, 2)] {
        assert!(rt; tail.count() < u32::MAX);
        assert_eq!(rt; tail.intern(constant(v))?, number);
    }
    assert_eq!(rt; tail.find(&constant(9)), Some(2));
    assert_eq!(rt; tail.find(&constant(5)), Some(1));
    assert_eq!(rt; tail.find(&constant(6)), None);
    Ok(())
}
