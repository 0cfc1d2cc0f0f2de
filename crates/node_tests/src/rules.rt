//! The rules of the forms that are no sums, a table for each family.
use crate::playing::first_wrong;
use std::test::Fail;
use term_store::{Store, Tail};

const CARRIES: &str = "\
in 0 0 | 0 ffffffffffffffff -> 0 in 0 0 | 0 ffffffffffffffff
in 0 1 | 0 ffffffffffffffff -> 1 in 0 1 | 0 ffffffffffffffff
in 0 2 | 0 1 -> 2 in 0 2 | 0 1
in 0 3 | 8000000000000000 ffffffffffffffff -> 3 in 0 3 | 8000000000000000 ffffffffffffffff
in 0 4 | 0 7fffffffffffffff -> 4 in 0 4 | 0 7fffffffffffffff
const ffffffffffffffff -> 5 const ffffffffffffffff | ffffffffffffffff ffffffffffffffff
const 0 -> 6 const 0 | 0 0
in 0 7 | 0 8000000000000000 -> 7 in 0 7 | 0 8000000000000000
carry 3 3 -> 8 const 1 | 1 1
carry 8 5 -> 8
carry 4 4 -> 6
carry 4 2 4 -> 6
carry 7 4 -> 6
carry 7 4 2 -> 9 carry 2 4 7 | 0 1
in 0 10 | 7fffffffffffffff 8000000000000000 -> 10 in 0 10 | 7fffffffffffffff 8000000000000000
carry 10 3 -> 11 carry 3 10 | 0 1
carry 10 8 3 -> 8
carry 1 6 0 -> 12 carry 0 1 | 0 1
carry 1 0 -> 12
carry 0 0 -> 13 carry 0 0 | 0 1
carry 5 2 -> 2
carry 6 2 5 -> 2
in 0 14 | 0 1 -> 14 in 0 14 | 0 1
carry 14 5 -> 14
carry 5 0 -> 15 carry 0 5 | 0 1
carry 5 14 2 -> 16 carry 2 5 14 | 0 1
in 0 17 | 0 2 -> 17 in 0 17 | 0 2
carry 5 17 -> 18 carry 5 17 | 0 1";

const BORROWS: &str = "\
in 0 0 | 0 ffffffffffffffff -> 0 in 0 0 | 0 ffffffffffffffff
in 0 1 | 0 ffffffffffffffff -> 1 in 0 1 | 0 ffffffffffffffff
in 0 2 | 0 1 -> 2 in 0 2 | 0 1
in 0 3 | 10 20 -> 3 in 0 3 | 10 20
in 0 4 | 5 8 -> 4 in 0 4 | 5 8
in 0 5 | 8 10 -> 5 in 0 5 | 8 10
const 0 -> 6 const 0 | 0 0
borrow 3 4 -> 6
borrow 3 5 -> 6
borrow 3 4 4 -> 6
borrow 3 5 2 -> 7 borrow 3 2 5 | 0 1
borrow 4 3 -> 8 const 1 | 1 1
borrow 5 4 3 -> 8
borrow 4 5 -> 9 borrow 4 5 | 0 1
borrow 5 3 -> 10 borrow 5 3 | 0 1
borrow 2 4 -> 8
borrow 0 6 -> 6
borrow 0 1 6 -> 11 borrow 0 1 | 0 1
borrow 0 1 -> 11
borrow 1 0 -> 12 borrow 1 0 | 0 1
borrow 6 2 -> 2
borrow 6 6 2 -> 2
borrow 6 0 -> 13 borrow 6 0 | 0 1
borrow 6 2 2 -> 14 borrow 6 2 2 | 0 1
borrow 2 2 -> 15 borrow 2 2 | 0 1";

const TESTS: &str = "\
in 0 0 | 0 ffffffffffffffff -> 0 in 0 0 | 0 ffffffffffffffff
in 0 1 | 1 5 -> 1 in 0 1 | 1 5
const 0 -> 2 const 0 | 0 0
zero 1 -> 2
zero 2 -> 3 const 1 | 1 1
zero 3 -> 2
zero 0 -> 4 zero 0 | 0 1
zero 4 -> 5 zero 4 | 0 1
in 0 6 | 10 20 -> 6 in 0 6 | 10 20
in 0 7 | 18 30 -> 7 in 0 7 | 18 30
select 1 6 7 -> 7
select 3 6 7 -> 7
select 2 6 7 -> 6
select 0 6 6 -> 6
select 4 7 7 -> 7
select 0 6 7 -> 8 select 0 6 7 | 10 30
select 4 6 7 -> 9 select 0 7 6 | 10 30
select 4 7 6 -> 8
select 5 6 7 -> 8
select 6 0 7 -> 7";

const PRODUCTS: &str = "\
in 0 0 | 0 ffffffffffffffff -> 0 in 0 0 | 0 ffffffffffffffff
in 0 1 | 3 5 -> 1 in 0 1 | 3 5
in 0 2 | 10 20 -> 2 in 0 2 | 10 20
const 7 -> 3 const 7 | 7 7
const 0 -> 4 const 0 | 0 0
const 3 -> 5 const 3 | 3 3
mullo 3 2 -> 6 sum 0 7*2 | 70 e0
mullo 2 3 -> 6
mullo 1 3 -> 7 sum 0 7*1 | 15 23
mullo 5 3 -> 8 const 15 | 15 15
mullo 3 6 -> 9 sum 0 31*2 | 310 620
const 1 -> 10 const 1 | 1 1
mullo 2 10 -> 2
mullo 4 0 -> 4
mullo 2 1 -> 11 mullo 1 2 | 30 a0
mullo 1 2 -> 11
mullo 0 2 -> 12 mullo 0 2 | 0 ffffffffffffffff
mulhi 2 0 -> 13 mulhi 0 2 | 0 1f
mulhi 0 2 -> 13
mulhi 2 1 -> 4
mulhi 0 0 -> 14 mulhi 0 0 | 0 fffffffffffffffe
const ffffffffffffffff -> 15 const ffffffffffffffff | ffffffffffffffff ffffffffffffffff
mulhi 15 15 -> 16 const fffffffffffffffe | fffffffffffffffe fffffffffffffffe
mulhi 15 3 -> 17 const 6 | 6 6
mulhi 10 0 -> 4";

const BITS: &str = "\
in 0 0 | 0 ffffffffffffffff -> 0 in 0 0 | 0 ffffffffffffffff
in 0 1 | 0 ffffffffffffffff -> 1 in 0 1 | 0 ffffffffffffffff
in 0 2 | 10 20 -> 2 in 0 2 | 10 20
in 0 3 | 1 5 -> 3 in 0 3 | 1 5
const 0 -> 4 const 0 | 0 0
const ff -> 5 const ff | ff ff
const 3f -> 6 const 3f | 3f 3f
const 1f -> 7 const 1f | 1f 1f
const f0 -> 8 const f0 | f0 f0
in 0 9 | 0 3f -> 9 in 0 9 | 0 3f
const ffffffffffffffff -> 10 const ffffffffffffffff | ffffffffffffffff ffffffffffffffff
and 2 2 -> 2
and 0 4 -> 4
and 9 4 -> 4
and 2 6 -> 2
and 6 9 -> 9
and 9 5 -> 9
and 10 0 -> 0
and 2 7 -> 11 and 2 7 | 0 1f
and 8 2 -> 12 and 2 8 | 0 20
and 8 6 -> 13 const 30 | 30 30
and 8 5 -> 8
and 1 0 -> 14 and 0 1 | 0 ffffffffffffffff
or 2 2 -> 2
or 0 4 -> 0
or 9 4 -> 9
or 7 13 -> 6
or 3 2 -> 15 or 2 3 | 10 3f
or 2 10 -> 10
xor 2 2 -> 4
xor 0 4 -> 0
xor 9 4 -> 9
xor 8 5 -> 16 const f | f f
xor 3 2 -> 17 xor 2 3 | 0 3f";

/// The forms whose own node is always made, and nodes whose interval is one word.
const OTHERS: &str = "\
start 15 -> 0 start 15 | 0 ffffffffffffffff
start 0 -> 1 start 0 | 0 ffffffffffffffff
start 15 -> 0
in 2 1 | 10 20 -> 2 in 2 1 | 10 20
in 2 0 | 7 7 -> 3 const 7 | 7 7
const 7 -> 3
shr 2 4 -> 4 shr 2 4 | 1 2
shr 2 5 -> 5 shr 2 5 | 0 1
shr 2 6 -> 6 const 0 | 0 0
shr 1 63 -> 7 shr 1 63 | 0 1
shr 3 1 -> 8 const 3 | 3 3
setb 1 2 -> 9 setb 1 2 | 0 ffffffffffffffff
setb 2 1 -> 10 setb 2 1 | 0 ffffffffffffffff
setb 3 3 -> 11 setb 3 3 | 0 ffffffffffffffff";

#[test]
fn each_rule_makes_its_node(rt: HostRuntime) -> Result<(), Fail> {
    for rows in [CARRIES, BORROWS, TESTS, PRODUCTS, BITS, OTHERS] {
        let mut store = Store::new(rt.alloc());
        assert_eq!(rt; first_wrong(rt.alloc(), &mut store, rows), None);
    }
    Ok(())
}

#[test]
fn a_tail_makes_the_same_nodes(rt: HostRuntime) -> Result<(), Fail> {
    let base = Store::new(rt.alloc());
    for rows in [CARRIES, BORROWS, TESTS, PRODUCTS, BITS, OTHERS] {
        let mut tail = Tail::new(rt.alloc(), &base);
        assert_eq!(rt; first_wrong(rt.alloc(), &mut tail, rows), None);
    }
    Ok(())
}
