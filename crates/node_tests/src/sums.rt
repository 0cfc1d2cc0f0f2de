//! Sums of terms, and their intervals.
use crate::playing::first_wrong;
use std::test::Fail;
use term_store::Store;

/// Constants are added up, sums are opened, equal nodes are joined.
const SUMS: &str = "\
in 0 0 | 0 ffffffffffffffff -> 0 in 0 0 | 0 ffffffffffffffff
in 0 1 | 0 ff -> 1 in 0 1 | 0 ff
in 0 2 | 10 20 -> 2 in 0 2 | 10 20
const 5 -> 3 const 5 | 5 5
lin 3 2*3 -> 4 const d | d d
lin ffffffffffffffff 1*3 -> 5 const 4 | 4 4
lin 1 ffffffffffffffff*3 -> 6 const fffffffffffffffc | fffffffffffffffc fffffffffffffffc
lin 0 -> 7 const 0 | 0 0
lin 9 0*1 -> 8 const 9 | 9 9
lin 0 1*1 -> 1
lin 5 1*1 -> 9 sum 5 1*1 | 5 104
lin 0 1*3 1*1 -> 9
lin 1 2*9 3*2 -> 10 sum b 2*1 3*2 | 3b 269
lin 0 3*2 1*1 -> 11 sum 0 1*1 3*2 | 30 15f
lin 0 1*1 3*2 ffffffffffffffff*1 -> 12 sum 0 3*2 | 30 60
lin 0 2*2 1*2 -> 12
lin 0 ffffffffffffffff*0 1*0 -> 7
lin 0 8000000000000000*0 8000000000000000*0 -> 7
lin 0 1*9 ffffffffffffffff*1 -> 3
lin fffffffffffffffb 1*9 -> 1
lin 0 2*1 -> 13 sum 0 2*1 | 0 1fe
lin 0 2*1 ffffffffffffffff*1 -> 1
lin 0 8000000000000000*13 -> 7";

/// What a sum lies in. Multipliers are read as signed numbers.
const INTERVALS: &str = "\
in 0 0 | 0 ffffffffffffffff -> 0 in 0 0 | 0 ffffffffffffffff
in 0 1 | 0 ff -> 1 in 0 1 | 0 ff
in 0 2 | 10 20 -> 2 in 0 2 | 10 20
in 0 3 | 0 1 -> 3 in 0 3 | 0 1
in 0 4 | fffffffffffffffe ffffffffffffffff -> 4 in 0 4 | fffffffffffffffe ffffffffffffffff
in 0 5 | 7fffffffffffffff 8000000000000000 -> 5 in 0 5 | 7fffffffffffffff 8000000000000000
in 0 6 | 9 3 -> 6 in 0 6 | 9 3
lin 0 ffffffffffffffff*1 -> 7 sum 0 ffffffffffffffff*1 | 0 ffffffffffffffff
lin ff ffffffffffffffff*1 -> 8 sum ff ffffffffffffffff*1 | 0 ff
lin 0 ffffffffffffffff*2 -> 9 sum 0 ffffffffffffffff*2 | ffffffffffffffe0 fffffffffffffff0
lin 100 1*1 fffffffffffffffe*2 -> 10 sum 100 1*1 fffffffffffffffe*2 | c0 1df
lin 0 1*1 ffffffffffffffff*2 -> 11 sum 0 1*1 ffffffffffffffff*2 | 0 ffffffffffffffff
lin 1 1*0 -> 12 sum 1 1*0 | 0 ffffffffffffffff
lin ffffffffffffffff 1*2 -> 13 sum ffffffffffffffff 1*2 | f 1f
lin ffffffffffffff00 1*1 -> 14 sum ffffffffffffff00 1*1 | ffffffffffffff00 ffffffffffffffff
lin ffffffffffffff01 1*1 -> 15 sum ffffffffffffff01 1*1 | 0 ffffffffffffffff
lin 8000000000000000 8000000000000000*3 -> 16 sum 8000000000000000 8000000000000000*3 | 0 8000000000000000
lin 1 7fffffffffffffff*3 -> 17 sum 1 7fffffffffffffff*3 | 1 8000000000000000
lin 0 1000000000*4 -> 18 sum 0 1000000000*4 | ffffffe000000000 fffffff000000000
lin 0 1000000001*4 -> 19 sum 0 1000000001*4 | 0 ffffffffffffffff
lin 0 fffffff000000000*4 -> 20 sum 0 fffffff000000000*4 | 1000000000 2000000000
lin 0 ffffffefffffffff*4 -> 21 sum 0 ffffffefffffffff*4 | 0 ffffffffffffffff
lin 0 1fffffffff*5 -> 22 sum 0 1fffffffff*5 | 7fffffe000000001 8000000000000000
lin 2000000000 2000000000*5 -> 23 sum 2000000000 2000000000*5 | 0 ffffffffffffffff
lin 1 1*6 -> 24 sum 1 1*6 | 0 ffffffffffffffff";

/// More than 16 terms: the list is made again, and no sum in it is opened.
const WIDE: &str = "\
in 0 0 | 0 ff -> 0 in 0 0 | 0 ff
in 0 1 | 0 ff -> 1 in 0 1 | 0 ff
in 0 2 | 0 ff -> 2 in 0 2 | 0 ff
in 0 3 | 0 ff -> 3 in 0 3 | 0 ff
in 0 4 | 0 ff -> 4 in 0 4 | 0 ff
in 0 5 | 0 ff -> 5 in 0 5 | 0 ff
in 0 6 | 0 ff -> 6 in 0 6 | 0 ff
in 0 7 | 0 ff -> 7 in 0 7 | 0 ff
in 0 8 | 0 ff -> 8 in 0 8 | 0 ff
in 0 9 | 0 ff -> 9 in 0 9 | 0 ff
in 0 10 | 0 ff -> 10 in 0 10 | 0 ff
in 0 11 | 0 ff -> 11 in 0 11 | 0 ff
in 0 12 | 0 ff -> 12 in 0 12 | 0 ff
in 0 13 | 0 ff -> 13 in 0 13 | 0 ff
in 0 14 | 0 ff -> 14 in 0 14 | 0 ff
in 0 15 | 0 ff -> 15 in 0 15 | 0 ff
in 0 16 | 0 ff -> 16 in 0 16 | 0 ff
in 0 17 | 0 ff -> 17 in 0 17 | 0 ff
lin 1 1*0 1*1 1*2 1*3 1*4 1*5 1*6 1*7 1*8 -> 18 sum 1 1*0 1*1 1*2 1*3 1*4 1*5 1*6 1*7 1*8 | 1 8f8
lin 2 1*9 1*10 1*11 1*12 1*13 1*14 1*15 1*16 1*17 -> 19 sum 2 1*9 1*10 1*11 1*12 1*13 1*14 1*15 1*16 1*17 | 2 8f9
lin 3 2*18 1*19 -> 20 wide 3 2*18 1*19 | 7 1aec
lin 3 1*18 1*19 1*18 -> 20
const 4 -> 21 const 4 | 4 4
lin 3 1*19 1*18 1*17 1*21 1*18 -> 22 wide 7 1*17 2*18 1*19 | b 1bef
lin 0 1*18 1*9 1*10 1*11 1*12 1*13 1*14 1*15 -> \
23 sum 1 1*0 1*1 1*2 1*3 1*4 1*5 1*6 1*7 1*8 1*9 1*10 1*11 1*12 1*13 1*14 1*15 | 1 ff1
lin 0 1*18 1*9 1*10 1*11 1*12 1*13 1*14 1*15 1*16 -> \
24 wide 0 1*9 1*10 1*11 1*12 1*13 1*14 1*15 1*16 1*18 | 1 10f0
lin 0 ffffffffffffffff*9 1*18 1*19 ffffffffffffffff*10 -> \
25 sum 3 1*0 1*1 1*2 1*3 1*4 1*5 1*6 1*7 1*8 1*11 1*12 1*13 1*14 1*15 1*16 1*17 | 3 ff3
lin 0 1*20 -> 20
lin 5 1*20 -> 26 sum 5 1*20 | c 1af1
lin 0 1*20 1*0 -> 27 sum 0 1*0 1*20 | 7 1beb
lin 1 2*26 -> 28 sum b 2*20 | 19 35e3";

#[test]
fn sums_are_joined(rt: HostRuntime) -> Result<(), Fail> {
    let mut store = Store::new(rt.alloc());
    assert_eq!(rt; first_wrong(rt.alloc(), &mut store, SUMS), None);
    Ok(())
}

#[test]
fn sums_have_the_windows_of_their_terms(rt: HostRuntime) -> Result<(), Fail> {
    let mut store = Store::new(rt.alloc());
    assert_eq!(rt; first_wrong(rt.alloc(), &mut store, INTERVALS), None);
    Ok(())
}

#[test]
fn sums_of_more_than_16_terms_are_wide(rt: HostRuntime) -> Result<(), Fail> {
    let mut store = Store::new(rt.alloc());
    assert_eq!(rt; first_wrong(rt.alloc(), &mut store, WIDE), None);
    Ok(())
}
