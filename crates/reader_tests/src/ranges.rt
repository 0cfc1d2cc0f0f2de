//! The intervals of each operation's results, by hand.
use crate::reading::read;
use bounds::intervals;
use std::alloc::{AllocError, Global};
use std::test::Fail;

/// An operation of `c`, `a` and `b`, its results `x` and `y`, its arguments, the upper bound of `c`, the bounds
/// of `a` and `b`, and the intervals of the results.
struct Row(
    &'static str,
    &'static str,
    &'static str,
    u64,
    (u64, u64),
    (u64, u64),
    &'static [(u64, u64)],
);

const MAX: u64 = 18_446_744_073_709_551_615;

const ONE: &str = r#""x""#;

const TWO: &str = r#""x","y""#;

const AB: &str = r#""a","b""#;

const CAB: &str = r#""c","a","b""#;

const A3: &str = r#""a","3""#;

const ROWS: &[Row] = &[
    Row(
        "addcarryx",
        TWO,
        CAB,
        0,
        (0, 9_223_372_036_854_775_807),
        (0, 9_223_372_036_854_775_807),
        &[(0, 18_446_744_073_709_551_614), (0, 0)],
    ),
    Row("addcarryx", TWO, CAB, 1, (1, 2), (3, 4), &[(4, 7), (0, 0)]),
    Row(
        "addcarryx",
        TWO,
        CAB,
        1,
        (MAX, MAX),
        (1, 5),
        &[(0, 5), (1, 1)],
    ),
    Row(
        "addcarryx",
        TWO,
        CAB,
        0,
        (0, MAX),
        (0, 1),
        &[(0, MAX), (0, 1)],
    ),
    Row(
        "subborrowx",
        TWO,
        CAB,
        1,
        (10, 20),
        (1, 3),
        &[(6, 19), (0, 0)],
    ),
    Row(
        "subborrowx",
        TWO,
        CAB,
        1,
        (0, 5),
        (10, 12),
        &[
            (18_446_744_073_709_551_603, 18_446_744_073_709_551_611),
            (1, 1),
        ],
    ),
    Row(
        "subborrowx",
        TWO,
        CAB,
        0,
        (0, 5),
        (3, 4),
        &[(0, MAX), (0, 1)],
    ),
    Row("mulx", TWO, AB, 1, (2, 3), (5, 7), &[(10, 21), (0, 0)]),
    Row(
        "mulx",
        TWO,
        AB,
        1,
        (4_294_967_296, 8_589_934_592),
        (4_294_967_296, 4_294_967_296),
        &[(0, MAX), (1, 2)],
    ),
    Row("cmovznz", ONE, CAB, 1, (5, 9), (1, 7), &[(1, 9)]),
    Row("+", ONE, AB, 1, (1, 2), (3, 4), &[(4, 6)]),
    Row(
        "-",
        ONE,
        AB,
        1,
        (1, 2),
        (3, 4),
        &[(18_446_744_073_709_551_613, MAX)],
    ),
    Row("*", ONE, AB, 1, (2, 3), (5, 7), &[(10, 21)]),
    Row("&", ONE, AB, 1, (5, 9), (1, 7), &[(0, 7)]),
    Row("|", ONE, AB, 1, (5, 9), (1, 7), &[(5, 15)]),
    Row("^", ONE, AB, 1, (5, 9), (1, 7), &[(0, 15)]),
    Row("^", ONE, AB, 1, (0, 0), (0, 0), &[(0, 0)]),
    Row("|", ONE, AB, 1, (0, MAX), (3, 7), &[(3, MAX)]),
    Row(
        "~",
        ONE,
        r#""a""#,
        1,
        (5, 9),
        (1, 7),
        &[(18_446_744_073_709_551_606, 18_446_744_073_709_551_610)],
    ),
    Row("=", ONE, r#""a""#, 1, (5, 9), (1, 7), &[(5, 9)]),
    Row("+", ONE, r#""a","0x10""#, 1, (5, 9), (1, 7), &[(21, 25)]),
    Row("<<", ONE, A3, 1, (5, 9), (1, 7), &[(40, 72)]),
    Row(
        "<<",
        ONE,
        A3,
        1,
        (0, 2_305_843_009_213_693_952),
        (1, 7),
        &[(0, MAX)],
    ),
    Row(">>", ONE, A3, 1, (15, 25), (1, 7), &[(1, 3)]),
    Row(
        "shrd",
        ONE,
        r#""a","b","1""#,
        1,
        (5, 9),
        (1, 7),
        &[(0, MAX)],
    ),
];

fn param(alloc: Global, name: &str, (low, high): (u64, u64)) -> Result<String, AllocError> {
    format!(in alloc;
        "{{\"name\":\"{name}\",\"datatype\":\"u64\",\"lbound\":\"{low}\",\"ubound\":\"{high}\"}}"
    )
}

fn document(alloc: Global, row: &Row) -> Result<String, AllocError> {
    let c = param(alloc, "c", (0, row.3))?;
    let a = param(alloc, "a", row.4)?;
    let b = param(alloc, "b", row.5)?;
    let (operation, results, arguments) = (row.0, row.1, row.2);
    let first = format!(in alloc;
        "{{\"operation\":\"{operation}\",\"name\":[{results}],\"arguments\":[{arguments}]}}"
    )?;
    let head = "{\"operation\":\"f\",\"returns\":[{\"name\":\"out1\",\"datatype\":\"u64[1]\"}]";
    let last = "{\"operation\":\"=\",\"name\":[\"out1[0]\"],\"arguments\":[\"x\"]}";
    format!(in alloc; "{head},\"arguments\":[{c},{a},{b}],\"body\":[{first},{last}]}}")
}

#[test]
fn results_lie_between(rt: HostRuntime) -> Result<(), Fail> {
    for row in ROWS {
        let text = document(rt.alloc(), row)?;
        let program = read(rt.alloc(), text.as_bytes())?;
        let list = intervals(rt.alloc(), &program)?;
        let operation = row.0;
        assert_eq!(rt; list.len(), row.6.len() + 1, "{operation}");
        for (interval, (low, high)) in list.iter().zip(row.6) {
            assert_eq!(rt; (interval.low, interval.high), (*low, *high), "{operation}");
        }
    }
    Ok(())
}
