ghost use Rattle.std.specs.Prelude.{◌≡◌, ◌≤◌, ◌+◌, ◌-◌, ◌*◌, ◌/◌, ◌^◌, ◌++◌, [], ◌∷◌, nat_lt, nat_le, min, max, OnOk};
ghost use Rattle.std.specs.Prelude.{if◌then◌else◌};
ghost use Rattle.word_program.specs.Accepted.{HasShift};
ghost use Rattle.bounds.specs.Intervals.{intervals_on};
ghost use Rattle.intervals.specs.Intervals.{window, floors, fitting};

use intervals::{Interval, WORDS};
use std::alloc::AllocError;
use word_program::Kind;

/// Of `a + b + c`: the sum modulo 2^64.
fn sum(a: Interval, b: Interval, c: Interval) -> Interval
    ensures { result ≡ window (a.low + b.low + c.low) (a.high + b.high + c.high) }
{
    intervals::window(
        intervals::sum(a.low, b.low, c.low),
        intervals::sum(a.high, b.high, c.high),
    )
}

/// Of `a + b + c`: the carry.
fn carry(a: Interval, b: Interval, c: Interval) -> Interval
    ensures { result ≡ floors (a.low + b.low + c.low) (a.high + b.high + c.high) }
{
    intervals::floors(
        intervals::sum(a.low, b.low, c.low),
        intervals::sum(a.high, b.high, c.high),
    )
}

/// Of `a - b - c`: the difference modulo 2^64.
fn difference(a: Interval, b: Interval, c: Interval) -> Interval
    ensures { result ≡ window (a.low + 2 * 2 ^ 64 - (b.high + c.high)) (a.high + 2 * 2 ^ 64 - (b.low + c.low)) }
{
    intervals::window(
        intervals::difference(a.low, b.high, c.high),
        intervals::difference(a.high, b.low, c.low),
    )
}

/// Of `a - b - c`: the borrow.
fn borrow(a: Interval, b: Interval, c: Interval) -> Interval
    ensures { result ≡ record {
      low = (if nat_lt a.high (b.low + c.low) then 1 else 0);
      high = (if nat_le (b.high + c.high) a.low then 0 else 1);
    } }
{
    let always = (a.high as u128) < b.low as u128 + c.low as u128;
    let never = b.high as u128 + c.high as u128 <= a.low as u128;
    Interval {
        low: if always { 1 } else { 0 },
        high: if never { 0 } else { 1 },
    }
}

/// Of `a + b` modulo 2^64.
fn word_sum(a: Interval, b: Interval) -> Interval
    ensures { result ≡ window (a.low + b.low) (a.high + b.high) }
{
    intervals::window(
        a.low as u128 + b.low as u128,
        a.high as u128 + b.high as u128,
    )
}

/// Of `a - b` modulo 2^64.
fn word_difference(a: Interval, b: Interval) -> Interval
    ensures { result ≡ window (a.low + 2 ^ 64 - b.high) (a.high + 2 ^ 64 - b.low) }
{
    intervals::window(
        a.low as u128 + WORDS - b.high as u128,
        a.high as u128 + WORDS - b.low as u128,
    )
}

/// Of a word with zeros behind its binary digits, modulo 2^64.
fn shifted(a: Interval, count: u8) -> Interval
    requires { count ≤ 63 }
    ensures { result ≡ fitting (a.low * 2 ^ count) (a.high * 2 ^ count) }
{
    intervals::fitting(
        intervals::shifted(a.low, count),
        intervals::shifted(a.high, count),
    )
}

fn push_one(list: &mut Vec<Interval>, first: Interval) -> Result<(), AllocError>
    ensures { OnOk result (list.new.items ≡ list.old.items ++ first ∷ []) }
{
    list.push(first)?;
    Ok(())
}

fn push_two(list: &mut Vec<Interval>, first: Interval, second: Interval) -> Result<(), AllocError>
    ensures { OnOk result (list.new.items ≡ list.old.items ++ first ∷ second ∷ []) }
{
    list.push(first)?;
    list.push(second)?;
    Ok(())
}

/// Puts the intervals of an operation's results at the end of the list. A carry, a borrow and a condition
/// come first of the operands.
pub fn push_results(
    list: &mut Vec<Interval>,
    kind: Kind,
    a: Interval,
    b: Interval,
    c: Interval,
) -> Result<(), AllocError>
    requires { HasShift kind }
    ensures { OnOk result (list.new.items ≡ list.old.items ++ intervals_on kind a b c) }
{
    match kind {
        Kind::AddCarry => push_two(list, sum(a, b, c), carry(a, b, c)),
        Kind::SubBorrow => push_two(list, difference(b, c, a), borrow(b, c, a)),
        Kind::MulX => push_two(
            list,
            intervals::product_low(a, b),
            intervals::product_high(a, b),
        ),
        Kind::CMov => push_one(list, intervals::choice(b, c)),
        Kind::Add => push_one(list, word_sum(a, b)),
        Kind::Sub => push_one(list, word_difference(a, b)),
        Kind::Mul => push_one(list, intervals::product_low(a, b)),
        Kind::And => push_one(list, intervals::bits_and(a, b)),
        Kind::Or => push_one(list, intervals::bits_or(a, b)),
        Kind::Xor => push_one(list, intervals::bits_xor(a, b)),
        Kind::Not => push_one(
            list,
            intervals::between(u64::MAX - a.high, u64::MAX - a.low),
        ),
        Kind::Copy => push_one(list, a),
        Kind::Shl(count) => push_one(list, shifted(a, count)),
        Kind::Shr(count) => push_one(list, intervals::shifted_right(a, count)),
        Kind::Shrd(_) => push_one(list, intervals::full()),
    }
}
