ghost use Rattle.std.specs.Prelude.{◌≡◌, ◌≤◌};
ghost use Rattle.intervals.specs.Intervals as spec;

use crate::interval;
use crate::interval::Interval;

/// Of `a * b`: the low word.
pub fn product_low(a: Interval, b: Interval) -> Interval
    ensures { result ≡ spec.product_low a b }
{
    interval::fitting(
        interval::product(a.low, b.low),
        interval::product(a.high, b.high),
    )
}

/// Of `a * b`: the high word.
pub fn product_high(a: Interval, b: Interval) -> Interval
    ensures { result ≡ spec.product_high a b }
{
    interval::floors(
        interval::product(a.low, b.low),
        interval::product(a.high, b.high),
    )
}

/// Of the bits that both words have.
pub fn bits_and(a: Interval, b: Interval) -> Interval
    ensures { result ≡ spec.bits_and a b }
{
    interval::between(0, a.high.min(b.high))
}

/// Of the bits that either word has.
pub fn bits_or(a: Interval, b: Interval) -> Interval
    ensures { result ≡ spec.bits_or a b }
{
    interval::between(a.low.max(b.low), interval::ones(a.high.max(b.high)))
}

/// Of the bits that one of the two words has.
pub fn bits_xor(a: Interval, b: Interval) -> Interval
    ensures { result ≡ spec.bits_xor a b }
{
    interval::between(0, interval::ones(a.high.max(b.high)))
}

/// Of a word shifted to the right by at most 63 bits.
pub fn shifted_right(a: Interval, count: u8) -> Interval
    requires { count ≤ 63 }
    ensures { result ≡ spec.shifted_right a count }
{
    interval::between(a.low >> count, a.high >> count)
}

/// Of two words of which one is taken.
pub fn choice(a: Interval, b: Interval) -> Interval
    ensures { result ≡ spec.choice a b }
{
    interval::between(a.low.min(b.low), a.high.max(b.high))
}
