ghost use Rattle.std.specs.Prelude.{◌≡◌, ◌≤◌, ◌+◌, ◌-◌, ◌*◌, ◌^◌};
ghost use Rattle.intervals.specs.Intervals.{full, window, floors, fitting, ones};

/// The words between two words, both of which are among them.
#[derive(Clone, Copy, Debug, PartialEq, Eq)]
pub struct Interval {
    pub low: u64,
    pub high: u64,
}

/// 2^64.
pub const WORDS: u128 = 1 << 64;

/// Every word.
pub fn full() -> Interval
    ensures { result ≡ full }
{
    Interval {
        low: 0,
        high: u64::MAX,
    }
}

/// The words from `low` to `high`.
pub fn between(low: u64, high: u64) -> Interval
    ensures { result ≡ record { low = low; high = high } }
{
    Interval { low, high }
}

/// The numbers from `low` to `high` modulo 2^64, where no multiple of 2^64 parts them, and else every word.
pub fn window(low: u128, high: u128) -> Interval
    ensures { result ≡ window low high }
{
    if low / WORDS != high / WORDS {
        return full();
    }
    Interval {
        low: (low % WORDS) as u64,
        high: (high % WORDS) as u64,
    }
}

/// The floors of the numbers from `low` to `high` divided by 2^64.
pub fn floors(low: u128, high: u128) -> Interval
    ensures { result ≡ floors low high }
{
    Interval {
        low: (low / WORDS) as u64,
        high: (high / WORDS) as u64,
    }
}

/// The numbers from `low` to `high`, where both are words, and else every word.
pub fn fitting(low: u128, high: u128) -> Interval
    ensures { result ≡ fitting low high }
{
    if WORDS <= low {
        return full();
    }
    if WORDS <= high {
        return full();
    }
    Interval {
        low: low as u64,
        high: high as u64,
    }
}

/// The least number of ones in binary that is at least the word.
#[tactic(auto, using(crate::proofs::RowLemmas::power_of, crate::proofs::RowLemmas::leading_within))]
pub fn ones(word: u64) -> u64
    ensures { result ≡ ones word }
{
    let digits = 64 - word.leading_zeros();
    ((1u128 << digits) - 1) as u64
}

/// The sum of three words.
pub fn sum(a: u64, b: u64, c: u64) -> u128
    ensures { result ≡ a + b + c }
{
    a as u128 + b as u128 + c as u128
}

/// `a - b - c`, and twice 2^64 more.
pub fn difference(a: u64, b: u64, c: u64) -> u128
    ensures { result ≡ a + 2 * 2 ^ 64 - (b + c) }
{
    a as u128 + 2 * WORDS - (b as u128 + c as u128)
}

/// A word with zeros behind its binary digits.
#[tactic(auto, using(crate::proofs::RowLemmas::power_of, crate::proofs::RowLemmas::shifted_fits))]
pub fn shifted(a: u64, count: u8) -> u128
    requires { count ≤ 63 }
    ensures { result ≡ a * 2 ^ count }
{
    a as u128 * (1u128 << count)
}

/// The product of two words.
#[tactic(auto, using(crate::proofs::RowLemmas::product_fits))]
pub fn product(a: u64, b: u64) -> u128
    ensures { result ≡ a * b }
{
    a as u128 * b as u128
}
