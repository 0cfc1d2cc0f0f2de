ghost use Rattle.std.specs.Prelude.{◌≡◌, ◌+◌, ◌-◌, ◌*◌, ◌/◌, ◌%◌, ◌^◌, ◌<◌, ◌++◌, ◌∷◌, option_to_list, slice_index};
ghost use Rattle.std.specs.Prelude.{OnOk, OnErr};
ghost use Rattle.std.specs.Io.{StartsWith};
ghost use Rattle.word_operations.specs.Operations as spec;

use crate::kind::Kind;
use std::alloc::AllocError;

fn low_word(number: u128) -> u64
    ensures { result ≡ number % 2 ^ 64 }
{
    (number % (1 << 64)) as u64
}

fn high_word(number: u128) -> u64
    ensures { result ≡ number / 2 ^ 64 }
{
    (number >> 64) as u64
}

#[tactic(auto, using(crate::proofs::WordLemmas::shifted_out))]
fn shifted_left(word: u64, count: u8) -> u64
    ensures { result ≡ (word * 2 ^ count) % 2 ^ 64 }
{
    if count < 64 { word << count } else { 0 }
}

#[tactic(auto, using(crate::proofs::WordLemmas::nothing_left))]
fn shifted_right(word: u64, count: u8) -> u64
    ensures { result ≡ word / 2 ^ count }
{
    if count < 64 { word >> count } else { 0 }
}

/// The low word of two words as one number, shifted right.
#[tactic(auto, using(crate::proofs::WordLemmas::shrd_fits))]
fn shifted_double(low: u64, high: u64, count: u8) -> u64
    ensures { result ≡ low / 2 ^ count + (high * 2 ^ (64 - count)) % 2 ^ 64 }
{
    let left = 64_u8.saturating_sub(count);
    shifted_right(low, count) + shifted_left(high, left)
}

/// The first result of an operation on these operands.
fn first_result(kind: Kind, a: u64, b: u64, c: u64) -> u64
    ensures { result ≡ slice_index (spec.results_on kind a b c) 0 }
{
    match kind {
        Kind::AddCarry => low_word(a as u128 + b as u128 + c as u128),
        Kind::SubBorrow => low_word(b as u128 + (2 << 64) - (c as u128 + a as u128)),
        Kind::MulX | Kind::Mul => low_word(a as u128 * b as u128),
        Kind::CMov => { if a == 0 { b } else { c } }
        Kind::Add => low_word(a as u128 + b as u128),
        Kind::Sub => low_word(a as u128 + (1 << 64) - b as u128),
        Kind::And => a & b,
        Kind::Or => a | b,
        Kind::Xor => a ^ b,
        Kind::Not => u64::MAX - a,
        Kind::Copy => a,
        Kind::Shl(count) => shifted_left(a, count),
        Kind::Shr(count) => shifted_right(a, count),
        Kind::Shrd(count) => shifted_double(a, b, count),
    }
}

/// The second result of an operation on these operands, where it has one.
fn second_result(kind: Kind, a: u64, b: u64, c: u64) -> Option<u64>
    ensures { spec.results_on kind a b c ≡ slice_index (spec.results_on kind a b c) 0 ∷ option_to_list result }
{
    match kind {
        Kind::AddCarry => Some(high_word(a as u128 + b as u128 + c as u128)),
        Kind::SubBorrow => Some(if (b as u128) < c as u128 + a as u128 {
            1
        } else {
            0
        }),
        Kind::MulX => Some(high_word(a as u128 * b as u128)),
        _ => None,
    }
}

/// Puts the results of an operation on these operands at the end of a vector. The one error is want of memory, after
/// which the vector still begins with what it had.
pub fn push_results(
    values: &mut Vec<u64>,
    kind: Kind,
    a: u64,
    b: u64,
    c: u64,
) -> Result<(), AllocError>
    ensures ok { OnOk result (values.new.items ≡ values.old.items ++ spec.results_on kind a b c) }
    ensures err { OnErr result (StartsWith values.new.items values.old.items) }
{
    values.push(first_result(kind, a, b, c))?;
    if let Some(second) = second_result(kind, a, b, c) {
        values.push(second)?;
    }
    Ok(())
}
