ghost use Rattle.std.specs.Prelude.{◌≡◌, ◌<◌, ◌≤◌, IfSome};
ghost use Rattle.word_text.specs.Numbers as spec;

use crate::names;
use base::{MAX_ARRAY_WORDS, numeral};

/// The index that digits write, where it is below the bound.
#[tactic(auto, unfolding(crate::specs::Numbers::index_below))]
pub fn index_below(digits: &str, bound: usize) -> Option<usize>
    ensures value { result ≡ spec.index_below digits.now bound }
    ensures within { IfSome result (λ n. n < bound) }
{
    let number = numeral(digits.as_bytes(), 10)? as usize;
    if number < bound { Some(number) } else { None }
}

/// n, where the text is `u64[n]` with n from 1 to 32.
#[tactic(auto, unfolding(crate::specs::Numbers::array_words))]
pub fn array_words(text: &str) -> Option<u8>
    ensures value { result ≡ spec.array_words text.now }
    ensures within { IfSome result (λ n. n ≤ MAX_ARRAY_WORDS) }
{
    let (name, index) = names::bracketed(text)?;
    let number = index_below(index, MAX_ARRAY_WORDS + 1)?;
    if name == "u64" && names::is_index(index) && 1 <= number {
        Some(number as u8)
    } else {
        None
    }
}
