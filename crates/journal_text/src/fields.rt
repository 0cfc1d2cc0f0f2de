ghost use Rattle.std.specs.Prelude.{◌≡◌, ◌<◌, ◌≤◌, ◌==◌, length, option_map, IfSome};
ghost use Rattle.std.specs.List.{position_or_len, slice_split};
ghost use Rattle.journal_text.specs.Fields as spec;
ghost use Rattle.journal_text.specs.Lines.{full_lines, is_byte};

use base::numeral;
use hex::FromHex;
use itoa::Buffer;

/// A text in two parts.
#[derive(Clone, Copy)]
pub struct Cut<'a> {
    pub first: &'a [u8],
    pub rest: &'a [u8],
}

/// What stands behind a front.
#[tactic(auto, unfolding(crate::specs::Fields::after))]
pub fn after<'a>(text: &'a [u8], front: &[u8]) -> Option<&'a [u8]>
    ensures { option_map (λ rest. rest.now) result ≡ spec.after front.now text.now }
{
    text.strip_prefix(front)
}

/// How many bytes stand before the first one that is this.
pub fn bytes_before(text: &[u8], byte: u8) -> usize
    ensures within { result ≤ length text.now }
    ensures value { result ≡ position_or_len (is_byte byte) text.now }
{
    for (count, other) in text.iter().enumerate() {
        if *other == byte {
            return count;
        }
    }
    text.len()
}

/// What stands before the first such byte, and behind it.
#[tactic(auto, unfolding(crate::specs::Fields::cut_at))]
pub fn cut_at(text: &[u8], byte: u8) -> Option<Cut<'_>>
    ensures shorter { IfSome result (λ cut. length cut.rest.now < length text.now) }
    ensures cut { option_map (λ cut. (cut.first.now, cut.rest.now)) result ≡ spec.cut_at byte text.now }
{
    let end = bytes_before(text, byte);
    if end >= text.len() {
        return None;
    }
    let (first, _) = text.split_at(end);
    let (_, rest) = text.split_at(end + 1);
    Some(Cut { first, rest })
}

/// A decimal number below 2^64 without leading zeros.
#[tactic(auto, unfolding(crate::specs::Fields::number))]
pub fn number(word: &[u8]) -> Option<u64>
    ensures { result ≡ spec.number word.now }
{
    let number = numeral(word, 10)?;
    if Buffer::new().format(number).as_bytes() != word {
        return None;
    }
    Some(number)
}

/// A number that such a byte ends, and what stands behind that.
#[tactic(auto, unfolding(crate::specs::Fields::number_at))]
fn number_at(text: &[u8], byte: u8) -> Option<(u64, &[u8])>
    ensures { option_map (λ p. (p.0, p.1.now)) result ≡ spec.number_at byte text.now }
{
    let cut = cut_at(text, byte)?;
    Some((number(cut.first)?, cut.rest))
}

/// The same, where the number is at most `max`.
#[tactic(auto, unfolding(crate::specs::Fields::number_to))]
pub fn number_to(text: &[u8], byte: u8, max: u64) -> Option<(u64, &[u8])>
    ensures within { IfSome result (λ p. p.0 ≤ max) }
    ensures number { option_map (λ p. (p.0, p.1.now)) result ≡ spec.number_to byte max text.now }
{
    let (number, rest) = number_at(text, byte)?;
    if number > max {
        return None;
    }
    Some((number, rest))
}

/// A line without its line feed.
#[tactic(auto, unfolding(crate::specs::Fields::last_word))]
pub fn last_word(text: &[u8]) -> Option<&[u8]>
    ensures { option_map (λ word. word.now) result ≡ spec.last_word text.now }
{
    let cut = cut_at(text, b'\n')?;
    if !cut.rest.is_empty() {
        return None;
    }
    Some(cut.first)
}

/// The number that a line is.
#[tactic(auto, unfolding(crate::specs::Fields::last_number))]
pub fn last_number(text: &[u8]) -> Option<u64>
    ensures { result ≡ spec.last_number text.now }
{
    number(last_word(text)?)
}

/// The digest whose spelling in lower case a word is.
#[tactic(auto, unfolding(crate::specs::Fields::digest_of))]
pub fn digest_of(word: &[u8]) -> Option<[u8; 32]>
    ensures { result ≡ spec.digest_of word.now }
{
    match <[u8; 32] as FromHex>::from_hex(word) {
        Ok(digest) => spelled(digest, word),
        Err(_) => None,
    }
}

/// The digest, where the word is its spelling.
fn spelled(digest: [u8; 32], word: &[u8]) -> Option<[u8; 32]>
    ensures { result ≡ spec.spelled_by word.now (Ok digest) }
{
    let mut spelling = [0u8; 64];
    if hex::encode_to_slice(digest.as_slice(), &mut spelling).is_err() {
        return None;
    }
    if spelling.as_slice() != word {
        return None;
    }
    Some(digest)
}
