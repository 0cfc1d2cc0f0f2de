ghost use Rattle.std.specs.Prelude.{◌≡◌, ◌<◌, ◌+◌, ◌*◌, ◌^◌, ◌&&◌, ◌==◌, slice_index, drop};
ghost use Rattle.base.specs.Numbers as spec;

/// The word that a text is: decimal digits, or `0x` and hexadecimal digits of either case. Leading zeros are
/// allowed. None exactly where the text is no such number, or the number is 2^64 or more.
#[tactic(auto, unfolding(crate::specs::Numbers::word))]
pub fn word(text: &[u8]) -> Option<u64>
    ensures { result ≡ spec.word text.now }
{
    if is_hex(text) {
        let (_, digits) = text.split_at(2);
        return numeral(digits, 16);
    }
    numeral(text, 10)
}

fn is_hex(text: &[u8]) -> bool
    ensures { result ≡ spec.is_hex text.now }
{
    text.len() >= 2 && text[0] == b'0' && text[1] == b'x'
}

/// The number that one or more digits of the radix write. None exactly where the text is anything else, or the
/// number is 2^64 or more.
#[tactic(auto, using(crate::proofs::Digits::numeral_steps))]
pub fn numeral(text: &[u8], radix: u32) -> Option<u64>
    requires low { 1 < radix }
    requires high { radix < 37 }
    ensures { result ≡ spec.numeral radix text.now }
{
    if text.is_empty() {
        return None;
    }
    let mut value = 0u64;
    for byte in text {
        let digit = (*byte as char).to_digit(radix)?;
        value = value.checked_mul(radix as u64)?.checked_add(digit as u64)?;
    }
    Some(value)
}
