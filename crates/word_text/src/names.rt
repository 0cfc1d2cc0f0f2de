ghost use Rattle.std.specs.Prelude.{◌≡◌, option_map};
ghost use Rattle.std.specs.List.{list_all};
ghost use Rattle.word_text.specs.Texts as spec;

use base::{Text, is_identifier};

/// Whether the text is `_`, the name of a result that nothing reads.
pub fn is_unused(text: &str) -> bool
    ensures { result ≡ spec.is_unused text.now }
{
    text == "_"
}

/// Whether the text begins with a decimal digit.
pub fn starts_with_digit(text: &str) -> bool
    ensures { result ≡ spec.starts_with_digit text.now }
{
    match text.as_bytes() {
        [] => false,
        [first, ..] => first.is_ascii_digit(),
    }
}

fn are_decimal(bytes: &[u8]) -> bool
    ensures { result ≡ list_all spec.is_decimal bytes.now }
{
    bytes.iter().all(|byte| byte.is_ascii_digit())
}

/// Whether the text is `0`, or decimal digits of which the first is not 0.
pub fn is_index(text: &str) -> bool
    ensures { result ≡ spec.is_index text.now }
{
    match text.as_bytes() {
        [] => false,
        [only] => only.is_ascii_digit(),
        [first, rest @ ..] => first.is_ascii_digit() && *first != b'0' && are_decimal(rest),
    }
}

/// Whether the text says if outputs may overlap inputs: it is `any` or `none`.
pub fn is_overlap(text: &str) -> bool
    ensures { result ≡ spec.is_overlap text.now }
{
    text == "any" || text == "none"
}

/// Whether outputs may overlap inputs: exactly where the text is `any`. A program without one means `none`.
pub fn may_overlap(text: Option<&Text>) -> bool
    ensures { result ≡ spec.may_overlap (option_map (λ t. t.now) text.entry) }
{
    match text {
        None => false,
        Some(text) => text.as_str() == "any",
    }
}

fn cut_at_opening(text: &str) -> Option<(&str, &str)>
    ensures { option_map (λ p. (p.0.now, p.1.now)) result ≡ spec.cut 91 text.entry.now }
{
    text.split_once('[')
}

fn cut_at_closing(text: &str) -> Option<(&str, &str)>
    ensures { option_map (λ p. (p.0.now, p.1.now)) result ≡ spec.cut 93 text.entry.now }
{
    text.split_once(']')
}

/// What stands before brackets at the end of a text, and in them.
#[tactic(auto, unfolding(crate::specs::Texts::bracketed))]
pub fn bracketed(text: &str) -> Option<(&str, &str)>
    ensures { option_map (λ p. (p.0.now, p.1.now)) result ≡ spec.bracketed text.entry.now }
{
    let (name, rest) = cut_at_opening(text)?;
    let (index, after) = cut_at_closing(rest)?;
    if after == "" {
        Some((name, index))
    } else {
        None
    }
}

/// The name and the index of `name[index]`, where the name is an identifier, and the index is `0` or digits of
/// which the first is not 0.
#[tactic(auto, unfolding(crate::specs::Texts::word_parts))]
pub fn word_parts(text: &str) -> Option<(&str, &str)>
    ensures { option_map (λ p. (p.0.now, p.1.now)) result ≡ spec.word_parts text.entry.now }
{
    let (name, index) = bracketed(text)?;
    if is_identifier(name.as_bytes()) && is_index(index) {
        Some((name, index))
    } else {
        None
    }
}

/// Whether the text has the form `name[index]`. No identifier has it.
pub fn is_word_form(text: &str) -> bool
    ensures { result ≡ spec.is_word_form text.now }
{
    !is_identifier(text.as_bytes()) && !is_unused(text) && word_parts(text).is_some()
}
