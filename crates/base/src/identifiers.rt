ghost use Rattle.std.specs.Prelude.{◌≡◌};
ghost use Rattle.std.specs.List.{list_all};
ghost use Rattle.base.specs.Identifiers as spec;

use crate::limits::MAX_IDENTIFIER_BYTES;

fn is_name_start(byte: u8) -> bool
    ensures { result ≡ spec.is_name_start byte }
{
    byte.is_ascii_alphabetic() || byte == b'_'
}

fn is_name_byte(byte: u8) -> bool
    ensures { result ≡ spec.is_name_byte byte }
{
    byte.is_ascii_alphanumeric() || byte == b'_'
}

fn are_name_bytes(bytes: &[u8]) -> bool
    ensures { result ≡ list_all spec.is_name_byte bytes.now }
{
    bytes.iter().all(|byte| is_name_byte(*byte))
}

fn is_underscore(text: &[u8]) -> bool
    ensures { result ≡ spec.is_underscore text.now }
{
    text == b"_".as_slice()
}

/// Whether the bytes are an identifier: an ASCII letter or `_`, then letters, digits or `_`, at most 64 bytes,
/// and not `_` alone.
#[tactic(auto, unfolding(crate::specs::Identifiers::is_identifier))]
pub fn is_identifier(text: &[u8]) -> bool
    ensures { result ≡ spec.is_identifier text.now }
{
    match text {
        [] => false,
        [first, rest @ ..] => {
            is_name_start(*first)
                && are_name_bytes(rest)
                && text.len() <= MAX_IDENTIFIER_BYTES
                && !is_underscore(text)
        }
    }
}
