ghost use Rattle.std.specs.Prelude.{◌≡◌, ◌∷◌, option_to_list, slice_index_or, false};
ghost use Rattle.word_operations.specs.Operations as spec;

use crate::kind::Kind;

/// Whether the first result is a bit, by whether the operands are.
pub fn first_bit(kind: Kind, a: bool, b: bool, c: bool) -> bool
    ensures { result ≡ slice_index_or (spec.bits_on kind a b c) 0 false }
{
    match kind {
        Kind::CMov => b && c,
        Kind::And => a || b,
        Kind::Or | Kind::Xor => a && b,
        Kind::Copy => a,
        Kind::Shr(count) => count == 63,
        _ => false,
    }
}

/// Whether the second result is a bit, where there is one.
pub fn second_bit(kind: Kind, a: bool, b: bool, c: bool) -> Option<bool>
    ensures { spec.bits_on kind a b c ≡ slice_index_or (spec.bits_on kind a b c) 0 false ∷ option_to_list result }
{
    match kind {
        Kind::AddCarry | Kind::SubBorrow => Some(true),
        Kind::MulX => Some(false),
        _ => None,
    }
}
