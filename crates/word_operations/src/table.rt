ghost use Rattle.std.specs.Prelude.{◌≡◌};
ghost use Rattle.word_operations.specs.Operations as spec;

use crate::kind::Kind;

const KINDS: [Kind; 15] = [
    Kind::AddCarry,
    Kind::SubBorrow,
    Kind::MulX,
    Kind::CMov,
    Kind::Add,
    Kind::Sub,
    Kind::Mul,
    Kind::And,
    Kind::Or,
    Kind::Xor,
    Kind::Not,
    Kind::Copy,
    Kind::Shl(0),
    Kind::Shr(0),
    Kind::Shrd(0),
];

fn kind_among(kinds: &[Kind], text: &str) -> Option<Kind>
    ensures { result ≡ spec.kind_among kinds.now text.now }
{
    for kind in kinds {
        if text == kind.name() {
            return Some(*kind);
        }
    }
    None
}

/// The kind of this name; a shift count in it is 0.
#[tactic(auto, unfolding(crate::specs::Operations::kind_named))]
pub fn kind_named(text: &str) -> Option<Kind>
    ensures { result ≡ spec.kind_named text.now }
{
    kind_among(&KINDS, text)
}

impl Kind {
    /// Its name in a program's text.
    pub fn name(self) -> &'static str
        ensures { result.now ≡ spec.name_of self }
    {
        match self {
            Kind::AddCarry => "addcarryx",
            Kind::SubBorrow => "subborrowx",
            Kind::MulX => "mulx",
            Kind::CMov => "cmovznz",
            Kind::Add => "+",
            Kind::Sub => "-",
            Kind::Mul => "*",
            Kind::And => "&",
            Kind::Or => "|",
            Kind::Xor => "^",
            Kind::Not => "~",
            Kind::Copy => "=",
            Kind::Shl(_) => "<<",
            Kind::Shr(_) => ">>",
            Kind::Shrd(_) => "shrd",
        }
    }

    /// How many operands it has. A shift count is no operand.
    pub fn operand_count(self) -> usize
        ensures { result ≡ spec.operand_count self }
    {
        match self {
            Kind::AddCarry | Kind::SubBorrow | Kind::CMov => 3,
            Kind::MulX | Kind::Add | Kind::Sub | Kind::Mul => 2,
            Kind::And | Kind::Or | Kind::Xor | Kind::Shrd(_) => 2,
            Kind::Not | Kind::Copy | Kind::Shl(_) | Kind::Shr(_) => 1,
        }
    }

    /// Whether its last argument is a shift count.
    pub fn takes_shift(self) -> bool
        ensures { result ≡ spec.takes_shift self }
    {
        match self {
            Kind::Shl(_) | Kind::Shr(_) | Kind::Shrd(_) => true,
            _ => false,
        }
    }

    /// How many results it has.
    pub fn result_count(self) -> usize
        ensures { result ≡ spec.result_count self }
    {
        match self {
            Kind::AddCarry | Kind::SubBorrow | Kind::MulX => 2,
            _ => 1,
        }
    }

    /// Whether its first argument is a carry, a borrow or a condition, which has to be a bit.
    pub fn takes_bit(self) -> bool
        ensures { result ≡ spec.takes_bit self }
    {
        match self {
            Kind::AddCarry | Kind::SubBorrow | Kind::CMov => true,
            _ => false,
        }
    }
}

/// How many arguments an operation of this kind has: the operands, and a shift count after them.
pub fn argument_count(kind: Kind) -> usize
    ensures { result ≡ spec.argument_count kind }
{
    if kind.takes_shift() {
        kind.operand_count() + 1
    } else {
        kind.operand_count()
    }
}

/// Whether the argument at this place has to be a bit.
pub fn needs_bit(kind: Kind, place: usize) -> bool
    ensures { result ≡ spec.needs_bit kind place }
{
    kind.takes_bit() && place == 0
}

/// Whether the argument at this place is a shift count.
pub fn needs_shift(kind: Kind, place: usize) -> bool
    ensures { result ≡ spec.needs_shift kind place }
{
    kind.takes_shift() && place == kind.operand_count()
}

/// The kind with this shift count, where it has one.
pub fn with_shift(kind: Kind, count: u8) -> Kind
    ensures { result ≡ spec.with_shift kind count }
{
    match kind {
        Kind::Shl(_) => Kind::Shl(count),
        Kind::Shr(_) => Kind::Shr(count),
        Kind::Shrd(_) => Kind::Shrd(count),
        other => other,
    }
}
