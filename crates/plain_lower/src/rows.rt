ghost use Rattle.std.specs.Prelude.{◌≡◌};
ghost use Rattle.plain_lower.specs.Blocks as spec;

use word_program::Kind;
use x86_instr::Reg;

/// A register, and the place of the operand that is loaded into it, or of the result that is in it.
pub type Place = (Reg, u8);

const BIT_AND_TWO: [Place; 3] = [(Reg::R10, 0), (Reg::Rax, 1), (Reg::Rcx, 2)];

const LAST_TWO: [Place; 2] = [(Reg::Rax, 1), (Reg::Rcx, 2)];

const TWO: [Place; 2] = [(Reg::Rax, 0), (Reg::Rcx, 1)];

const FACTORS: [Place; 2] = [(Reg::Rdx, 0), (Reg::Rcx, 1)];

const ONE: [Place; 1] = [(Reg::Rax, 0)];

const COPIED: [Place; 1] = [(Reg::Rcx, 0)];

/// The operands that the template with this number loads, where an operation of this kind has it.
#[tactic(auto, unfolding(crate::specs::Blocks::row_of))]
pub fn loads_of(kind: Kind, template: u8) -> &'static [Place]
    ensures { result.now ≡ (spec.row_of kind template).loads }
{
    match (kind, template) {
        (Kind::AddCarry, 0 | 1 | 2) => &BIT_AND_TWO,
        (Kind::AddCarry, 3 | 4) => &LAST_TWO,
        (Kind::SubBorrow, 0) => &BIT_AND_TWO,
        (Kind::SubBorrow, 1) => &LAST_TWO,
        (Kind::MulX, 0) => &FACTORS,
        (Kind::MulX, 1) => &TWO,
        (Kind::Mul, 0) => &TWO,
        (Kind::Mul, 1) => &FACTORS,
        (Kind::Add, 0 | 1) => &TWO,
        (Kind::Sub | Kind::And | Kind::Or | Kind::Xor, 0) => &TWO,
        (Kind::Not, 0) => &ONE,
        (Kind::Copy, 0) => &COPIED,
        (Kind::Shl(_) | Kind::Shr(_), 0 | 1) => &ONE,
        (Kind::Shrd(_), 0 | 1) => &TWO,
        (Kind::CMov, 0 | 1) => &BIT_AND_TWO,
        _ => &[],
    }
}

const RAX: [Place; 1] = [(Reg::Rax, 0)];

const RAX_AND_R10: [Place; 2] = [(Reg::Rax, 0), (Reg::R10, 1)];

const RAX_AND_RDX: [Place; 2] = [(Reg::Rax, 0), (Reg::Rdx, 1)];

/// The results that it stores.
#[tactic(auto, unfolding(crate::specs::Blocks::row_of))]
pub fn saves_of(kind: Kind, template: u8) -> &'static [Place]
    ensures { result.now ≡ (spec.row_of kind template).saves }
{
    match (kind, template) {
        (Kind::AddCarry, 0 | 1 | 2 | 3) => &RAX_AND_R10,
        (Kind::AddCarry, 4) => &RAX,
        (Kind::SubBorrow, 0 | 1) => &RAX_AND_R10,
        (Kind::MulX, 0) => &RAX_AND_R10,
        (Kind::MulX, 1) => &RAX_AND_RDX,
        (Kind::Mul | Kind::Add, 0 | 1) => &RAX,
        (Kind::Sub | Kind::And | Kind::Or | Kind::Xor, 0) => &RAX,
        (Kind::Not | Kind::Copy, 0) => &RAX,
        (Kind::Shl(_) | Kind::Shr(_) | Kind::Shrd(_), 0 | 1) => &RAX,
        (Kind::CMov, 0 | 1) => &RAX,
        _ => &[],
    }
}
