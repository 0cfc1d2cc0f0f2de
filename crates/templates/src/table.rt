ghost use Rattle.std.specs.Prelude.{◌≡◌, ◌≤◌, length, map, slice_index_or, []};
ghost use Rattle.templates.specs.Table as spec;

use word_program::{Kind, Op, Operand, Target};
use x86_instr::Mnemonic;

/// Whether the carry or borrow that goes in is the literal 0.
fn carry_in_zero(op: &Op) -> bool
    ensures { result ≡ spec.carry_in_zero op.now }
{
    match op.args.items().first() {
        Some(Operand::Literal(number)) => *number == 0,
        _ => false,
    }
}

/// Whether beside that the carry that comes out is unused.
fn carry_in_zero_out_unused(op: &Op) -> bool
    ensures { result ≡ spec.carry_in_zero_out_unused op.now }
{
    if !carry_in_zero(op) {
        return false;
    }
    match op.targets.items().get(1) {
        Some(Target::Unused) => true,
        _ => false,
    }
}

/// How many templates an operation has.
#[tactic(auto, unfolding(crate::specs::Table::templates_of))]
pub fn template_count(op: &Op) -> u8
    ensures count { result ≡ length (spec.templates_of op.now) }
    ensures some { 1 ≤ result }
    ensures few { result ≤ 5 }
{
    match op.kind {
        Kind::AddCarry => 3 + carry_in_zero(op) as u8 + carry_in_zero_out_unused(op) as u8,
        Kind::SubBorrow => 1 + carry_in_zero(op) as u8,
        Kind::MulX | Kind::Mul | Kind::Add => 2,
        Kind::Sub | Kind::And | Kind::Or | Kind::Xor | Kind::Not | Kind::Copy => 1,
        Kind::Shl(_) | Kind::Shr(_) | Kind::Shrd(_) | Kind::CMov => 2,
    }
}

/// The mnemonics of the template with this number, where an operation of this kind has it.
pub fn mnemonics_at(kind: Kind, number: u8) -> &'static [Mnemonic]
    ensures { result.now ≡ slice_index_or (map (λ r. r.mnemonics) (spec.rows_of kind)) number [] }
{
    match (kind, number) {
        (Kind::AddCarry, 0) => &[Mnemonic::Adc],
        (Kind::AddCarry, 1) => &[Mnemonic::Adcx],
        (Kind::AddCarry, 2) => &[Mnemonic::Adox],
        (Kind::AddCarry, 3) => &[Mnemonic::Add],
        (Kind::AddCarry, 4) => &[Mnemonic::Lea],
        (Kind::SubBorrow, 0) => &[Mnemonic::Sbb],
        (Kind::SubBorrow, 1) => &[Mnemonic::Sub],
        (Kind::MulX, 0) => &[Mnemonic::Mulx],
        (Kind::MulX, 1) => &[Mnemonic::Mul],
        (Kind::Mul, 0) => &[Mnemonic::Imul],
        (Kind::Mul, 1) => &[Mnemonic::Mulx],
        (Kind::Add, 0) => &[Mnemonic::Add],
        (Kind::Add, 1) => &[Mnemonic::Lea],
        (Kind::Sub, 0) => &[Mnemonic::Sub],
        (Kind::And, 0) => &[Mnemonic::And],
        (Kind::Or, 0) => &[Mnemonic::Or],
        (Kind::Xor, 0) => &[Mnemonic::Xor],
        (Kind::Not, 0) => &[Mnemonic::Not],
        (Kind::Copy, 0) => &[Mnemonic::Mov],
        (Kind::Shl(_), 0) => &[Mnemonic::Shl],
        (Kind::Shl(_), 1) => &[Mnemonic::Shlx],
        (Kind::Shr(_), 0) => &[Mnemonic::Shr],
        (Kind::Shr(_), 1) => &[Mnemonic::Shrx],
        (Kind::Shrd(_), 0) => &[Mnemonic::Shrd],
        (Kind::Shrd(_), 1) => &[Mnemonic::Shrx, Mnemonic::Shlx, Mnemonic::Lea],
        (Kind::CMov, 0) => &[Mnemonic::Test, Mnemonic::Cmovnz],
        (Kind::CMov, 1) => &[Mnemonic::Cmovc],
        _ => &[],
    }
}
