ghost use Rattle.std.specs.Prelude.{◌≡◌, ◌≤◌, ◌<◌, ◌++◌, OnOk};
ghost use Rattle.word_program.specs.Accepted.{HasShift};
ghost use Rattle.plain_lower.specs.Blocks as spec;

use crate::instrs::{
    adcx, adox, bin, cmov, copy, flip, imul, lea, mul, mulx, set, shl, shlx, shr, shrd, shrx,
};
use crate::lines::{owned, unowned};
use std::alloc::AllocError;
use word_program::Kind;
use x86_instr::{Bin, Cond, Instr, Line, Lines, Reg, Src, Un};

/// One line, which the operation owns.
fn push_alone(lines: &mut Lines, op: u16, instr: Instr) -> Result<(), AllocError>
    requires { op < 2048 }
    ensures { OnOk result (lines.new ≡ lines.old ++ spec.alone instr op) }
{
    lines.push(owned(op, instr))
}

/// A carry, borrow or condition in `r10` becomes the carry flag.
fn carry_in() -> Line
    ensures { result ≡ spec.carry_in }
{
    unowned(Instr::Bin {
        op: Bin::Add,
        dst: Reg::R10,
        src: Src::Imm(-1),
    })
}

/// A flag becomes a word in `r10`.
fn push_flag_out(lines: &mut Lines, cond: Cond) -> Result<(), AllocError>
    ensures { OnOk result (lines.new ≡ lines.old ++ spec.flag_out cond) }
{
    lines.push(unowned(Instr::Set {
        cond,
        dst: Reg::R10,
    }))?;
    lines.push(unowned(Instr::Movzx {
        dst: Reg::R10,
        src: Reg::R10,
    }))
}

fn push_with_carry_out(lines: &mut Lines, op: u16, instr: Instr) -> Result<(), AllocError>
    requires { op < 2048 }
    ensures { OnOk result (lines.new ≡ lines.old ++ spec.with_carry_out instr op) }
{
    lines.push(owned(op, instr))?;
    push_flag_out(lines, Cond::C)
}

fn push_with_carries(lines: &mut Lines, op: u16, instr: Instr) -> Result<(), AllocError>
    requires { op < 2048 }
    ensures { OnOk result (lines.new ≡ lines.old ++ spec.with_carries instr op) }
{
    lines.push(carry_in())?;
    push_with_carry_out(lines, op, instr)
}

/// A carry in `r10` becomes the overflow flag.
fn push_overflow_in(lines: &mut Lines) -> Result<(), AllocError>
    ensures { OnOk result (lines.new ≡ lines.old ++ spec.overflow_in) }
{
    lines.push(unowned(set(Reg::R11, (1 << 63) - 2)))?;
    lines.push(unowned(lea(Reg::R10, Reg::R11)))?;
    lines.push(unowned(Instr::Un {
        op: Un::Inc,
        dst: Reg::R10,
    }))
}

fn push_with_overflows(lines: &mut Lines, op: u16) -> Result<(), AllocError>
    requires { op < 2048 }
    ensures { OnOk result (lines.new ≡ lines.old ++ spec.with_overflows op) }
{
    push_overflow_in(lines)?;
    lines.push(owned(op, adox()))?;
    push_flag_out(lines, Cond::O)
}

/// A line that the operation owns, behind a count that it takes from a register.
fn push_by_count(
    lines: &mut Lines,
    op: u16,
    src: Reg,
    count: u8,
    instr: Instr,
) -> Result<(), AllocError>
    requires { op < 2048 }
    ensures { OnOk result (lines.new ≡ lines.old ++ spec.by_count src count instr op) }
{
    lines.push(unowned(set(src, u64::from(count))))?;
    lines.push(owned(op, instr))
}

fn push_shifted_double(lines: &mut Lines, op: u16, count: u8) -> Result<(), AllocError>
    requires op { op < 2048 }
    requires count { count ≤ 63 }
    ensures { OnOk result (lines.new ≡ lines.old ++ spec.shifted_double count op) }
{
    push_by_count(lines, op, Reg::R10, count, shrx(Reg::Rax, Reg::R10))?;
    push_by_count(lines, op, Reg::R10, 64 - count, shlx(Reg::Rcx, Reg::R10))?;
    lines.push(owned(op, lea(Reg::Rax, Reg::Rcx)))
}

fn push_chosen_by_test(lines: &mut Lines, op: u16) -> Result<(), AllocError>
    requires { op < 2048 }
    ensures { OnOk result (lines.new ≡ lines.old ++ spec.chosen_by_test op) }
{
    lines.push(owned(
        op,
        Instr::Test {
            a: Reg::R10,
            b: Reg::R10,
        },
    ))?;
    lines.push(owned(op, cmov(Cond::Nz)))
}

fn push_chosen_by_carry(lines: &mut Lines, op: u16) -> Result<(), AllocError>
    requires { op < 2048 }
    ensures { OnOk result (lines.new ≡ lines.old ++ spec.chosen_by_carry op) }
{
    lines.push(carry_in())?;
    lines.push(owned(op, cmov(Cond::C)))
}

/// The lines between the loads and the stores of the template with this number, where an operation of this kind has
/// it: one row a template.
#[tactic(auto, unfolding(crate::specs::Blocks::row_of))]
pub fn push_middle(lines: &mut Lines, op: u16, kind: Kind, template: u8) -> Result<(), AllocError>
    requires op { op < 2048 }
    requires count { HasShift kind }
    ensures { OnOk result (lines.new ≡ lines.old ++ (spec.row_of kind template).middle op) }
{
    match (kind, template) {
        (Kind::AddCarry, 0) => push_with_carries(lines, op, bin(Bin::Adc)),
        (Kind::AddCarry, 1) => push_with_carries(lines, op, adcx()),
        (Kind::AddCarry, 2) => push_with_overflows(lines, op),
        (Kind::AddCarry, 3) => push_with_carry_out(lines, op, bin(Bin::Add)),
        (Kind::AddCarry, 4) => push_alone(lines, op, lea(Reg::Rax, Reg::Rcx)),
        (Kind::SubBorrow, 0) => push_with_carries(lines, op, bin(Bin::Sbb)),
        (Kind::SubBorrow, 1) => push_with_carry_out(lines, op, bin(Bin::Sub)),
        (Kind::MulX, 0) => push_alone(lines, op, mulx()),
        (Kind::MulX, 1) => push_alone(lines, op, mul()),
        (Kind::Mul, 0) => push_alone(lines, op, imul()),
        (Kind::Mul, 1) => push_alone(lines, op, mulx()),
        (Kind::Add, 0) => push_alone(lines, op, bin(Bin::Add)),
        (Kind::Add, 1) => push_alone(lines, op, lea(Reg::Rax, Reg::Rcx)),
        (Kind::Sub, 0) => push_alone(lines, op, bin(Bin::Sub)),
        (Kind::And, 0) => push_alone(lines, op, bin(Bin::And)),
        (Kind::Or, 0) => push_alone(lines, op, bin(Bin::Or)),
        (Kind::Xor, 0) => push_alone(lines, op, bin(Bin::Xor)),
        (Kind::Not, 0) => push_alone(lines, op, flip()),
        (Kind::Copy, 0) => push_alone(lines, op, copy()),
        (Kind::Shl(count), 0) => push_alone(lines, op, shl(count)),
        (Kind::Shl(count), 1) => push_by_count(
            lines,
            op,
            Reg::Rcx,
            count,
            shlx(Reg::Rax, Reg::Rcx),
        ),
        (Kind::Shr(count), 0) => push_alone(lines, op, shr(count)),
        (Kind::Shr(count), 1) => push_by_count(
            lines,
            op,
            Reg::Rcx,
            count,
            shrx(Reg::Rax, Reg::Rcx),
        ),
        (Kind::Shrd(count), 0) => push_alone(lines, op, shrd(count)),
        (Kind::Shrd(count), 1) => push_shifted_double(lines, op, count),
        (Kind::CMov, 0) => push_chosen_by_test(lines, op),
        (Kind::CMov, 1) => push_chosen_by_carry(lines, op),
        _ => Ok(()),
    }
}
