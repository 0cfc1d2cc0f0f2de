use crate::draft::{Draft, Form, Source};
use x86_instr::{Cond, Index, IndexReg, Instr, Mem, Reg, Rm, Scale, ShiftCount, Src, Un};

fn memory(base: Reg, disp: i32) -> Mem {
    Mem {
        base,
        index: None,
        disp,
    }
}

/// The source as a register or memory. A number is none, and stands for the destination.
fn rm_of(draft: &Draft) -> Rm {
    match draft.source {
        Source::Register(reg) => Rm::Reg(reg),
        Source::Memory(base, disp) => Rm::Mem(memory(base, disp)),
        Source::Number(_) => Rm::Reg(draft.dst),
    }
}

/// The number that the immediate of 32 bits stands for, where it is extended with its sign to this one.
pub fn immediate(number: u64) -> Option<i32> {
    if number <= 0x7fff_ffff {
        return i32::try_from(number).ok();
    }
    let below = u64::MAX - number;
    if below <= 0x7fff_ffff {
        let places = i32::try_from(below).ok()?;
        return Some(-1 - places);
    }
    None
}

fn src_of(source: Source) -> Src {
    match source {
        Source::Register(reg) => Src::Reg(reg),
        Source::Memory(base, disp) => Src::Mem(memory(base, disp)),
        Source::Number(number) => Src::Imm(immediate(number).unwrap_or(0)),
    }
}

fn move_of(draft: &Draft) -> Instr {
    match draft.source {
        Source::Number(imm) => Instr::MovImm {
            dst: draft.dst,
            imm,
        },
        Source::Register(_) | Source::Memory(_, _) => Instr::Mov {
            dst: draft.dst,
            src: rm_of(draft),
        },
    }
}

/// The place that the source is in memory.
fn place_of(source: Source) -> Mem {
    match source {
        Source::Register(reg) => memory(reg, 0),
        Source::Memory(base, disp) => memory(base, disp),
        Source::Number(_) => memory(Reg::Rsp, 0),
    }
}

fn index_of(reg: Reg) -> Option<Index> {
    Some(Index {
        reg: IndexReg::new(reg)?,
        scale: Scale::new(1)?,
    })
}

fn lea_of(draft: &Draft) -> Instr {
    let place = place_of(draft.source);
    let index = match draft.second {
        Some(reg) => index_of(reg),
        None => None,
    };
    Instr::Lea {
        dst: draft.dst,
        mem: Mem {
            base: place.base,
            index,
            disp: place.disp,
        },
    }
}

fn source_register(draft: &Draft) -> Reg {
    match draft.source {
        Source::Register(reg) => reg,
        Source::Memory(_, _) | Source::Number(_) => draft.dst,
    }
}

fn second_register(draft: &Draft) -> Reg {
    draft.second.unwrap_or(draft.dst)
}

/// A line with a count of bits; None where that is not from 1 to 63.
fn counted(draft: &Draft) -> Option<Instr> {
    let by = ShiftCount::new(draft.count)?;
    let dst = draft.dst;
    match draft.form {
        Form::Shl => Some(Instr::Shl { dst, by }),
        Form::Shr => Some(Instr::Shr { dst, by }),
        _ => Some(Instr::Shrd {
            dst,
            src: source_register(draft),
            by,
        }),
    }
}

fn unary(draft: &Draft, op: Un) -> Instr {
    Instr::Un { op, dst: draft.dst }
}

fn set(draft: &Draft, cond: Cond) -> Instr {
    Instr::Set {
        cond,
        dst: draft.dst,
    }
}

fn cmov(draft: &Draft, cond: Cond) -> Instr {
    Instr::Cmov {
        cond,
        dst: draft.dst,
        src: rm_of(draft),
    }
}

fn shifted_by_register(draft: &Draft) -> Instr {
    let dst = draft.dst;
    let src = rm_of(draft);
    let count = second_register(draft);
    if draft.form == Form::Shlx {
        return Instr::Shlx { dst, src, count };
    }
    Instr::Shrx { dst, src, count }
}

fn mulx_of(draft: &Draft) -> Instr {
    Instr::Mulx {
        hi: draft.dst,
        lo: second_register(draft),
        src: rm_of(draft),
    }
}

fn binary_of(draft: &Draft, op: x86_instr::Bin) -> Instr {
    Instr::Bin {
        op,
        dst: draft.dst,
        src: src_of(draft.source),
    }
}

/// The instruction of a draft; None for a hole, and for a shift by no number of bits.
pub fn instruction_of(draft: &Draft) -> Option<Instr> {
    let dst = draft.dst;
    let src = rm_of(draft);
    let from = source_register(draft);
    match draft.form {
        Form::Hole => None,
        Form::Move => Some(move_of(draft)),
        Form::Store => Some(Instr::Store {
            mem: place_of(draft.source),
            src: dst,
        }),
        Form::Lea => Some(lea_of(draft)),
        Form::Binary(op) => Some(binary_of(draft, op)),
        Form::Test => Some(Instr::Test { a: dst, b: from }),
        Form::Inc => Some(unary(draft, Un::Inc)),
        Form::Not => Some(unary(draft, Un::Not)),
        Form::Adcx => Some(Instr::Adcx { dst, src }),
        Form::Adox => Some(Instr::Adox { dst, src }),
        Form::Mulx => Some(mulx_of(draft)),
        Form::Mul => Some(Instr::Mul { src }),
        Form::Imul => Some(Instr::Imul { dst, src }),
        Form::Shl | Form::Shr | Form::Shrd => counted(draft),
        Form::Shlx | Form::Shrx => Some(shifted_by_register(draft)),
        Form::SetCarry => Some(set(draft, Cond::C)),
        Form::SetOverflow => Some(set(draft, Cond::O)),
        Form::Movzx => Some(Instr::Movzx { dst, src: from }),
        Form::CmovCarry => Some(cmov(draft, Cond::C)),
        Form::CmovNotZero => Some(cmov(draft, Cond::Nz)),
        Form::ClearCarry => Some(Instr::Clc),
    }
}
