//! Instructions that read their source from the memory, in the place of a register.
ghost use Rattle.std.specs.Prelude.{◌≡◌, ◌++◌, map, OnOk};
ghost use Rattle.fast_lower.specs.FallBack as spec;

use std::alloc::AllocError;
use x86_instr::{Instr, Line, Lines, Mem, Rm, Src};

fn rm_in(mem: &Mem, src: Rm) -> Rm
    ensures { result ≡ spec.rm_in mem.now src }
{
    match src {
        Rm::Reg(_) => Rm::Mem(*mem),
        Rm::Mem(other) => Rm::Mem(other),
    }
}

fn src_in(mem: &Mem, src: Src) -> Src
    ensures { result ≡ spec.src_in mem.now src }
{
    match src {
        Src::Reg(_) => Src::Mem(*mem),
        Src::Mem(other) => Src::Mem(other),
        Src::Imm(imm) => Src::Imm(imm),
    }
}

fn sourced(mem: &Mem, instr: Instr) -> Instr
    ensures { result ≡ spec.sourced mem.now instr }
{
    match instr {
        Instr::Bin { op, dst, src } => Instr::Bin {
            op,
            dst,
            src: src_in(mem, src),
        },
        Instr::Adcx { dst, src } => Instr::Adcx {
            dst,
            src: rm_in(mem, src),
        },
        Instr::Adox { dst, src } => Instr::Adox {
            dst,
            src: rm_in(mem, src),
        },
        Instr::Imul { dst, src } => Instr::Imul {
            dst,
            src: rm_in(mem, src),
        },
        other => other,
    }
}

/// Puts lines at the end, of which those of the source rule read this word of the memory.
pub fn push_sourced(lines: &mut Lines, mem: &Mem, middle: &[Line]) -> Result<(), AllocError>
    ensures { OnOk result (lines.new ≡ lines.old ++ map (spec.line_sourced mem.now) middle.now) }
{
    for line in middle {
        lines.push(Line {
            instr: sourced(mem, line.instr),
            owner: line.owner,
        })?;
    }
    Ok(())
}
