ghost use Rattle.std.specs.Prelude.{◌≡◌, ◌<◌, ◌^◌};
ghost use Rattle.plain_lower.specs.Frame as spec;

use x86_instr::{Instr, Line, Mem, Owner, Reg, Rm};

/// A line that no operation owns.
pub fn unowned(instr: Instr) -> Line
    ensures { result ≡ spec.unowned instr }
{
    Line { instr, owner: None }
}

/// A line that an operation owns.
pub fn owned(op: u16, instr: Instr) -> Line
    requires { op < 2048 }
    ensures { result ≡ spec.owned op instr }
{
    Line {
        instr,
        owner: Owner::new(op),
    }
}

/// The word of this number from a register on.
pub fn word_at(base: Reg, word: u32) -> Mem
    requires { word < 2 ^ 28 }
    ensures { result ≡ spec.word_at base word }
{
    Mem {
        base,
        index: None,
        disp: 8 * word as i32,
    }
}

/// That word into a register.
pub fn load_word(dst: Reg, base: Reg, word: u32) -> Instr
    requires { word < 2 ^ 28 }
    ensures { result ≡ spec.load_word dst base word }
{
    Instr::Mov {
        dst,
        src: Rm::Mem(word_at(base, word)),
    }
}
