use x86_instr::Reg;

/// Why a listing is not proved: the first failure, in the order of the variants.
#[derive(Clone, Copy, Debug, PartialEq, Eq)]
pub enum Why {
    /// The symbolic step of this line, counted from 1, is stuck.
    Stuck {
        line: u32,
    },
    /// This output word, counted from 0 in the order of the parameters, has another node than the program's, whose
    /// number is `source`; or nothing is known of it.
    Output {
        word: u32,
        source: u32,
        listing: Option<u32>,
    },
    /// This register does not hold what it held at the start.
    Saved {
        reg: Reg,
    },
    /// Nor does the stack pointer.
    Stack,
}

/// That a listing is proved. What it says is the clause of the function that gives it.
#[derive(Clone, Copy, Debug, PartialEq, Eq)]
pub struct Proof {}

/// Whether a listing is proved for a program, or why not.
#[derive(Clone, Copy, Debug, PartialEq, Eq)]
pub enum Verdict {
    Proved(Proof),
    Not(Why),
}
