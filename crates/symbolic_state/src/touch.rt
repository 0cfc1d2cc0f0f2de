use x86_instr::Reg;

/// The cell that a step accesses: `offset` bytes from what the register held at the start, modulo 2^64. The register is
/// that of an array parameter, or `rsp` for a word of the frame.
#[derive(Clone, Copy, Debug, PartialEq, Eq)]
pub struct Touch {
    /// The cell is written; else it is read.
    pub write: bool,
    pub reg: Reg,
    pub offset: i64,
}
