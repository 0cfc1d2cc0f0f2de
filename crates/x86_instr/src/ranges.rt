ghost use Rattle.std.specs.Prelude.{◌≡◌, ◌≢◌, ◌≤◌, true, if◌then◌else◌, Some, None, IsTrue};
ghost use Rattle.x86_instr.specs.declared.operand.Reg.TheVariants.{Rsp};
ghost use Rattle.x86_instr.specs.Ranges.{is_shift_count, is_scale, is_index_reg};

use crate::operand::Reg;
use std::marker::Model;

/// A count of bits to shift by, from 1 to 63. Contracts see the number.
#[derive(Clone, Copy, PartialEq, Eq)]
pub struct ShiftCount {
    bits: u8,
}

impl Model for ShiftCount {
    ghost use Rattle.std.specs.Prelude.{ℕ, IsTrue};
    ghost use Rattle.x86_instr.specs.Ranges.{is_shift_count};

    ghost Value = { ℕ };

    ghost view = { λ count. count.bits };

    ghost invariant = { λ count. IsTrue (is_shift_count count.bits) };

    ghost inverse = { λ n. record { bits = n } };
}

impl ShiftCount {
    /// The count with this number, None exactly where it is not from 1 to 63.
    pub fn new(bits: u8) -> Option<ShiftCount>
        ensures { result ≡ if is_shift_count bits then Some bits else None }
    {
        if bits < 1 || bits > 63 {
            return None;
        }
        Some(ShiftCount { bits })
    }

    /// The number of bits.
    pub fn bits(self) -> u8
        ensures number { result ≡ self }
        ensures range { IsTrue (is_shift_count self) }
    {
        self.bits
    }
}

/// What an index is multiplied by: 1, 2, 4 or 8. Contracts see the number.
#[derive(Clone, Copy, PartialEq, Eq)]
pub struct Scale {
    factor: u8,
}

impl Model for Scale {
    ghost use Rattle.std.specs.Prelude.{ℕ, IsTrue};
    ghost use Rattle.x86_instr.specs.Ranges.{is_scale};

    ghost Value = { ℕ };

    ghost view = { λ scale. scale.factor };

    ghost invariant = { λ scale. IsTrue (is_scale scale.factor) };

    ghost inverse = { λ n. record { factor = n } };
}

impl Scale {
    /// The scale with this number, None exactly where it is none of 1, 2, 4 and 8.
    pub fn new(factor: u8) -> Option<Scale>
        ensures { result ≡ if is_scale factor then Some factor else None }
    {
        match factor {
            1 | 2 | 4 | 8 => Some(Scale { factor }),
            _ => None,
        }
    }

    /// The number.
    pub fn factor(self) -> u8
        ensures number { result ≡ self }
        ensures range { IsTrue (is_scale self) }
    {
        self.factor
    }
}

/// A register that may be an index: any but `rsp`. Contracts see the register.
#[derive(Clone, Copy, PartialEq, Eq)]
pub struct IndexReg {
    reg: Reg,
}

impl Model for IndexReg {
    ghost use Rattle.std.specs.Prelude.{IsTrue};
    ghost use Rattle.x86_instr.specs.declared.operand.Reg.{Reg};
    ghost use Rattle.x86_instr.specs.Ranges.{is_index_reg};

    ghost Value = { Reg };

    ghost view = { λ index. index.reg };

    ghost invariant = { λ index. IsTrue (is_index_reg index.reg) };

    ghost inverse = { λ r. record { reg = r } };
}

impl IndexReg {
    /// The register as an index, None exactly where it is `rsp`.
    pub fn new(reg: Reg) -> Option<IndexReg>
        ensures { result ≡ if is_index_reg reg then Some reg else None }
    {
        if reg == Reg::Rsp {
            return None;
        }
        Some(IndexReg { reg })
    }

    /// The register.
    pub fn reg(self) -> Reg
        ensures register { result ≡ self }
        ensures range { IsTrue (is_index_reg self) }
    {
        self.reg
    }
}
