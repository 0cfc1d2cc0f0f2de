//! Sets of registers.

use register_spill::RegSet;
use x86_instr::{REGISTERS, Reg};

/// No register.
pub const NONE: RegSet = RegSet { bits: 0 };

/// The registers that a callee has to preserve, without `rsp`: `rbx`, `rbp`, and `r12` to `r15`.
pub const PRESERVED: RegSet = RegSet { bits: 0xf028 };

/// The registers that a callee may overwrite.
pub const CALLER_SAVED: RegSet = RegSet { bits: 0x0fc7 };

/// One register.
pub fn only(reg: Reg) -> RegSet {
    RegSet {
        bits: 1 << reg.number(),
    }
}

/// The registers of both sets.
pub fn both(set: RegSet, other: RegSet) -> RegSet {
    RegSet {
        bits: set.bits | other.bits,
    }
}

/// The registers that are in each of the two sets.
pub fn shared(set: RegSet, other: RegSet) -> RegSet {
    RegSet {
        bits: set.bits & other.bits,
    }
}

/// The registers of the first set that are not in the other one.
pub fn and_not(set: RegSet, other: RegSet) -> RegSet {
    RegSet {
        bits: set.bits & !other.bits,
    }
}

/// The register with the lowest number.
pub fn lowest(set: RegSet) -> Option<Reg> {
    REGISTERS.iter().copied().find(|reg| set.has(*reg))
}

/// How many registers a set has.
pub fn size_of(set: RegSet) -> usize {
    REGISTERS.iter().filter(|reg| set.has(**reg)).count()
}
