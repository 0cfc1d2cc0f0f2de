//! Laws of the definitions: functions that do nothing, whose contracts are the laws.

ghost use Rattle.std.specs.Prelude.{◌≡◌, Some, slice_get};
ghost use Rattle.x86_instr.specs.declared.operand.Reg.{Reg};
ghost use Rattle.x86_instr.specs.declared.operand.TheConstants.{REGISTERS};
ghost use Rattle.x86_instr.specs.Registers.{number_of, registers};

/// The list of registers has each of them at its number, and so no two of one number; the constant is that list.
pub fn registers_stand_at_their_numbers()
    ensures list { REGISTERS ≡ registers }
    ensures numbers { (r : Reg) → slice_get registers (number_of r) ≡ Some r }
{}
