ghost use Rattle.std.specs.Prelude.{◌≡◌, ◌≤◌, ◌<◌, length};
ghost use Rattle.templates.specs.Table as spec;

use crate::table::{mnemonics_at, template_count};
use word_program::Program;
use x86_instr::Mnemonic;

/// How many templates the operation with this number has, from 1 to 5.
pub fn count(program: &Program, op: u16) -> u8
    requires op { op < length program.now.ops }
    ensures count { result ≡ spec.count_of program.now op }
    ensures some { 1 ≤ result }
    ensures few { result ≤ 5 }
{
    template_count(&program.ops()[op as usize])
}

/// The mnemonics of the instructions that belong to the operation, in the template with this number.
pub fn mnemonics(program: &Program, op: u16, number: u8) -> &'static [Mnemonic]
    requires op { op < length program.now.ops }
    requires number { number < spec.count_of program.now op }
    ensures mnemonics { result.now ≡ spec.mnemonics_of program.now op number }
    ensures some { 1 ≤ length result.now }
    ensures few { length result.now ≤ 3 }
{
    mnemonics_at(program.ops()[op as usize].kind, number)
}
