//! Of which slots the source rule speaks, and what it asks of an instruction.
ghost use Rattle.std.specs.Prelude.{◌≡◌, ◌<◌, length};
ghost use Rattle.templates.specs.Table.{count_of};
ghost use Rattle.plain_lower.specs.Frame as frame;
ghost use Rattle.fast_lower.specs.Sources as spec;

use crate::taken::last_taken;
use op_order::Slot;
use templates::mnemonics;
use word_program::{Op, Operand, Program, Role};
use x86_instr::{Instr, Mnemonic, Rm, Src};

/// A word of an input array: the parameter and the word, both counted from 0.
#[derive(Clone, Copy)]
pub struct ArrayWord {
    pub param: u8,
    pub word: u8,
}

fn has_source(name: Mnemonic) -> bool
    ensures { result ≡ spec.has_source name }
{
    matches!(
        name,
        Mnemonic::Add
            | Mnemonic::Adc
            | Mnemonic::Sub
            | Mnemonic::Sbb
            | Mnemonic::And
            | Mnemonic::Or
            | Mnemonic::Xor
            | Mnemonic::Adcx
            | Mnemonic::Adox
            | Mnemonic::Imul
    )
}

/// Whether a template is one instruction with a source.
fn is_one_source(names: &[Mnemonic]) -> bool
    ensures { result ≡ spec.is_one_source names.now }
{
    match names {
        [only] => has_source(*only),
        _ => false,
    }
}

fn is_array(program: &Program, param: u8) -> bool
    ensures { result ≡ spec.is_array (frame.role_of program.now param) }
{
    match program.params().get(usize::from(param)) {
        Some(param) => matches!(param.role, Role::InputArray),
        None => false,
    }
}

fn array_word(program: &Program, operand: Operand) -> Option<ArrayWord>
    ensures { result ≡ spec.array_word program.now operand }
{
    match operand {
        Operand::Literal(_) | Operand::Value(_) => None,
        Operand::Input { param, word } => {
            if is_array(program, param) {
                Some(ArrayWord { param, word })
            } else {
                None
            }
        }
    }
}

fn word_by(program: &Program, slot: Slot, op: &Op) -> Option<ArrayWord>
    requires op { slot.op < length program.now.ops }
    requires template { slot.template < count_of program.now slot.op }
    ensures { result ≡ spec.word_by program.now slot op.now }
{
    if is_one_source(mnemonics(program, slot.op, slot.template)) {
        return array_word(program, last_taken(slot, op));
    }
    None
}

/// The word that the slot's instruction reads by its source, where the rule speaks of the slot.
pub fn source_word(program: &Program, slot: Slot) -> Option<ArrayWord>
    requires op { slot.op < length program.now.ops }
    requires template { slot.template < count_of program.now slot.op }
    ensures { result ≡ spec.source_word program.now slot }
{
    match program.ops().get(usize::from(slot.op)) {
        Some(op) => word_by(program, slot, op),
        None => None,
    }
}

fn is_memory(rm: Rm) -> bool
    ensures { result ≡ spec.is_memory rm }
{
    match rm {
        Rm::Reg(_) => false,
        Rm::Mem(_) => true,
    }
}

fn reads_memory(instr: &Instr) -> bool
    ensures { result ≡ spec.reads_memory instr.now }
{
    match *instr {
        Instr::Bin {
            src: Src::Mem(_),
            ..
        } => true,
        Instr::Adcx { src, .. } | Instr::Adox { src, .. } | Instr::Imul { src, .. } => {
            is_memory(src)
        }
        _ => false,
    }
}

fn is_register(rm: Rm) -> bool
    ensures { result ≡ spec.is_register rm }
{
    match rm {
        Rm::Reg(_) => true,
        Rm::Mem(_) => false,
    }
}

fn reads_register(instr: &Instr) -> bool
    ensures { result ≡ spec.reads_register instr.now }
{
    match *instr {
        Instr::Bin {
            src: Src::Reg(_),
            ..
        } => true,
        Instr::Adcx { src, .. } | Instr::Adox { src, .. } | Instr::Imul { src, .. } => {
            is_register(src)
        }
        _ => false,
    }
}

/// Whether an instruction of the slot's operation keeps the rule.
pub fn keeps_rule(program: &Program, slot: Slot, instr: &Instr) -> bool
    requires op { slot.op < length program.now.ops }
    requires template { slot.template < count_of program.now slot.op }
    ensures { result ≡ spec.keeps_rule program.now slot instr.now }
{
    if source_word(program, slot).is_none() {
        return true;
    }
    if slot.load_first {
        return reads_register(instr);
    }
    reads_memory(instr)
}
