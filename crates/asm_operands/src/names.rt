ghost use Rattle.std.specs.Prelude.{◌≡◌};
ghost use Rattle.asm_operands.specs.Names as spec;

use x86_instr::{Mnemonic, Reg};

/// The registers of 64 bits, each with its name.
const REGISTER_NAMES: [(Reg, &[u8]); 16] = [
    (Reg::Rax, b"rax"),
    (Reg::Rcx, b"rcx"),
    (Reg::Rdx, b"rdx"),
    (Reg::Rbx, b"rbx"),
    (Reg::Rsp, b"rsp"),
    (Reg::Rbp, b"rbp"),
    (Reg::Rsi, b"rsi"),
    (Reg::Rdi, b"rdi"),
    (Reg::R8, b"r8"),
    (Reg::R9, b"r9"),
    (Reg::R10, b"r10"),
    (Reg::R11, b"r11"),
    (Reg::R12, b"r12"),
    (Reg::R13, b"r13"),
    (Reg::R14, b"r14"),
    (Reg::R15, b"r15"),
];

/// The low bytes of the registers, each with its name.
const BYTE_REGISTER_NAMES: [(Reg, &[u8]); 16] = [
    (Reg::Rax, b"al"),
    (Reg::Rcx, b"cl"),
    (Reg::Rdx, b"dl"),
    (Reg::Rbx, b"bl"),
    (Reg::Rsp, b"spl"),
    (Reg::Rbp, b"bpl"),
    (Reg::Rsi, b"sil"),
    (Reg::Rdi, b"dil"),
    (Reg::R8, b"r8b"),
    (Reg::R9, b"r9b"),
    (Reg::R10, b"r10b"),
    (Reg::R11, b"r11b"),
    (Reg::R12, b"r12b"),
    (Reg::R13, b"r13b"),
    (Reg::R14, b"r14b"),
    (Reg::R15, b"r15b"),
];

/// The mnemonics, each with its name.
const MNEMONIC_NAMES: [(Mnemonic, &[u8]); 40] = [
    (Mnemonic::Mov, b"mov"),
    (Mnemonic::Movzx, b"movzx"),
    (Mnemonic::Lea, b"lea"),
    (Mnemonic::Not, b"not"),
    (Mnemonic::Add, b"add"),
    (Mnemonic::Adc, b"adc"),
    (Mnemonic::Sub, b"sub"),
    (Mnemonic::Cmp, b"cmp"),
    (Mnemonic::Sbb, b"sbb"),
    (Mnemonic::Neg, b"neg"),
    (Mnemonic::Inc, b"inc"),
    (Mnemonic::Dec, b"dec"),
    (Mnemonic::And, b"and"),
    (Mnemonic::Or, b"or"),
    (Mnemonic::Xor, b"xor"),
    (Mnemonic::Test, b"test"),
    (Mnemonic::Clc, b"clc"),
    (Mnemonic::Adcx, b"adcx"),
    (Mnemonic::Adox, b"adox"),
    (Mnemonic::Mulx, b"mulx"),
    (Mnemonic::Mul, b"mul"),
    (Mnemonic::Imul, b"imul"),
    (Mnemonic::Shl, b"shl"),
    (Mnemonic::Shr, b"shr"),
    (Mnemonic::Shrd, b"shrd"),
    (Mnemonic::Shlx, b"shlx"),
    (Mnemonic::Shrx, b"shrx"),
    (Mnemonic::Seto, b"seto"),
    (Mnemonic::Setno, b"setno"),
    (Mnemonic::Setc, b"setc"),
    (Mnemonic::Setnc, b"setnc"),
    (Mnemonic::Setz, b"setz"),
    (Mnemonic::Setnz, b"setnz"),
    (Mnemonic::Cmovo, b"cmovo"),
    (Mnemonic::Cmovno, b"cmovno"),
    (Mnemonic::Cmovc, b"cmovc"),
    (Mnemonic::Cmovnc, b"cmovnc"),
    (Mnemonic::Cmovz, b"cmovz"),
    (Mnemonic::Cmovnz, b"cmovnz"),
    (Mnemonic::Ret, b"ret"),
];

/// The name of a register of 64 bits.
pub fn register_name(reg: Reg) -> &'static str
    ensures { result.now ≡ spec.reg_text reg }
{
    match reg {
        Reg::Rax => "rax",
        Reg::Rcx => "rcx",
        Reg::Rdx => "rdx",
        Reg::Rbx => "rbx",
        Reg::Rsp => "rsp",
        Reg::Rbp => "rbp",
        Reg::Rsi => "rsi",
        Reg::Rdi => "rdi",
        Reg::R8 => "r8",
        Reg::R9 => "r9",
        Reg::R10 => "r10",
        Reg::R11 => "r11",
        Reg::R12 => "r12",
        Reg::R13 => "r13",
        Reg::R14 => "r14",
        Reg::R15 => "r15",
    }
}

/// The name of a register's low byte.
pub fn byte_register_name(reg: Reg) -> &'static str
    ensures { result.now ≡ spec.byte_reg_text reg }
{
    match reg {
        Reg::Rax => "al",
        Reg::Rcx => "cl",
        Reg::Rdx => "dl",
        Reg::Rbx => "bl",
        Reg::Rsp => "spl",
        Reg::Rbp => "bpl",
        Reg::Rsi => "sil",
        Reg::Rdi => "dil",
        Reg::R8 => "r8b",
        Reg::R9 => "r9b",
        Reg::R10 => "r10b",
        Reg::R11 => "r11b",
        Reg::R12 => "r12b",
        Reg::R13 => "r13b",
        Reg::R14 => "r14b",
        Reg::R15 => "r15b",
    }
}

/// The name of a mnemonic.
pub fn mnemonic_name(mnemonic: Mnemonic) -> &'static str
    ensures { result.now ≡ spec.mnemonic_text mnemonic }
{
    match mnemonic {
        Mnemonic::Mov => "mov",
        Mnemonic::Movzx => "movzx",
        Mnemonic::Lea => "lea",
        Mnemonic::Not => "not",
        Mnemonic::Add => "add",
        Mnemonic::Adc => "adc",
        Mnemonic::Sub => "sub",
        Mnemonic::Cmp => "cmp",
        Mnemonic::Sbb => "sbb",
        Mnemonic::Neg => "neg",
        Mnemonic::Inc => "inc",
        Mnemonic::Dec => "dec",
        Mnemonic::And => "and",
        Mnemonic::Or => "or",
        Mnemonic::Xor => "xor",
        Mnemonic::Test => "test",
        Mnemonic::Clc => "clc",
        Mnemonic::Adcx => "adcx",
        Mnemonic::Adox => "adox",
        Mnemonic::Mulx => "mulx",
        Mnemonic::Mul => "mul",
        Mnemonic::Imul => "imul",
        Mnemonic::Shl => "shl",
        Mnemonic::Shr => "shr",
        Mnemonic::Shrd => "shrd",
        Mnemonic::Shlx => "shlx",
        Mnemonic::Shrx => "shrx",
        Mnemonic::Seto => "seto",
        Mnemonic::Setno => "setno",
        Mnemonic::Setc => "setc",
        Mnemonic::Setnc => "setnc",
        Mnemonic::Setz => "setz",
        Mnemonic::Setnz => "setnz",
        Mnemonic::Cmovo => "cmovo",
        Mnemonic::Cmovno => "cmovno",
        Mnemonic::Cmovc => "cmovc",
        Mnemonic::Cmovnc => "cmovnc",
        Mnemonic::Cmovz => "cmovz",
        Mnemonic::Cmovnz => "cmovnz",
        Mnemonic::Ret => "ret",
    }
}

/// The register of 64 bits with this name.
#[tactic(auto, unfolding(crate::specs::Names::register_named))]
pub fn register_named(text: &[u8]) -> Option<Reg>
    ensures { result ≡ spec.register_named text.now }
{
    named_in(&REGISTER_NAMES, text)
}

/// The register whose low byte has this name.
#[tactic(auto, unfolding(crate::specs::Names::byte_register_named))]
pub fn byte_register_named(text: &[u8]) -> Option<Reg>
    ensures { result ≡ spec.byte_register_named text.now }
{
    named_in(&BYTE_REGISTER_NAMES, text)
}

/// The mnemonic with this name.
#[tactic(auto, unfolding(crate::specs::Names::mnemonic_named))]
pub fn mnemonic_named(text: &[u8]) -> Option<Mnemonic>
    ensures { result ≡ spec.mnemonic_named text.now }
{
    named_in(&MNEMONIC_NAMES, text)
}

/// The item of a table whose name the text is.
#[tactic(auto, using(crate::proofs::Tables::table_steps))]
fn named_in<T: Copy>(table: &[(T, &'static [u8])], text: &[u8]) -> Option<T>
    ensures { result ≡ spec.named_in (spec.rows_of table.now) text.now }
{
    for row in table {
        if row.1 == text {
            return Some(row.0);
        }
    }
    None
}
