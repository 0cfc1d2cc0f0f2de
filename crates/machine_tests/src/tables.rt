//! The tables of accesses and flags, equality and the list of registers, by the public calls of `x86_instr`.

ghost use Rattle.std.specs.Prelude.{◌≡◌, ◌↔◌, IsTrue};

use crate::reading::listing_of;
use std::test::Fail;
use x86_instr::{
    Access, Bin, Cond, Flags, Instr, ListingFault, Mem, Mnemonic, REGISTERS, Reg, Un, mnemonic_of,
};

// An instruction; whether it reads or writes the cell at `rbx + 8`, or `-`; the flags that it reads; the flags that it
// writes, where it sets, clears or undefines them. From the manual's pages, under "Flags Affected".
const ROWS: &str = "\
mov rax, rcx | - | --- | ---
mov rax, [rbx + 8] | r | --- | ---
mov [rbx + 8], rax | w | --- | ---
mov rax, 18446744073709551615 | - | --- | ---
movzx rax, cl | - | --- | ---
lea rax, [rbx + 8] | - | --- | ---
not rax | - | --- | ---
add rax, rcx | - | --- | coz
add rax, [rbx + 8] | r | --- | coz
add rax, 8 | - | --- | coz
adc rax, [rbx + 8] | r | c-- | coz
sub rax, [rbx + 8] | r | --- | coz
sbb rax, rcx | - | c-- | coz
cmp rax, [rbx + 8] | r | --- | coz
neg rax | - | --- | coz
inc rax | - | --- | -oz
dec rax | - | --- | -oz
and rax, [rbx + 8] | r | --- | coz
or rax, rcx | - | --- | coz
xor rax, -1 | - | --- | coz
test rax, rcx | - | --- | coz
clc | - | --- | c--
adcx rax, rcx | - | c-- | c--
adcx rax, [rbx + 8] | r | c-- | c--
adox rax, rcx | - | -o- | -o-
adox rax, [rbx + 8] | r | -o- | -o-
mulx rax, rcx, [rbx + 8] | r | --- | ---
mul rcx | - | --- | coz
mul [rbx + 8] | r | --- | coz
imul rax, [rbx + 8] | r | --- | coz
shl rax, 1 | - | --- | coz
shr rax, 63 | - | --- | coz
shrd rax, rcx, 5 | - | --- | coz
shlx rax, [rbx + 8], rcx | r | --- | ---
shrx rax, rcx, rdx | - | --- | ---
seto al | - | -o- | ---
setno al | - | -o- | ---
setc al | - | c-- | ---
setnc al | - | c-- | ---
setz al | - | --z | ---
setnz al | - | --z | ---
cmovo rax, [rbx + 8] | r | -o- | ---
cmovno rax, rcx | - | -o- | ---
cmovc rax, [rbx + 8] | r | c-- | ---
cmovnc rax, [rbx + 8] | r | c-- | ---
cmovz rax, rcx | - | --z | ---
cmovnz rax, [rbx + 8] | r | --z | ---
ret | - | --- | ---";

// The cell of the rows.
const CELL: Mem = Mem {
    base: Reg::Rbx,
    index: None,
    disp: 8,
};

// What a row says of its instruction.
#[derive(Clone, Copy)]
struct Row<'a> {
    text: &'a str,
    access: &'a str,
    read: &'a str,
    written: &'a str,
}

fn parts_of(row: &str) -> Option<Row<'_>> {
    let (text, rest) = row.split_once(" | ")?;
    let (access, rest) = rest.split_once(" | ")?;
    let (read, written) = rest.split_once(" | ")?;
    Some(Row {
        text,
        access,
        read,
        written,
    })
}

fn has_access(instr: &Instr, access: &str) -> bool {
    match access {
        "r" => instr.access() == Access::Read(CELL),
        "w" => instr.access() == Access::Write(CELL),
        _ => instr.access() == Access::None,
    }
}

fn flags_in(text: &str) -> Flags {
    Flags {
        cf: text.contains('c'),
        of: text.contains('o'),
        zf: text.contains('z'),
    }
}

#[test]
fn each_row_has_its_access_and_flags(rt: HostRuntime) -> Result<(), Fail> {
    for row in ROWS.lines() {
        let parts = parts_of(row).expect(&rt, "a row has four parts");
        let listing = listing_of(
            rt.alloc(),
            if parts.text == "ret" { "" } else { parts.text },
        )?;
        let listing = listing.expect(&rt, "its text is an instruction");
        let line = listing.lines().first().expect(&rt, "a listing has a line");
        assert!(rt; has_access(&line.instr, parts.access), "{row}");
        assert!(rt; line.instr.flags_read() == flags_in(parts.read), "{row}");
        assert!(rt;
            line.instr.flags_written() == flags_in(parts.written),
            "{row}"
        );
    }
    Ok(())
}

// `==` of the small enums says whether they are the same, to callers in other crates too.

fn is_reg(a: Reg, b: Reg) -> bool
    ensures { IsTrue result ↔ (a ≡ b) }
{
    a == b
}

fn is_mnemonic(a: Mnemonic, b: Mnemonic) -> bool
    ensures { IsTrue result ↔ (a ≡ b) }
{
    a == b
}

fn is_cond(a: Cond, b: Cond) -> bool
    ensures { IsTrue result ↔ (a ≡ b) }
{
    a == b
}

fn is_bin(a: Bin, b: Bin) -> bool
    ensures { IsTrue result ↔ (a ≡ b) }
{
    a == b
}

fn is_un(a: Un, b: Un) -> bool
    ensures { IsTrue result ↔ (a ≡ b) }
{
    a == b
}

fn is_fault(a: ListingFault, b: ListingFault) -> bool
    ensures { IsTrue result ↔ (a ≡ b) }
{
    a == b
}

#[test]
fn enums_are_compared(rt: HostRuntime) -> Result<(), Fail> {
    for (at, reg) in REGISTERS.iter().enumerate() {
        assert!(rt; usize::from(reg.number()) == at);
        for (other, second) in REGISTERS.iter().enumerate() {
            assert!(rt; is_reg(*reg, *second) == (at == other));
        }
    }
    assert!(rt; is_mnemonic(mnemonic_of(&Instr::Clc), Mnemonic::Clc));
    assert!(rt; !is_mnemonic(mnemonic_of(&Instr::Clc), Mnemonic::Ret));
    assert!(rt; is_cond(Cond::Nc, Cond::Nc) && !is_cond(Cond::Nc, Cond::C));
    assert!(rt; is_bin(Bin::Sbb, Bin::Sbb) && !is_bin(Bin::Sbb, Bin::Sub));
    assert!(rt; is_un(Un::Neg, Un::Neg) && !is_un(Un::Neg, Un::Not));
    assert!(rt; is_fault(ListingFault::TooLong, ListingFault::TooLong));
    assert!(rt; !is_fault(ListingFault::TooLong, ListingFault::NoReturn));
    Ok(())
}
