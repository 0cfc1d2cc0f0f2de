//! Each instruction in a listing that is proved, and in one that is not.
use crate::checks::gives;
use crate::programs::program_text;
use crate::rows::parts_of;
use std::alloc::Global;
use std::test::Fail;

// The operations of a program, a listing's lines, and the verdict. The program's nodes behind the registers' starts are
// 16 for `c`, which is a bit in rsi; 17 and 18 for `a` and `b`, words in rdx and rcx; 19 and 20 for the words of `x`,
// an array at r8; then those of the operations.
const ROWS: &str = "\
o[0] = = a | mov [rdi], rdx; ret | proved
o[0] = = a | mov [rdi], rcx; ret | output 0 17 18
o[0] = = x[1] | mov rax, [r8 + 8]; mov [rdi], rax; ret | proved
o[0] = = x[1] | mov rax, [r8]; mov [rdi], rax; ret | output 0 20 19
o[0] = = 7 | mov rax, 7; mov [rdi], rax; ret | proved
o[0] = = 7 | mov rax, 6; mov [rdi], rax; ret | output 0 21 22
o[0] = + a b | add rdx, rcx; mov [rdi], rdx; ret | proved
o[0] = + a b | add rdx, rdx; mov [rdi], rdx; ret | output 0 21 22
o[0] = + a x[1] | add rdx, [r8 + 8]; mov [rdi], rdx; ret | proved
o[0] = + a x[1] | add rdx, [r8]; mov [rdi], rdx; ret | output 0 21 22
o[0] = + a 5 | add rdx, 5; mov [rdi], rdx; ret | proved
o[0] = + a 5 | add rdx, 4; mov [rdi], rdx; ret | output 0 22 24
o[0] = - a b | sub rdx, rcx; mov [rdi], rdx; ret | proved
o[0] = - a b | sub rcx, rdx; mov [rdi], rcx; ret | output 0 21 22
o[0] = - a b | neg rcx; add rcx, rdx; mov [rdi], rcx; ret | proved
o[0] = - a b | neg rdx; add rcx, rdx; mov [rdi], rcx; ret | output 0 21 26
o[0] = ~ a | not rdx; mov [rdi], rdx; ret | proved
o[0] = ~ a | not rcx; mov [rdi], rcx; ret | output 0 21 22
o[0] = & a b | and rdx, rcx; mov [rdi], rdx; ret | proved
o[0] = & a b | and rcx, rcx; mov [rdi], rcx; ret | output 0 21 18
o[0] = | a b | or rdx, rcx; mov [rdi], rdx; ret | proved
o[0] = | a b | or rdx, rdx; mov [rdi], rdx; ret | output 0 21 17
o[0] = ^ a b | xor rdx, rcx; mov [rdi], rdx; ret | proved
o[0] = ^ a b | or rdx, rcx; mov [rdi], rdx; ret | output 0 21 22
o[0] = << a 3 | lea rax, [r12 + rdx*8]; sub rax, r12; mov [rdi], rax; ret | proved
o[0] = << a 3 | lea rax, [r12 + rdx*4]; sub rax, r12; mov [rdi], rax; ret | output 0 21 23
t = << b 3, o[0] = + a t | lea rax, [rdx + rcx*8]; mov [rdi], rax; ret | proved
t = << b 3, o[0] = + a t | lea rax, [rdx + rcx*4]; mov [rdi], rax; ret | output 0 22 23
t = << b 3, o[0] = + a t | lea rax, [rcx + rdx*8]; mov [rdi], rax; ret | output 0 22 23
o[0] = - a 9 | lea rax, [rdx - 9]; mov [rdi], rax; ret | proved
o[0] = - a 9 | lea rax, [rdx + 9]; mov [rdi], rax; ret | output 0 22 23
o[0] o[1] = addcarryx 0 a b | add rdx, rcx; mov [rdi], rdx; mov rax, 0; adc rax, 0; mov [rdi + 8], rax; ret | proved
o[0] o[1] = addcarryx 0 a b | add rdx, rcx; mov [rdi], rdx; mov rax, 1; adc rax, 0; mov [rdi + 8], rax; ret \
    | output 1 23 26
o[0] o[1] = addcarryx 0 a b | clc; adc rdx, rcx; mov [rdi], rdx; mov rax, 0; adc rax, rax; mov [rdi + 8], rax; ret \
    | proved
o[0] o[1] = addcarryx 0 a b | clc; adc rdx, rdx; mov [rdi], rdx; ret | output 0 22 24
o[0] o[1] = addcarryx 0 a b | add rdx, rcx; mov [rdi], rdx; clc; mov rax, 0; adc rax, 0; mov [rdi + 8], rax; ret \
    | output 1 23 21
o[0] o[1] = addcarryx 0 a b | test rax, rax; adc rdx, rcx; mov [rdi], rdx; sbb rax, rax; neg rax; mov [rdi + 8], rax; \
    ret | proved
o[0] o[1] = subborrowx 0 a b | sub rdx, rcx; mov [rdi], rdx; mov rax, 0; adc rax, 0; mov [rdi + 8], rax; ret | proved
o[0] o[1] = subborrowx 0 a b | cmp rdx, rcx; mov rax, 0; adc rax, 0; mov [rdi + 8], rax; sub rdx, rcx; mov [rdi], rdx; \
    ret | proved
o[0] o[1] = subborrowx 0 a b | cmp rcx, rdx; mov rax, 0; adc rax, 0; mov [rdi + 8], rax; sub rdx, rcx; mov [rdi], rdx; \
    ret | output 1 23 25
o[0] o[1] = subborrowx c a b | add rsi, -1; sbb rdx, rcx; mov [rdi], rdx; mov rax, 0; adc rax, 0; mov [rdi + 8], rax; \
    ret | proved
o[0] o[1] = subborrowx c a b | add rsi, -1; sbb rcx, rdx; mov [rdi], rcx; ret | output 0 21 26
o[0] o[1] = subborrowx c a b | neg rsi; sbb rdx, rcx; mov [rdi], rdx; mov rax, 0; adc rax, 0; mov [rdi + 8], rax; ret \
    | proved
o[0] = = a | sbb rdx, rcx; mov [rdi], rdx; ret | stuck 1
o[0] = = a | mov rax, 5; test rax, rdx; clc; mov [rdi], rdx; ret | proved";

// The same for both carry chains, products, shifts, and the instructions on conditions and low bytes.
const FURTHER_ROWS: &str = "\
o[0] = + a 1 | inc rdx; mov [rdi], rdx; ret | proved
o[0] = + a 1 | inc rcx; mov [rdi], rcx; ret | output 0 22 23
o[0] = - a 1 | dec rdx; mov [rdi], rdx; ret | proved
o[0] = - a 1 | dec rcx; mov [rdi], rcx; ret | output 0 22 23
o[0] o[1] = addcarryx 0 a b | clc; adcx rdx, rcx; mov [rdi], rdx; mov rax, 0; adcx rax, rax; mov [rdi + 8], rax; ret \
    | proved
o[0] o[1] = addcarryx 0 a b | clc; adcx rdx, rdx; mov [rdi], rdx; ret | output 0 22 24
o[0] o[1] = addcarryx 0 a b | adcx rdx, rcx; mov [rdi], rdx; ret | stuck 1
o[0] o[1] = addcarryx 0 a b | test rax, rax; adox rdx, rcx; mov [rdi], rdx; mov rax, 0; adox rax, rax; \
    mov [rdi + 8], rax; ret | proved
o[0] o[1] = addcarryx 0 a b | test rax, rax; adox rdx, rdx; mov [rdi], rdx; ret | output 0 22 25
o[0] o[1] = addcarryx 0 a b | clc; adox rdx, rcx; mov [rdi], rdx; ret | stuck 2
o[0] o[1] = addcarryx 0 a b | test rax, rax; add rax, rax; adox rdx, rcx; ret | stuck 3
o[0] o[1] = addcarryx 0 a b | test rax, rax; adox rdx, rcx; adcx rax, rax; mov [rdi], rdx; mov rax, 0; adox rax, rax; \
    mov [rdi + 8], rax; ret | proved
o[0] o[1] = mulx a b | mulx rax, r10, rcx; mov [rdi], r10; mov [rdi + 8], rax; ret | proved
o[0] o[1] = mulx a b | mulx r10, rax, rcx; mov [rdi], r10; mov [rdi + 8], rax; ret | output 0 21 22
o[0] o[1] = mulx a x[1] | mulx rax, r10, [r8 + 8]; mov [rdi], r10; mov [rdi + 8], rax; ret | proved
o[0] o[1] = mulx a x[1] | mulx rax, r10, [r8]; mov [rdi], r10; mov [rdi + 8], rax; ret | output 0 21 23
o[0] o[1] = mulx a b | mov rax, rdx; mul rcx; mov [rdi], rax; mov [rdi + 8], rdx; ret | proved
o[0] o[1] = mulx a b | mul rcx; mov [rdi], rax; mov [rdi + 8], rdx; ret | output 0 21 23
o[0] o[1] = mulx a b | clc; mul rcx; adc rax, rax; ret | stuck 3
o[0] = * a b | imul rdx, rcx; mov [rdi], rdx; ret | proved
o[0] = * a b | imul rdx, rdx; mov [rdi], rdx; ret | output 0 21 22
o[0] = * a b | clc; imul rdx, rcx; adc rax, rax; ret | stuck 3
o[0] = << a 3 | shl rdx, 3; mov [rdi], rdx; ret | proved
o[0] = << a 3 | shl rdx, 2; mov [rdi], rdx; ret | output 0 21 22
o[0] = << a 3 | clc; shl rdx, 3; adc rax, rax; ret | stuck 3
o[0] = >> a 3 | shr rdx, 3; mov [rdi], rdx; ret | proved
o[0] = >> a 3 | shr rdx, 2; mov [rdi], rdx; ret | output 0 21 22
o[0] = shrd a b 3 | shrd rdx, rcx, 3; mov [rdi], rdx; ret | proved
o[0] = shrd a b 3 | shrd rcx, rdx, 3; mov [rdi], rcx; ret | output 0 23 26
o[0] = << a 3 | mov rax, 3; shlx rdx, rdx, rax; mov [rdi], rdx; ret | proved
o[0] = << a 3 | mov rax, 67; shlx rdx, rdx, rax; mov [rdi], rdx; ret | proved
o[0] = << a 3 | mov rax, 2; shlx rdx, rdx, rax; mov [rdi], rdx; ret | output 0 21 23
o[0] = << a 3 | shlx rdx, rdx, rcx; mov [rdi], rdx; ret | stuck 1
o[0] = >> a 3 | mov rax, 3; shrx rdx, rdx, rax; mov [rdi], rdx; ret | proved
o[0] = >> a 3 | mov rax, 67; shrx rdx, rdx, rax; mov [rdi], rdx; ret | proved
o[0] = >> a 3 | mov rax, 2; shrx rdx, rdx, rax; mov [rdi], rdx; ret | output 0 21 23
o[0] = >> a 3 | shrx rdx, rdx, rcx; mov [rdi], rdx; ret | stuck 1
o[0] = = a | mov rax, 64; shrx rdx, rdx, rax; mov [rdi], rdx; ret | proved
o[0] = & a 255 | movzx rdx, dl; mov [rdi], rdx; ret | proved
o[0] = & a 255 | movzx rdx, cl; mov [rdi], rdx; ret | output 0 22 23";

// The same for `setcc`, whose bit `movzx` takes out of its byte again, and `cmovcc`.
const CONDITION_ROWS: &str = "\
o[0] o[1] = addcarryx 0 a b | add rdx, rcx; mov [rdi], rdx; setc al; movzx rax, al; mov [rdi + 8], rax; ret | proved
o[0] o[1] = addcarryx 0 a b | add rdx, rcx; mov [rdi], rdx; setnc al; movzx rax, al; mov [rdi + 8], rax; ret \
    | output 1 23 25
o[0] o[1] = addcarryx 0 a b | add rdx, rcx; mov [rdi], rdx; setnc al; movzx rax, al; mov r10, 1; sub r10, rax; \
    mov [rdi + 8], r10; ret | proved
o[0] o[1] = addcarryx 0 a b | test rax, rax; adox rdx, rcx; mov [rdi], rdx; seto al; movzx rax, al; \
    mov [rdi + 8], rax; ret | proved
o[0] o[1] = addcarryx 0 a b | test rax, rax; adox rdx, rcx; mov [rdi], rdx; setno al; movzx rax, al; \
    mov [rdi + 8], rax; ret | output 1 23 25
o[0] o[1] = addcarryx 0 a b | test rax, rax; adox rdx, rcx; mov [rdi], rdx; setno al; movzx rax, al; mov r10, 1; \
    sub r10, rax; mov [rdi + 8], r10; ret | proved
o[0] = = a | seto al; ret | stuck 1
o[0] = cmovznz c a b | test rsi, rsi; setz al; movzx rax, al; add rax, -1; cmovc rcx, rdx; mov [rdi], rcx; ret | proved
o[0] = cmovznz c a b | test rsi, rsi; setnz al; movzx rax, al; mov r10, 1; sub r10, rax; add r10, -1; cmovc rcx, rdx; \
    mov [rdi], rcx; ret | proved
o[0] = cmovznz c a b | test rsi, rsi; cmovnz rdx, rcx; mov [rdi], rdx; ret | proved
o[0] = cmovznz c a b | test rsi, rsi; cmovz rcx, rdx; mov [rdi], rcx; ret | proved
o[0] = cmovznz c a b | test rsi, rsi; cmovz rdx, rcx; mov [rdi], rdx; ret | output 0 21 24
o[0] = cmovznz c a b | add rsi, -1; cmovc rdx, rcx; mov [rdi], rdx; ret | proved
o[0] = cmovznz c a b | add rsi, -1; cmovnc rcx, rdx; mov [rdi], rcx; ret | proved
o[0] = cmovznz c a b | add rsi, -1; cmovnc rdx, rcx; mov [rdi], rdx; ret | output 0 21 25
o[0] = cmovznz c a b | test rax, rax; mov rax, 18446744073709551615; adox rsi, rax; cmovo rdx, rcx; mov [rdi], rdx; \
    ret | proved
o[0] = cmovznz c a b | test rax, rax; mov rax, 18446744073709551615; adox rsi, rax; cmovno rcx, rdx; mov [rdi], rcx; \
    ret | proved
o[0] = cmovznz c a x[1] | test rsi, rsi; cmovnz rdx, [r8 + 8]; mov [rdi], rdx; ret | proved
o[0] = cmovznz c a b | test rsi, rsi; cmovz rdx, [r8 + 16]; ret | stuck 2
o[0] = cmovznz c a b | cmovz rdx, rcx; ret | stuck 1";

// The first row whose check ends with another verdict than the row's.
fn failing_row(alloc: Global, rows: &'static str) -> Result<Option<&'static str>, Fail> {
    for row in rows.lines() {
        let Some((operations, lines, verdict)) = parts_of(row) else {
            return Ok(Some(row));
        };
        let program = program_text(alloc, operations)?;
        if !gives(alloc, program.as_str(), lines, verdict)? {
            return Ok(Some(row));
        }
    }
    Ok(None)
}

#[test]
fn each_plain_instruction_is_checked(rt: HostRuntime) -> Result<(), Fail> {
    let failing = failing_row(rt.alloc(), ROWS)?;
    assert!(rt; failing.is_none(), "{}", failing.unwrap_or(""));
    Ok(())
}

#[test]
fn each_further_instruction_is_checked(rt: HostRuntime) -> Result<(), Fail> {
    let failing = failing_row(rt.alloc(), FURTHER_ROWS)?;
    assert!(rt; failing.is_none(), "{}", failing.unwrap_or(""));
    Ok(())
}

#[test]
fn each_condition_is_checked(rt: HostRuntime) -> Result<(), Fail> {
    let failing = failing_row(rt.alloc(), CONDITION_ROWS)?;
    assert!(rt; failing.is_none(), "{}", failing.unwrap_or(""));
    Ok(())
}
