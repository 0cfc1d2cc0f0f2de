//! Operations, each with the number of a template, the bytes of the frame, the words of the output, the results and
//! the arguments, and behind these the lines of its block. The parameters are the output `out1`, a bit `c` and two
//! words `a` and `b`, in the slots 0 to 3, and the results have the slots behind them.

/// Sums and differences with a carry or borrow.
pub const SUMS: &str = r"
@addcarryx 0 48 2 out1[0],out1[1] c,a,b
mov r10, qword ptr [rsp + 8]
mov rax, qword ptr [rsp + 16]
mov rcx, qword ptr [rsp + 24]
add r10, -1
adc rax, rcx # 0
setc r10b
movzx r10, r10b
mov r11, qword ptr [rsp]
mov qword ptr [r11], rax
mov r11, qword ptr [rsp]
mov qword ptr [r11 + 8], r10
@addcarryx 1 48 2 out1[0],out1[1] c,a,b
mov r10, qword ptr [rsp + 8]
mov rax, qword ptr [rsp + 16]
mov rcx, qword ptr [rsp + 24]
add r10, -1
adcx rax, rcx # 0
setc r10b
movzx r10, r10b
mov r11, qword ptr [rsp]
mov qword ptr [r11], rax
mov r11, qword ptr [rsp]
mov qword ptr [r11 + 8], r10
@addcarryx 2 48 2 out1[0],out1[1] c,a,b
mov r10, qword ptr [rsp + 8]
mov rax, qword ptr [rsp + 16]
mov rcx, qword ptr [rsp + 24]
mov r11, 9223372036854775806
lea r10, [r10 + r11*1]
inc r10
adox rax, rcx # 0
seto r10b
movzx r10, r10b
mov r11, qword ptr [rsp]
mov qword ptr [r11], rax
mov r11, qword ptr [rsp]
mov qword ptr [r11 + 8], r10
@addcarryx 3 48 2 out1[0],out1[1] 0,a,b
mov rax, qword ptr [rsp + 16]
mov rcx, qword ptr [rsp + 24]
add rax, rcx # 0
setc r10b
movzx r10, r10b
mov r11, qword ptr [rsp]
mov qword ptr [r11], rax
mov r11, qword ptr [rsp]
mov qword ptr [r11 + 8], r10
@addcarryx 4 48 1 out1[0],_ 0,a,b
mov rax, qword ptr [rsp + 16]
mov rcx, qword ptr [rsp + 24]
lea rax, [rax + rcx*1] # 0
mov r11, qword ptr [rsp]
mov qword ptr [r11], rax
@subborrowx 0 48 2 out1[0],out1[1] c,a,b
mov r10, qword ptr [rsp + 8]
mov rax, qword ptr [rsp + 16]
mov rcx, qword ptr [rsp + 24]
add r10, -1
sbb rax, rcx # 0
setc r10b
movzx r10, r10b
mov r11, qword ptr [rsp]
mov qword ptr [r11], rax
mov r11, qword ptr [rsp]
mov qword ptr [r11 + 8], r10
@subborrowx 1 48 2 out1[0],out1[1] 0,a,b
mov rax, qword ptr [rsp + 16]
mov rcx, qword ptr [rsp + 24]
sub rax, rcx # 0
setc r10b
movzx r10, r10b
mov r11, qword ptr [rsp]
mov qword ptr [r11], rax
mov r11, qword ptr [rsp]
mov qword ptr [r11 + 8], r10
";

/// Products.
pub const PRODUCTS: &str = r"
@mulx 0 48 2 out1[0],out1[1] a,b
mov rdx, qword ptr [rsp + 16]
mov rcx, qword ptr [rsp + 24]
mulx r10, rax, rcx # 0
mov r11, qword ptr [rsp]
mov qword ptr [r11], rax
mov r11, qword ptr [rsp]
mov qword ptr [r11 + 8], r10
@mulx 1 48 2 out1[0],out1[1] a,b
mov rax, qword ptr [rsp + 16]
mov rcx, qword ptr [rsp + 24]
mul rcx # 0
mov r11, qword ptr [rsp]
mov qword ptr [r11], rax
mov r11, qword ptr [rsp]
mov qword ptr [r11 + 8], rdx
@* 0 40 1 out1[0] a,b
mov rax, qword ptr [rsp + 16]
mov rcx, qword ptr [rsp + 24]
imul rax, rcx # 0
mov r11, qword ptr [rsp]
mov qword ptr [r11], rax
@* 1 40 1 out1[0] a,b
mov rdx, qword ptr [rsp + 16]
mov rcx, qword ptr [rsp + 24]
mulx r10, rax, rcx # 0
mov r11, qword ptr [rsp]
mov qword ptr [r11], rax
";

/// Operations on words.
pub const WORDS: &str = r"
@+ 0 40 1 out1[0] a,b
mov rax, qword ptr [rsp + 16]
mov rcx, qword ptr [rsp + 24]
add rax, rcx # 0
mov r11, qword ptr [rsp]
mov qword ptr [r11], rax
@+ 1 40 1 out1[0] a,b
mov rax, qword ptr [rsp + 16]
mov rcx, qword ptr [rsp + 24]
lea rax, [rax + rcx*1] # 0
mov r11, qword ptr [rsp]
mov qword ptr [r11], rax
@- 0 40 1 out1[0] a,b
mov rax, qword ptr [rsp + 16]
mov rcx, qword ptr [rsp + 24]
sub rax, rcx # 0
mov r11, qword ptr [rsp]
mov qword ptr [r11], rax
@& 0 40 1 out1[0] a,b
mov rax, qword ptr [rsp + 16]
mov rcx, qword ptr [rsp + 24]
and rax, rcx # 0
mov r11, qword ptr [rsp]
mov qword ptr [r11], rax
@| 0 40 1 out1[0] a,b
mov rax, qword ptr [rsp + 16]
mov rcx, qword ptr [rsp + 24]
or rax, rcx # 0
mov r11, qword ptr [rsp]
mov qword ptr [r11], rax
@^ 0 40 1 out1[0] a,b
mov rax, qword ptr [rsp + 16]
mov rcx, qword ptr [rsp + 24]
xor rax, rcx # 0
mov r11, qword ptr [rsp]
mov qword ptr [r11], rax
@~ 0 40 1 out1[0] a
mov rax, qword ptr [rsp + 16]
not rax # 0
mov r11, qword ptr [rsp]
mov qword ptr [r11], rax
@= 0 40 1 out1[0] a
mov rcx, qword ptr [rsp + 16]
mov rax, rcx # 0
mov r11, qword ptr [rsp]
mov qword ptr [r11], rax
";

/// Shifts and choices.
pub const SHIFTS: &str = r"
@<< 0 40 1 out1[0] a,5
mov rax, qword ptr [rsp + 16]
shl rax, 5 # 0
mov r11, qword ptr [rsp]
mov qword ptr [r11], rax
@<< 1 40 1 out1[0] a,5
mov rax, qword ptr [rsp + 16]
mov rcx, 5
shlx rax, rax, rcx # 0
mov r11, qword ptr [rsp]
mov qword ptr [r11], rax
@>> 0 40 1 out1[0] a,5
mov rax, qword ptr [rsp + 16]
shr rax, 5 # 0
mov r11, qword ptr [rsp]
mov qword ptr [r11], rax
@>> 1 40 1 out1[0] a,5
mov rax, qword ptr [rsp + 16]
mov rcx, 5
shrx rax, rax, rcx # 0
mov r11, qword ptr [rsp]
mov qword ptr [r11], rax
@shrd 0 40 1 out1[0] a,b,5
mov rax, qword ptr [rsp + 16]
mov rcx, qword ptr [rsp + 24]
shrd rax, rcx, 5 # 0
mov r11, qword ptr [rsp]
mov qword ptr [r11], rax
@shrd 1 40 1 out1[0] a,b,5
mov rax, qword ptr [rsp + 16]
mov rcx, qword ptr [rsp + 24]
mov r10, 5
shrx rax, rax, r10 # 0
mov r10, 59
shlx rcx, rcx, r10 # 0
lea rax, [rax + rcx*1] # 0
mov r11, qword ptr [rsp]
mov qword ptr [r11], rax
@cmovznz 0 40 1 out1[0] c,a,b
mov r10, qword ptr [rsp + 8]
mov rax, qword ptr [rsp + 16]
mov rcx, qword ptr [rsp + 24]
test r10, r10 # 0
cmovnz rax, rcx # 0
mov r11, qword ptr [rsp]
mov qword ptr [r11], rax
@cmovznz 1 40 1 out1[0] c,a,b
mov r10, qword ptr [rsp + 8]
mov rax, qword ptr [rsp + 16]
mov rcx, qword ptr [rsp + 24]
add r10, -1
cmovc rax, rcx # 0
mov r11, qword ptr [rsp]
mov qword ptr [r11], rax
";
