//! What each instruction that computes does at all edges of its operands: 0, 1, 2^63 - 1, 2^63 and 2^64 - 1.
//! The words and flags were taken from a processor, the flags that its manual leaves undefined apart.

// A row is an instruction, in which `S` stands for a register, the cell or, where both operands are equal, the
// destination, and `R` for a register; the register that is looked at; the flags CF, OF and ZF before it, of
// which `u` is undefined; the other operand; and for each edge as the source the word, in hexadecimal, and the
// flags after it. The other operand is in `rax` and in `rdx`.
pub const EDGES: &[&str] = &[
    "add rax, S | rax | uuu | 0 | 0 001 1 000 7fffffffffffffff 000 8000000000000000 000 ffffffffffffffff 000",
    "add rax, S | rax | uuu | 1 | 1 000 2 000 8000000000000000 010 8000000000000001 000 0 101",
    "add rax, S | rax | uuu | 7fffffffffffffff | \
     7fffffffffffffff 000 8000000000000000 010 fffffffffffffffe 010 ffffffffffffffff 000 7ffffffffffffffe 100",
    "add rax, S | rax | uuu | 8000000000000000 | \
     8000000000000000 000 8000000000000001 000 ffffffffffffffff 000 0 111 7fffffffffffffff 110",
    "add rax, S | rax | uuu | ffffffffffffffff | \
     ffffffffffffffff 000 0 101 7ffffffffffffffe 100 7fffffffffffffff 110 fffffffffffffffe 100",
    "adc rax, S | rax | 0uu | 0 | 0 001 1 000 7fffffffffffffff 000 8000000000000000 000 ffffffffffffffff 000",
    "adc rax, S | rax | 0uu | 1 | 1 000 2 000 8000000000000000 010 8000000000000001 000 0 101",
    "adc rax, S | rax | 0uu | 7fffffffffffffff | \
     7fffffffffffffff 000 8000000000000000 010 fffffffffffffffe 010 ffffffffffffffff 000 7ffffffffffffffe 100",
    "adc rax, S | rax | 0uu | 8000000000000000 | \
     8000000000000000 000 8000000000000001 000 ffffffffffffffff 000 0 111 7fffffffffffffff 110",
    "adc rax, S | rax | 0uu | ffffffffffffffff | \
     ffffffffffffffff 000 0 101 7ffffffffffffffe 100 7fffffffffffffff 110 fffffffffffffffe 100",
    "adc rax, S | rax | 1uu | 0 | 1 000 2 000 8000000000000000 010 8000000000000001 000 0 101",
    "adc rax, S | rax | 1uu | 1 | 2 000 3 000 8000000000000001 010 8000000000000002 000 1 100",
    "adc rax, S | rax | 1uu | 7fffffffffffffff | \
     8000000000000000 010 8000000000000001 010 ffffffffffffffff 010 0 101 7fffffffffffffff 100",
    "adc rax, S | rax | 1uu | 8000000000000000 | \
     8000000000000001 000 8000000000000002 000 0 101 1 110 8000000000000000 100",
    "adc rax, S | rax | 1uu | ffffffffffffffff | \
     0 101 1 100 7fffffffffffffff 100 8000000000000000 100 ffffffffffffffff 100",
    "sub rax, S | rax | uuu | 0 | 0 001 ffffffffffffffff 100 8000000000000001 100 8000000000000000 110 1 100",
    "sub rax, S | rax | uuu | 1 | 1 000 0 001 8000000000000002 100 8000000000000001 110 2 100",
    "sub rax, S | rax | uuu | 7fffffffffffffff | \
     7fffffffffffffff 000 7ffffffffffffffe 000 0 001 ffffffffffffffff 110 8000000000000000 110",
    "sub rax, S | rax | uuu | 8000000000000000 | \
     8000000000000000 000 7fffffffffffffff 010 1 010 0 001 8000000000000001 100",
    "sub rax, S | rax | uuu | ffffffffffffffff | \
     ffffffffffffffff 000 fffffffffffffffe 000 8000000000000000 000 7fffffffffffffff 000 0 001",
    "sbb rax, S | rax | 0uu | 0 | 0 001 ffffffffffffffff 100 8000000000000001 100 8000000000000000 110 1 100",
    "sbb rax, S | rax | 0uu | 1 | 1 000 0 001 8000000000000002 100 8000000000000001 110 2 100",
    "sbb rax, S | rax | 0uu | 7fffffffffffffff | \
     7fffffffffffffff 000 7ffffffffffffffe 000 0 001 ffffffffffffffff 110 8000000000000000 110",
    "sbb rax, S | rax | 0uu | 8000000000000000 | \
     8000000000000000 000 7fffffffffffffff 010 1 010 0 001 8000000000000001 100",
    "sbb rax, S | rax | 0uu | ffffffffffffffff | \
     ffffffffffffffff 000 fffffffffffffffe 000 8000000000000000 000 7fffffffffffffff 000 0 001",
    "sbb rax, S | rax | 1uu | 0 | \
     ffffffffffffffff 100 fffffffffffffffe 100 8000000000000000 100 7fffffffffffffff 100 0 101",
    "sbb rax, S | rax | 1uu | 1 | 0 001 ffffffffffffffff 100 8000000000000001 100 8000000000000000 110 1 100",
    "sbb rax, S | rax | 1uu | 7fffffffffffffff | \
     7ffffffffffffffe 000 7ffffffffffffffd 000 ffffffffffffffff 100 fffffffffffffffe 110 7fffffffffffffff 100",
    "sbb rax, S | rax | 1uu | 8000000000000000 | \
     7fffffffffffffff 010 7ffffffffffffffe 010 0 011 ffffffffffffffff 100 8000000000000000 100",
    "sbb rax, S | rax | 1uu | ffffffffffffffff | \
     fffffffffffffffe 000 fffffffffffffffd 000 7fffffffffffffff 010 7ffffffffffffffe 000 ffffffffffffffff 100",
    "cmp rax, S | rax | uuu | 0 | 0 001 0 100 0 100 0 110 0 100",
    "cmp rax, S | rax | uuu | 1 | 1 000 1 001 1 100 1 110 1 100",
    "cmp rax, S | rax | uuu | 7fffffffffffffff | \
     7fffffffffffffff 000 7fffffffffffffff 000 7fffffffffffffff 001 7fffffffffffffff 110 7fffffffffffffff 110",
    "cmp rax, S | rax | uuu | 8000000000000000 | \
     8000000000000000 000 8000000000000000 010 8000000000000000 010 8000000000000000 001 8000000000000000 100",
    "cmp rax, S | rax | uuu | ffffffffffffffff | \
     ffffffffffffffff 000 ffffffffffffffff 000 ffffffffffffffff 000 ffffffffffffffff 000 ffffffffffffffff 001",
    "and rax, S | rax | uuu | 0 | 0 001 0 001 0 001 0 001 0 001",
    "and rax, S | rax | uuu | 1 | 0 001 1 000 1 000 0 001 1 000",
    "and rax, S | rax | uuu | 7fffffffffffffff | 0 001 1 000 7fffffffffffffff 000 0 001 7fffffffffffffff 000",
    "and rax, S | rax | uuu | 8000000000000000 | 0 001 0 001 0 001 8000000000000000 000 8000000000000000 000",
    "and rax, S | rax | uuu | ffffffffffffffff | \
     0 001 1 000 7fffffffffffffff 000 8000000000000000 000 ffffffffffffffff 000",
    "or rax, S | rax | uuu | 0 | 0 001 1 000 7fffffffffffffff 000 8000000000000000 000 ffffffffffffffff 000",
    "or rax, S | rax | uuu | 1 | 1 000 1 000 7fffffffffffffff 000 8000000000000001 000 ffffffffffffffff 000",
    "or rax, S | rax | uuu | 7fffffffffffffff | \
     7fffffffffffffff 000 7fffffffffffffff 000 7fffffffffffffff 000 ffffffffffffffff 000 ffffffffffffffff 000",
    "or rax, S | rax | uuu | 8000000000000000 | \
     8000000000000000 000 8000000000000001 000 ffffffffffffffff 000 8000000000000000 000 ffffffffffffffff 000",
    "or rax, S | rax | uuu | ffffffffffffffff | \
     ffffffffffffffff 000 ffffffffffffffff 000 ffffffffffffffff 000 ffffffffffffffff 000 ffffffffffffffff 000",
    "xor rax, S | rax | uuu | 0 | 0 001 1 000 7fffffffffffffff 000 8000000000000000 000 ffffffffffffffff 000",
    "xor rax, S | rax | uuu | 1 | 1 000 0 001 7ffffffffffffffe 000 8000000000000001 000 fffffffffffffffe 000",
    "xor rax, S | rax | uuu | 7fffffffffffffff | \
     7fffffffffffffff 000 7ffffffffffffffe 000 0 001 ffffffffffffffff 000 8000000000000000 000",
    "xor rax, S | rax | uuu | 8000000000000000 | \
     8000000000000000 000 8000000000000001 000 ffffffffffffffff 000 0 001 7fffffffffffffff 000",
    "xor rax, S | rax | uuu | ffffffffffffffff | \
     ffffffffffffffff 000 fffffffffffffffe 000 8000000000000000 000 7fffffffffffffff 000 0 001",
    "test rax, R | rax | uuu | 0 | 0 001 0 001 0 001 0 001 0 001",
    "test rax, R | rax | uuu | 1 | 1 001 1 000 1 000 1 001 1 000",
    "test rax, R | rax | uuu | 7fffffffffffffff | \
     7fffffffffffffff 001 7fffffffffffffff 000 7fffffffffffffff 000 7fffffffffffffff 001 7fffffffffffffff 000",
    "test rax, R | rax | uuu | 8000000000000000 | \
     8000000000000000 001 8000000000000000 001 8000000000000000 001 8000000000000000 000 8000000000000000 000",
    "test rax, R | rax | uuu | ffffffffffffffff | \
     ffffffffffffffff 001 ffffffffffffffff 000 ffffffffffffffff 000 ffffffffffffffff 000 ffffffffffffffff 000",
    "adcx rax, S | rax | 0u1 | 0 | 0 0u1 1 0u1 7fffffffffffffff 0u1 8000000000000000 0u1 ffffffffffffffff 0u1",
    "adcx rax, S | rax | 0u1 | 1 | 1 0u1 2 0u1 8000000000000000 0u1 8000000000000001 0u1 0 1u1",
    "adcx rax, S | rax | 0u1 | 7fffffffffffffff | \
     7fffffffffffffff 0u1 8000000000000000 0u1 fffffffffffffffe 0u1 ffffffffffffffff 0u1 7ffffffffffffffe 1u1",
    "adcx rax, S | rax | 0u1 | 8000000000000000 | \
     8000000000000000 0u1 8000000000000001 0u1 ffffffffffffffff 0u1 0 1u1 7fffffffffffffff 1u1",
    "adcx rax, S | rax | 0u1 | ffffffffffffffff | \
     ffffffffffffffff 0u1 0 1u1 7ffffffffffffffe 1u1 7fffffffffffffff 1u1 fffffffffffffffe 1u1",
    "adcx rax, S | rax | 10u | 0 | 1 00u 2 00u 8000000000000000 00u 8000000000000001 00u 0 10u",
    "adcx rax, S | rax | 10u | 1 | 2 00u 3 00u 8000000000000001 00u 8000000000000002 00u 1 10u",
    "adcx rax, S | rax | 10u | 7fffffffffffffff | \
     8000000000000000 00u 8000000000000001 00u ffffffffffffffff 00u 0 10u 7fffffffffffffff 10u",
    "adcx rax, S | rax | 10u | 8000000000000000 | \
     8000000000000001 00u 8000000000000002 00u 0 10u 1 10u 8000000000000000 10u",
    "adcx rax, S | rax | 10u | ffffffffffffffff | \
     0 10u 1 10u 7fffffffffffffff 10u 8000000000000000 10u ffffffffffffffff 10u",
    "adox rax, S | rax | u01 | 0 | 0 u01 1 u01 7fffffffffffffff u01 8000000000000000 u01 ffffffffffffffff u01",
    "adox rax, S | rax | u01 | 1 | 1 u01 2 u01 8000000000000000 u01 8000000000000001 u01 0 u11",
    "adox rax, S | rax | u01 | 7fffffffffffffff | \
     7fffffffffffffff u01 8000000000000000 u01 fffffffffffffffe u01 ffffffffffffffff u01 7ffffffffffffffe u11",
    "adox rax, S | rax | u01 | 8000000000000000 | \
     8000000000000000 u01 8000000000000001 u01 ffffffffffffffff u01 0 u11 7fffffffffffffff u11",
    "adox rax, S | rax | u01 | ffffffffffffffff | \
     ffffffffffffffff u01 0 u11 7ffffffffffffffe u11 7fffffffffffffff u11 fffffffffffffffe u11",
    "adox rax, S | rax | 01u | 0 | 1 00u 2 00u 8000000000000000 00u 8000000000000001 00u 0 01u",
    "adox rax, S | rax | 01u | 1 | 2 00u 3 00u 8000000000000001 00u 8000000000000002 00u 1 01u",
    "adox rax, S | rax | 01u | 7fffffffffffffff | \
     8000000000000000 00u 8000000000000001 00u ffffffffffffffff 00u 0 01u 7fffffffffffffff 01u",
    "adox rax, S | rax | 01u | 8000000000000000 | \
     8000000000000001 00u 8000000000000002 00u 0 01u 1 01u 8000000000000000 01u",
    "adox rax, S | rax | 01u | ffffffffffffffff | \
     0 01u 1 01u 7fffffffffffffff 01u 8000000000000000 01u ffffffffffffffff 01u",
    "mulx rax, r10, S | rax | 01u | 0 | 0 01u 0 01u 0 01u 0 01u 0 01u",
    "mulx rax, r10, S | rax | 01u | 1 | 0 01u 0 01u 0 01u 0 01u 0 01u",
    "mulx rax, r10, S | rax | 01u | 7fffffffffffffff | \
     0 01u 0 01u 3fffffffffffffff 01u 3fffffffffffffff 01u 7ffffffffffffffe 01u",
    "mulx rax, r10, S | rax | 01u | 8000000000000000 | \
     0 01u 0 01u 3fffffffffffffff 01u 4000000000000000 01u 7fffffffffffffff 01u",
    "mulx rax, r10, S | rax | 01u | ffffffffffffffff | \
     0 01u 0 01u 7ffffffffffffffe 01u 7fffffffffffffff 01u fffffffffffffffe 01u",
    "mulx r10, rax, S | rax | 1u0 | 0 | 0 1u0 0 1u0 0 1u0 0 1u0 0 1u0",
    "mulx r10, rax, S | rax | 1u0 | 1 | 0 1u0 1 1u0 7fffffffffffffff 1u0 8000000000000000 1u0 ffffffffffffffff 1u0",
    "mulx r10, rax, S | rax | 1u0 | 7fffffffffffffff | \
     0 1u0 7fffffffffffffff 1u0 1 1u0 8000000000000000 1u0 8000000000000001 1u0",
    "mulx r10, rax, S | rax | 1u0 | 8000000000000000 | \
     0 1u0 8000000000000000 1u0 8000000000000000 1u0 0 1u0 8000000000000000 1u0",
    "mulx r10, rax, S | rax | 1u0 | ffffffffffffffff | \
     0 1u0 ffffffffffffffff 1u0 8000000000000001 1u0 8000000000000000 1u0 1 1u0",
    "mul S | rdx | uuu | 0 | 0 00u 0 00u 0 00u 0 00u 0 00u",
    "mul S | rdx | uuu | 1 | 0 00u 0 00u 0 00u 0 00u 0 00u",
    "mul S | rdx | uuu | 7fffffffffffffff | 0 00u 0 00u 3fffffffffffffff 11u 3fffffffffffffff 11u 7ffffffffffffffe 11u",
    "mul S | rdx | uuu | 8000000000000000 | 0 00u 0 00u 3fffffffffffffff 11u 4000000000000000 11u 7fffffffffffffff 11u",
    "mul S | rdx | uuu | ffffffffffffffff | 0 00u 0 00u 7ffffffffffffffe 11u 7fffffffffffffff 11u fffffffffffffffe 11u",
    "mul S | rax | uuu | 0 | 0 00u 0 00u 0 00u 0 00u 0 00u",
    "mul S | rax | uuu | 1 | 0 00u 1 00u 7fffffffffffffff 00u 8000000000000000 00u ffffffffffffffff 00u",
    "mul S | rax | uuu | 7fffffffffffffff | 0 00u 7fffffffffffffff 00u 1 11u 8000000000000000 11u 8000000000000001 11u",
    "mul S | rax | uuu | 8000000000000000 | 0 00u 8000000000000000 00u 8000000000000000 11u 0 11u 8000000000000000 11u",
    "mul S | rax | uuu | ffffffffffffffff | 0 00u ffffffffffffffff 00u 8000000000000001 11u 8000000000000000 11u 1 11u",
    "imul rax, S | rax | 000 | 0 | 0 uuu 0 uuu 0 uuu 0 uuu 0 uuu",
    "imul rax, S | rax | 000 | 1 | 0 uuu 1 uuu 7fffffffffffffff uuu 8000000000000000 uuu ffffffffffffffff uuu",
    "imul rax, S | rax | 000 | 7fffffffffffffff | \
     0 uuu 7fffffffffffffff uuu 1 uuu 8000000000000000 uuu 8000000000000001 uuu",
    "imul rax, S | rax | 000 | 8000000000000000 | \
     0 uuu 8000000000000000 uuu 8000000000000000 uuu 0 uuu 8000000000000000 uuu",
    "imul rax, S | rax | 000 | ffffffffffffffff | \
     0 uuu ffffffffffffffff uuu 8000000000000001 uuu 8000000000000000 uuu 1 uuu",
    "shlx rax, S, rdx | rax | u10 | 0 | 0 u10 1 u10 7fffffffffffffff u10 8000000000000000 u10 ffffffffffffffff u10",
    "shlx rax, S, rdx | rax | u10 | 1 | 0 u10 2 u10 fffffffffffffffe u10 0 u10 fffffffffffffffe u10",
    "shlx rax, S, rdx | rax | u10 | 7fffffffffffffff | \
     0 u10 8000000000000000 u10 8000000000000000 u10 0 u10 8000000000000000 u10",
    "shlx rax, S, rdx | rax | u10 | 8000000000000000 | \
     0 u10 1 u10 7fffffffffffffff u10 8000000000000000 u10 ffffffffffffffff u10",
    "shlx rax, S, rdx | rax | u10 | ffffffffffffffff | \
     0 u10 8000000000000000 u10 8000000000000000 u10 0 u10 8000000000000000 u10",
    "shrx rax, S, rdx | rax | 0u1 | 0 | 0 0u1 1 0u1 7fffffffffffffff 0u1 8000000000000000 0u1 ffffffffffffffff 0u1",
    "shrx rax, S, rdx | rax | 0u1 | 1 | 0 0u1 0 0u1 3fffffffffffffff 0u1 4000000000000000 0u1 7fffffffffffffff 0u1",
    "shrx rax, S, rdx | rax | 0u1 | 7fffffffffffffff | 0 0u1 0 0u1 0 0u1 1 0u1 1 0u1",
    "shrx rax, S, rdx | rax | 0u1 | 8000000000000000 | \
     0 0u1 1 0u1 7fffffffffffffff 0u1 8000000000000000 0u1 ffffffffffffffff 0u1",
    "shrx rax, S, rdx | rax | 0u1 | ffffffffffffffff | 0 0u1 0 0u1 0 0u1 1 0u1 1 0u1",
    "shrd rax, R, 1 | rax | 111 | 0 | 0 0u1 8000000000000000 0u0 8000000000000000 0u0 0 0u1 8000000000000000 0u0",
    "shrd rax, R, 1 | rax | 111 | 1 | 0 1u1 8000000000000000 1u0 8000000000000000 1u0 0 1u1 8000000000000000 1u0",
    "shrd rax, R, 1 | rax | 111 | 7fffffffffffffff | \
     3fffffffffffffff 1u0 bfffffffffffffff 1u0 bfffffffffffffff 1u0 3fffffffffffffff 1u0 bfffffffffffffff 1u0",
    "shrd rax, R, 1 | rax | 111 | 8000000000000000 | \
     4000000000000000 0u0 c000000000000000 0u0 c000000000000000 0u0 4000000000000000 0u0 c000000000000000 0u0",
    "shrd rax, R, 1 | rax | 111 | ffffffffffffffff | \
     7fffffffffffffff 1u0 ffffffffffffffff 1u0 ffffffffffffffff 1u0 7fffffffffffffff 1u0 ffffffffffffffff 1u0",
    "shrd rax, R, 63 | rax | 000 | 0 | 0 0u1 2 0u0 fffffffffffffffe 0u0 0 0u1 fffffffffffffffe 0u0",
    "shrd rax, R, 63 | rax | 000 | 1 | 0 0u1 2 0u0 fffffffffffffffe 0u0 0 0u1 fffffffffffffffe 0u0",
    "shrd rax, R, 63 | rax | 000 | 7fffffffffffffff | 0 1u1 2 1u0 fffffffffffffffe 1u0 0 1u1 fffffffffffffffe 1u0",
    "shrd rax, R, 63 | rax | 000 | 8000000000000000 | 1 0u0 3 0u0 ffffffffffffffff 0u0 1 0u0 ffffffffffffffff 0u0",
    "shrd rax, R, 63 | rax | 000 | ffffffffffffffff | 1 1u0 3 1u0 ffffffffffffffff 1u0 1 1u0 ffffffffffffffff 1u0",
    "inc rcx | rcx | uuu | 5 | 1 u00 2 u00 8000000000000000 u10 8000000000000001 u00 0 u01",
    "dec rcx | rcx | 1uu | 5 | \
     ffffffffffffffff 100 0 101 7ffffffffffffffe 100 7fffffffffffffff 110 fffffffffffffffe 100",
    "neg rcx | rcx | uuu | 5 | 0 001 ffffffffffffffff 100 8000000000000001 100 8000000000000000 110 1 100",
    "not rcx | rcx | 0u1 | 5 | \
     ffffffffffffffff 0u1 fffffffffffffffe 0u1 8000000000000000 0u1 7fffffffffffffff 0u1 0 0u1",
    "shl rcx, 1 | rcx | 111 | 5 | 0 0u1 2 0u0 fffffffffffffffe 0u0 0 1u1 fffffffffffffffe 1u0",
    "shl rcx, 63 | rcx | 000 | 5 | 0 0u1 8000000000000000 0u0 8000000000000000 1u0 0 0u1 8000000000000000 1u0",
    "shr rcx, 1 | rcx | 111 | 5 | 0 0u1 0 1u1 3fffffffffffffff 1u0 4000000000000000 0u0 7fffffffffffffff 1u0",
    "shr rcx, 63 | rcx | 000 | 5 | 0 0u1 0 0u1 0 1u1 1 0u0 1 1u0",
    "add rcx, -1 | rcx | uuu | 5 | \
     ffffffffffffffff 000 0 101 7ffffffffffffffe 100 7fffffffffffffff 110 fffffffffffffffe 100",
    "sub rcx, -2147483648 | rcx | uuu | 5 | \
     80000000 100 80000001 100 800000007fffffff 110 8000000080000000 100 7fffffff 000",
    "and rcx, -2147483648 | rcx | uuu | 5 | 0 001 0 001 7fffffff80000000 000 8000000000000000 000 ffffffff80000000 000",
    "adc rcx, 2147483647 | rcx | 1uu | 5 | \
     80000000 000 80000001 000 800000007fffffff 010 8000000080000000 000 7fffffff 100",
    "cmp rcx, -1 | rcx | uuu | 5 | 0 100 1 100 7fffffffffffffff 110 8000000000000000 100 ffffffffffffffff 001",
    "xor rcx, -1 | rcx | uuu | 5 | \
     ffffffffffffffff 000 fffffffffffffffe 000 8000000000000000 000 7fffffffffffffff 000 0 001",
    "mov rax, S | rax | 1u0 | 5 | 0 1u0 1 1u0 7fffffffffffffff 1u0 8000000000000000 1u0 ffffffffffffffff 1u0",
    "movzx rax, cl | rax | u01 | 5 | 0 u01 1 u01 ff u01 0 u01 ff u01",
    "lea rax, [rcx + rcx*8 - 8] | rax | 10u | 5 | \
     fffffffffffffff8 10u 1 10u 7fffffffffffffef 10u 7ffffffffffffff8 10u ffffffffffffffef 10u",
    "setz cl | rcx | uu1 | 5 | 1 uu1 1 uu1 7fffffffffffff01 uu1 8000000000000001 uu1 ffffffffffffff01 uu1",
    "setnz cl | rcx | uu1 | 5 | 0 uu1 0 uu1 7fffffffffffff00 uu1 8000000000000000 uu1 ffffffffffffff00 uu1",
    "setc cl | rcx | 1uu | 5 | 1 1uu 1 1uu 7fffffffffffff01 1uu 8000000000000001 1uu ffffffffffffff01 1uu",
    "setno cl | rcx | u1u | 5 | 0 u1u 0 u1u 7fffffffffffff00 u1u 8000000000000000 u1u ffffffffffffff00 u1u",
    "cmovc rax, S | rax | 1uu | 5 | 0 1uu 1 1uu 7fffffffffffffff 1uu 8000000000000000 1uu ffffffffffffffff 1uu",
    "cmovnz rax, S | rax | uu0 | 5 | 0 uu0 1 uu0 7fffffffffffffff uu0 8000000000000000 uu0 ffffffffffffffff uu0",
    "cmovo rax, S | rax | u1u | 5 | 0 u1u 1 u1u 7fffffffffffffff u1u 8000000000000000 u1u ffffffffffffffff u1u",
];
