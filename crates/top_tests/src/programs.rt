//! Programs, and listings for them.
use std::alloc::{AllocError, Global};

/// A copy of one word.
pub const COPY1: &str = r#"{"operation":"copy1",
"returns":[{"name":"out1","datatype":"u64[1]"}],"arguments":
[{"name":"arg1","datatype":"u64[1]"}],"body":
[{"operation":"=","name":["out1[0]"],"arguments":["arg1[0]"]}]}
"#;

/// Its plain listing.
pub const COPY1_TEXT: &str = "\
.intel_syntax noprefix
.text
.globl copy1
copy1:
    sub rsp, 24
    mov qword ptr [rsp], rdi
    mov qword ptr [rsp + 8], rsi
    mov rcx, qword ptr [rsp + 8]
    mov rcx, qword ptr [rcx]
    mov rax, rcx # 0
    mov r11, qword ptr [rsp]
    mov qword ptr [r11], rax
    add rsp, 24
    ret
";

/// A sum with carry.
pub const ADD1: &str = r#"{"operation":"add1",
"returns":[{"name":"out1","datatype":"u64[2]"}],"arguments":
[{"name":"arg1","datatype":"u1"},{"name":"arg2","datatype":"u64"},{"name":"arg3","datatype":"u64"}],"body":
[{"operation":"addcarryx","name":["out1[0]","out1[1]"],"arguments":["arg1","arg2","arg3"]}]}"#;

/// Two carry chains of two words each.
pub const CHAIN2: &str = r#"{"operation":"chain2",
"returns":[{"name":"out1","datatype":"u64[4]"}],"arguments":
[{"name":"arg1","datatype":"u64[4]"},{"name":"arg2","datatype":"u64[4]"}],"body":
[{"operation":"addcarryx","name":["out1[0]","x"],"arguments":["0","arg1[0]","arg2[0]"]},
{"operation":"addcarryx","name":["out1[2]","y"],"arguments":["0","arg1[2]","arg2[2]"]},
{"operation":"addcarryx","name":["out1[1]","_"],"arguments":["x","arg1[1]","arg2[1]"]},
{"operation":"addcarryx","name":["out1[3]","_"],"arguments":["y","arg1[3]","arg2[3]"]}]}"#;

/// The product of two numbers of four words each.
pub const MUL4: &str = r#"{"operation":"mul4",
"returns":[{"name":"out1","datatype":"u64[8]"}],"arguments":
[{"name":"arg1","datatype":"u64[4]"},{"name":"arg2","datatype":"u64[4]"}],"body":[
{"operation":"mulx","name":["l_0_0","h_0_0"],"arguments":["arg1[0]","arg2[0]"]},
{"operation":"mulx","name":["l_0_1","h_0_1"],"arguments":["arg1[0]","arg2[1]"]},
{"operation":"mulx","name":["l_0_2","h_0_2"],"arguments":["arg1[0]","arg2[2]"]},
{"operation":"mulx","name":["l_0_3","h_0_3"],"arguments":["arg1[0]","arg2[3]"]},
{"operation":"addcarryx","name":["r_0_1","c_0_1"],"arguments":["0","h_0_0","l_0_1"]},
{"operation":"addcarryx","name":["r_0_2","c_0_2"],"arguments":["c_0_1","h_0_1","l_0_2"]},
{"operation":"addcarryx","name":["r_0_3","c_0_3"],"arguments":["c_0_2","h_0_2","l_0_3"]},
{"operation":"addcarryx","name":["r_0_4","_"],"arguments":["c_0_3","h_0_3","0"]},
{"operation":"mulx","name":["l_1_0","h_1_0"],"arguments":["arg1[1]","arg2[0]"]},
{"operation":"mulx","name":["l_1_1","h_1_1"],"arguments":["arg1[1]","arg2[1]"]},
{"operation":"mulx","name":["l_1_2","h_1_2"],"arguments":["arg1[1]","arg2[2]"]},
{"operation":"mulx","name":["l_1_3","h_1_3"],"arguments":["arg1[1]","arg2[3]"]},
{"operation":"addcarryx","name":["r_1_1","c_1_1"],"arguments":["0","h_1_0","l_1_1"]},
{"operation":"addcarryx","name":["r_1_2","c_1_2"],"arguments":["c_1_1","h_1_1","l_1_2"]},
{"operation":"addcarryx","name":["r_1_3","c_1_3"],"arguments":["c_1_2","h_1_2","l_1_3"]},
{"operation":"addcarryx","name":["r_1_4","_"],"arguments":["c_1_3","h_1_3","0"]},
{"operation":"addcarryx","name":["s_1_0","d_1_0"],"arguments":["0","r_0_1","l_1_0"]},
{"operation":"addcarryx","name":["s_1_1","d_1_1"],"arguments":["d_1_0","r_0_2","r_1_1"]},
{"operation":"addcarryx","name":["s_1_2","d_1_2"],"arguments":["d_1_1","r_0_3","r_1_2"]},
{"operation":"addcarryx","name":["s_1_3","d_1_3"],"arguments":["d_1_2","r_0_4","r_1_3"]},
{"operation":"addcarryx","name":["s_1_4","_"],"arguments":["d_1_3","0","r_1_4"]},
{"operation":"mulx","name":["l_2_0","h_2_0"],"arguments":["arg1[2]","arg2[0]"]},
{"operation":"mulx","name":["l_2_1","h_2_1"],"arguments":["arg1[2]","arg2[1]"]},
{"operation":"mulx","name":["l_2_2","h_2_2"],"arguments":["arg1[2]","arg2[2]"]},
{"operation":"mulx","name":["l_2_3","h_2_3"],"arguments":["arg1[2]","arg2[3]"]},
{"operation":"addcarryx","name":["r_2_1","c_2_1"],"arguments":["0","h_2_0","l_2_1"]},
{"operation":"addcarryx","name":["r_2_2","c_2_2"],"arguments":["c_2_1","h_2_1","l_2_2"]},
{"operation":"addcarryx","name":["r_2_3","c_2_3"],"arguments":["c_2_2","h_2_2","l_2_3"]},
{"operation":"addcarryx","name":["r_2_4","_"],"arguments":["c_2_3","h_2_3","0"]},
{"operation":"addcarryx","name":["s_2_0","d_2_0"],"arguments":["0","s_1_1","l_2_0"]},
{"operation":"addcarryx","name":["s_2_1","d_2_1"],"arguments":["d_2_0","s_1_2","r_2_1"]},
{"operation":"addcarryx","name":["s_2_2","d_2_2"],"arguments":["d_2_1","s_1_3","r_2_2"]},
{"operation":"addcarryx","name":["s_2_3","d_2_3"],"arguments":["d_2_2","s_1_4","r_2_3"]},
{"operation":"addcarryx","name":["s_2_4","_"],"arguments":["d_2_3","0","r_2_4"]},
{"operation":"mulx","name":["l_3_0","h_3_0"],"arguments":["arg1[3]","arg2[0]"]},
{"operation":"mulx","name":["l_3_1","h_3_1"],"arguments":["arg1[3]","arg2[1]"]},
{"operation":"mulx","name":["l_3_2","h_3_2"],"arguments":["arg1[3]","arg2[2]"]},
{"operation":"mulx","name":["l_3_3","h_3_3"],"arguments":["arg1[3]","arg2[3]"]},
{"operation":"addcarryx","name":["r_3_1","c_3_1"],"arguments":["0","h_3_0","l_3_1"]},
{"operation":"addcarryx","name":["r_3_2","c_3_2"],"arguments":["c_3_1","h_3_1","l_3_2"]},
{"operation":"addcarryx","name":["r_3_3","c_3_3"],"arguments":["c_3_2","h_3_2","l_3_3"]},
{"operation":"addcarryx","name":["r_3_4","_"],"arguments":["c_3_3","h_3_3","0"]},
{"operation":"addcarryx","name":["s_3_0","d_3_0"],"arguments":["0","s_2_1","l_3_0"]},
{"operation":"addcarryx","name":["s_3_1","d_3_1"],"arguments":["d_3_0","s_2_2","r_3_1"]},
{"operation":"addcarryx","name":["s_3_2","d_3_2"],"arguments":["d_3_1","s_2_3","r_3_2"]},
{"operation":"addcarryx","name":["s_3_3","d_3_3"],"arguments":["d_3_2","s_2_4","r_3_3"]},
{"operation":"addcarryx","name":["s_3_4","_"],"arguments":["d_3_3","0","r_3_4"]},
{"operation":"=","name":["out1[0]"],"arguments":["l_0_0"]},
{"operation":"=","name":["out1[1]"],"arguments":["s_1_0"]},
{"operation":"=","name":["out1[2]"],"arguments":["s_2_0"]},
{"operation":"=","name":["out1[3]"],"arguments":["s_3_0"]},
{"operation":"=","name":["out1[4]"],"arguments":["s_3_1"]},
{"operation":"=","name":["out1[5]"],"arguments":["s_3_2"]},
{"operation":"=","name":["out1[6]"],"arguments":["s_3_3"]},
{"operation":"=","name":["out1[7]"],"arguments":["s_3_4"]}]}"#;

/// The bits that two words share.
pub const AND2: &str = r#"{"operation":"and2",
"returns":[{"name":"out1","datatype":"u64[1]"}],"arguments":
[{"name":"arg1","datatype":"u64[1]"},{"name":"arg2","datatype":"u64[1]"}],"body":
[{"operation":"&","name":["out1[0]"],"arguments":["arg1[0]","arg2[0]"]}]}"#;

/// A difference with borrow.
pub const SUB1: &str = r#"{"operation":"sub1",
"returns":[{"name":"out1","datatype":"u64[2]"}],"arguments":
[{"name":"arg1","datatype":"u1"},{"name":"arg2","datatype":"u64"},{"name":"arg3","datatype":"u64"}],"body":
[{"operation":"subborrowx","name":["out1[0]","out1[1]"],"arguments":["arg1","arg2","arg3"]}]}"#;

/// The two words of a product.
pub const MULX1: &str = r#"{"operation":"mulx1",
"returns":[{"name":"out1","datatype":"u64[2]"}],"arguments":
[{"name":"arg1","datatype":"u64"},{"name":"arg2","datatype":"u64"}],"body":
[{"operation":"mulx","name":["out1[0]","out1[1]"],"arguments":["arg1","arg2"]}]}"#;

/// A copy of two words.
pub const COPY2: &str = r#"{"operation":"copy2",
"returns":[{"name":"out1","datatype":"u64[2]"}],"arguments":
[{"name":"arg1","datatype":"u64[2]"}],"body":
[{"operation":"=","name":["out1[0]"],"arguments":["arg1[0]"]},
{"operation":"=","name":["out1[1]"],"arguments":["arg1[1]"]}]}"#;

/// A listing for the two carry chains, each in a flag of its own.
pub const CHAIN2_TEXT: &str = "\
.intel_syntax noprefix
.text
.globl chain2
chain2:
    xor rax, rax
    mov rax, qword ptr [rsi]
    mov rcx, qword ptr [rsi + 16]
    adcx rax, qword ptr [rdx]
    adox rcx, qword ptr [rdx + 16]
    mov qword ptr [rdi], rax
    mov qword ptr [rdi + 16], rcx
    mov rax, qword ptr [rsi + 8]
    mov rcx, qword ptr [rsi + 24]
    adcx rax, qword ptr [rdx + 8]
    adox rcx, qword ptr [rdx + 24]
    mov qword ptr [rdi + 8], rax
    mov qword ptr [rdi + 24], rcx
    ret
";

/// The text of a listing with the name `f` and these lines.
pub fn function(alloc: Global, body: &str) -> Result<String, AllocError> {
    format!(in alloc; ".intel_syntax noprefix\n.text\n.globl f\nf:\n{body}")
}
