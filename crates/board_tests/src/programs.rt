//! The programs of the tests.
use equiv_validator::Prepared;
use fiat_json::read_program;
use std::alloc::{AllocError, Global};
use std::sync::Arc;
use word_program::Program;

/// `examples/copy1.json`: a copy of one word.
pub const COPY1: &str = r#"{"operation":"copy1",
"returns":[{"name":"out1","datatype":"u64[1]"}],
"arguments":[{"name":"arg1","datatype":"u64[1]"}],
"body":[{"operation":"=","name":["out1[0]"],"arguments":["arg1[0]"]}]}"#;

/// A copy of two words.
pub const COPY2: &str = r#"{"operation":"copy2",
"returns":[{"name":"out1","datatype":"u64[2]"}],
"arguments":[{"name":"arg1","datatype":"u64[2]"}],"body":
[{"operation":"=","name":["out1[0]"],"arguments":["arg1[0]"]},
{"operation":"=","name":["out1[1]"],"arguments":["arg1[1]"]}]}"#;

/// `examples/mul4.json`: a product of four words and four words.
pub const MUL4: &str = r#"{"operation":"mul4","returns":[{"name":"out1","datatype":"u64[8]"}],
"arguments":[{"name":"arg1","datatype":"u64[4]"},{
"name":"arg2","datatype":"u64[4]"}],
"body":[{"operation":"mulx","name":["l_0_0","h_0_0"],"arguments":["arg1[0]","arg2[0]"]},{
"operation":"mulx","name":["l_0_1","h_0_1"],"arguments":["arg1[0]","arg2[1]"]},{
"operation":"mulx","name":["l_0_2","h_0_2"],"arguments":["arg1[0]","arg2[2]"]},{
"operation":"mulx","name":["l_0_3","h_0_3"],"arguments":["arg1[0]","arg2[3]"]},{
"operation":"addcarryx","name":["r_0_1","c_0_1"],"arguments":["0","h_0_0","l_0_1"]},{
"operation":"addcarryx","name":["r_0_2","c_0_2"],"arguments":["c_0_1","h_0_1","l_0_2"]},{
"operation":"addcarryx","name":["r_0_3","c_0_3"],"arguments":["c_0_2","h_0_2","l_0_3"]},{
"operation":"addcarryx","name":["r_0_4","_"],"arguments":["c_0_3","h_0_3","0"]},{
"operation":"mulx","name":["l_1_0","h_1_0"],"arguments":["arg1[1]","arg2[0]"]},{
"operation":"mulx","name":["l_1_1","h_1_1"],"arguments":["arg1[1]","arg2[1]"]},{
"operation":"mulx","name":["l_1_2","h_1_2"],"arguments":["arg1[1]","arg2[2]"]},{
"operation":"mulx","name":["l_1_3","h_1_3"],"arguments":["arg1[1]","arg2[3]"]},{
"operation":"addcarryx","name":["r_1_1","c_1_1"],"arguments":["0","h_1_0","l_1_1"]},{
"operation":"addcarryx","name":["r_1_2","c_1_2"],"arguments":["c_1_1","h_1_1","l_1_2"]},{
"operation":"addcarryx","name":["r_1_3","c_1_3"],"arguments":["c_1_2","h_1_2","l_1_3"]},{
"operation":"addcarryx","name":["r_1_4","_"],"arguments":["c_1_3","h_1_3","0"]},{
"operation":"addcarryx","name":["s_1_0","d_1_0"],"arguments":["0","r_0_1","l_1_0"]},{
"operation":"addcarryx","name":["s_1_1","d_1_1"],"arguments":["d_1_0","r_0_2","r_1_1"]},{
"operation":"addcarryx","name":["s_1_2","d_1_2"],"arguments":["d_1_1","r_0_3","r_1_2"]},{
"operation":"addcarryx","name":["s_1_3","d_1_3"],"arguments":["d_1_2","r_0_4","r_1_3"]},{
"operation":"addcarryx","name":["s_1_4","_"],"arguments":["d_1_3","0","r_1_4"]},{
"operation":"mulx","name":["l_2_0","h_2_0"],"arguments":["arg1[2]","arg2[0]"]},{
"operation":"mulx","name":["l_2_1","h_2_1"],"arguments":["arg1[2]","arg2[1]"]},{
"operation":"mulx","name":["l_2_2","h_2_2"],"arguments":["arg1[2]","arg2[2]"]},{
"operation":"mulx","name":["l_2_3","h_2_3"],"arguments":["arg1[2]","arg2[3]"]},{
"operation":"addcarryx","name":["r_2_1","c_2_1"],"arguments":["0","h_2_0","l_2_1"]},{
"operation":"addcarryx","name":["r_2_2","c_2_2"],"arguments":["c_2_1","h_2_1","l_2_2"]},{
"operation":"addcarryx","name":["r_2_3","c_2_3"],"arguments":["c_2_2","h_2_2","l_2_3"]},{
"operation":"addcarryx","name":["r_2_4","_"],"arguments":["c_2_3","h_2_3","0"]},{
"operation":"addcarryx","name":["s_2_0","d_2_0"],"arguments":["0","s_1_1","l_2_0"]},{
"operation":"addcarryx","name":["s_2_1","d_2_1"],"arguments":["d_2_0","s_1_2","r_2_1"]},{
"operation":"addcarryx","name":["s_2_2","d_2_2"],"arguments":["d_2_1","s_1_3","r_2_2"]},{
"operation":"addcarryx","name":["s_2_3","d_2_3"],"arguments":["d_2_2","s_1_4","r_2_3"]},{
"operation":"addcarryx","name":["s_2_4","_"],"arguments":["d_2_3","0","r_2_4"]},{
"operation":"mulx","name":["l_3_0","h_3_0"],"arguments":["arg1[3]","arg2[0]"]},{
"operation":"mulx","name":["l_3_1","h_3_1"],"arguments":["arg1[3]","arg2[1]"]},{
"operation":"mulx","name":["l_3_2","h_3_2"],"arguments":["arg1[3]","arg2[2]"]},{
"operation":"mulx","name":["l_3_3","h_3_3"],"arguments":["arg1[3]","arg2[3]"]},{
"operation":"addcarryx","name":["r_3_1","c_3_1"],"arguments":["0","h_3_0","l_3_1"]},{
"operation":"addcarryx","name":["r_3_2","c_3_2"],"arguments":["c_3_1","h_3_1","l_3_2"]},{
"operation":"addcarryx","name":["r_3_3","c_3_3"],"arguments":["c_3_2","h_3_2","l_3_3"]},{
"operation":"addcarryx","name":["r_3_4","_"],"arguments":["c_3_3","h_3_3","0"]},{
"operation":"addcarryx","name":["s_3_0","d_3_0"],"arguments":["0","s_2_1","l_3_0"]},{
"operation":"addcarryx","name":["s_3_1","d_3_1"],"arguments":["d_3_0","s_2_2","r_3_1"]},{
"operation":"addcarryx","name":["s_3_2","d_3_2"],"arguments":["d_3_1","s_2_3","r_3_2"]},{
"operation":"addcarryx","name":["s_3_3","d_3_3"],"arguments":["d_3_2","s_2_4","r_3_3"]},{
"operation":"addcarryx","name":["s_3_4","_"],"arguments":["d_3_3","0","r_3_4"]},{
"operation":"=","name":["out1[0]"],"arguments":["l_0_0"]},{
"operation":"=","name":["out1[1]"],"arguments":["s_1_0"]},{
"operation":"=","name":["out1[2]"],"arguments":["s_2_0"]},{
"operation":"=","name":["out1[3]"],"arguments":["s_3_0"]},{
"operation":"=","name":["out1[4]"],"arguments":["s_3_1"]},{
"operation":"=","name":["out1[5]"],"arguments":["s_3_2"]},{
"operation":"=","name":["out1[6]"],"arguments":["s_3_3"]},{
"operation":"=","name":["out1[7]"],"arguments":["s_3_4"]}]}"#;

/// The program of this text, which has at most 1,048,576 bytes.
fn program_of(alloc: Global, text: &str) -> Option<Program> {
    if text.len() > 1_048_576 {
        return None;
    }
    match read_program(alloc, text.as_bytes()) {
        Ok(program) => Some(program),
        Err(_) => None,
    }
}

/// The same, prepared for checks.
pub fn prepared_of(alloc: Global, text: &str) -> Result<Option<Prepared>, AllocError> {
    let Some(program) = program_of(alloc, text) else {
        return Ok(None);
    };
    let program = Arc::new(alloc, program)?;
    Ok(Some(Prepared::new(alloc, program)?))
}
