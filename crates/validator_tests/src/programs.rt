//! The programs of the tests.
use std::alloc::{AllocError, Global};

// A sum of two words and a carry.
pub const ADD1: &str = r#"{"operation":"add1",
"returns":[{"name":"out1","datatype":"u64[2]"}],"arguments":
[{"name":"arg1","datatype":"u1"},{"name":"arg2","datatype":"u64"},{"name":"arg3","datatype":"u64"}],"body":
[{"operation":"addcarryx","name":["out1[0]","out1[1]"],"arguments":["arg1","arg2","arg3"]}]}"#;

// The two words of a product.
pub const MULX1: &str = r#"{"operation":"mulx1",
"returns":[{"name":"out1","datatype":"u64[2]"}],"arguments":
[{"name":"arg1","datatype":"u64"},{"name":"arg2","datatype":"u64"}],"body":
[{"operation":"mulx","name":["out1[0]","out1[1]"],"arguments":["arg1","arg2"]}]}"#;

// A copy of one word.
pub const COPY1: &str = r#"{"operation":"copy1",
"returns":[{"name":"out1","datatype":"u64[1]"}],
"arguments":[{"name":"arg1","datatype":"u64[1]"}],
"body":[{"operation":"=","name":["out1[0]"],"arguments":["arg1[0]"]}]}"#;

// A copy of two words.
pub const COPY2: &str = r#"{"operation":"copy2",
"returns":[{"name":"out1","datatype":"u64[2]"}],
"arguments":[{"name":"arg1","datatype":"u64[2]"}],"body":
[{"operation":"=","name":["out1[0]"],"arguments":["arg1[0]"]},
{"operation":"=","name":["out1[1]"],"arguments":["arg1[1]"]}]}"#;

// Two words exchanged.
pub const SWAP2_APART: &str = r#"{"operation":"swap2",
"returns":[{"name":"out1","datatype":"u64[2]"}],
"arguments":[{"name":"arg1","datatype":"u64[2]"}],"body":
[{"operation":"=","name":["out1[0]"],"arguments":["arg1[1]"]},
{"operation":"=","name":["out1[1]"],"arguments":["arg1[0]"]}]}"#;

// The same, where the words may be exchanged in place.
pub const SWAP2: &str = r#"{"operation":"swap2","overlap":"any",
"returns":[{"name":"out1","datatype":"u64[2]"}],
"arguments":[{"name":"arg1","datatype":"u64[2]"}],"body":
[{"operation":"=","name":["out1[0]"],"arguments":["arg1[1]"]},
{"operation":"=","name":["out1[1]"],"arguments":["arg1[0]"]}]}"#;

// The arguments of the programs below: a bit in rsi, two words in rdx and rcx, and an array of two words at r8.
const ARGUMENTS: &str = r#"[{"name":"c","datatype":"u1"},{"name":"a","datatype":"u64"},
{"name":"b","datatype":"u64"},{"name":"x","datatype":"u64[2]"}]"#;

// The words of a text as texts of an array.
fn texts_of(alloc: Global, words: &str) -> Result<String, AllocError> {
    let inside = words.replace(alloc, " ", "\",\"")?;
    format!(in alloc; "[\"{}\"]", inside.as_str())
}

// An operation, as `t = + a b`, in JSON.
pub fn operation_of(alloc: Global, text: &str) -> Result<String, AllocError> {
    let (names, rest) = text.split_once(" = ").unwrap_or((text, ""));
    let (operation, arguments) = rest.split_once(" ").unwrap_or((rest, ""));
    let names = texts_of(alloc, names)?;
    let arguments = texts_of(alloc, arguments)?;
    let head = format!(in alloc;
        "{{\"operation\":\"{operation}\",\"name\":{}",
        names.as_str()
    )?;
    format!(in alloc; "{},\"arguments\":{}}}", head.as_str(), arguments.as_str())
}

// The operations of a text, one or two with `, ` between, in JSON.
fn body_of(alloc: Global, text: &str) -> Result<String, AllocError> {
    match text.split_once(", ") {
        None => operation_of(alloc, text),
        Some((first, second)) => {
            let first = operation_of(alloc, first)?;
            let second = operation_of(alloc, second)?;
            format!(in alloc; "{},{}", first.as_str(), second.as_str())
        }
    }
}

// The program with an output `o` of so many words and these operations, which are in JSON.
pub fn program_with(alloc: Global, count: &str, body: &str) -> Result<String, AllocError> {
    let output = format!(in alloc; "{{\"name\":\"o\",\"datatype\":\"u64[{count}]\"}}")?;
    let head = format!(in alloc; "{{\"operation\":\"f\",\"returns\":[{}],", output.as_str())?;
    format!(in alloc;
        "{}\"arguments\":{ARGUMENTS},\"body\":[{body}]}}",
        head.as_str()
    )
}

// The program with these operations, one or two. Its output `o` has two words where the text names `o[1]`, and else
// one.
pub fn program_text(alloc: Global, text: &str) -> Result<String, AllocError> {
    let body = body_of(alloc, text)?;
    let count = if text.contains("o[1]") { "2" } else { "1" };
    program_with(alloc, count, body.as_str())
}
