//! The texts of the small programs of `examples/`.

const COPY1: &str =
    r#"{"operation":"copy1","returns":[{"name":"out1","datatype":"u64[1]"}],"arguments":[{"name":"arg1",
"datatype":"u64[1]"}],"body":[{"operation":"=","name":["out1[0]"],"arguments":["arg1[0]"]}]}"#;

const COPY2: &str =
    r#"{"operation":"copy2","returns":[{"name":"out1","datatype":"u64[2]"}],"arguments":[{"name":"arg1",
"datatype":"u64[2]"}],"body":[{"operation":"=","name":["out1[0]"],"arguments":["arg1[0]"]},
{"operation":"=","name":["out1[1]"],"arguments":["arg1[1]"]}]}"#;

const ADD1: &str =
    r#"{"operation":"add1","returns":[{"name":"out1","datatype":"u64[2]"}],"arguments":[{"name":"arg1",
"datatype":"u1"},{"name":"arg2","datatype":"u64"},{"name":"arg3","datatype":"u64"}],
"body":[{"operation":"addcarryx","name":["out1[0]","out1[1]"],"arguments":["arg1","arg2","arg3"]}]}"#;

const CHAIN2: &str =
    r#"{"operation":"chain2","returns":[{"name":"out1","datatype":"u64[4]"}],"arguments":[{"name":"arg1",
"datatype":"u64[4]"},{"name":"arg2","datatype":"u64[4]"}],"body":[{"operation":"addcarryx",
"name":["out1[0]","x"],"arguments":["0","arg1[0]","arg2[0]"]},{"operation":"addcarryx",
"name":["out1[2]","y"],"arguments":["0","arg1[2]","arg2[2]"]},{"operation":"addcarryx",
"name":["out1[1]","_"],"arguments":["x","arg1[1]","arg2[1]"]},{"operation":"addcarryx",
"name":["out1[3]","_"],"arguments":["y","arg1[3]","arg2[3]"]}]}"#;

const AND2: &str =
    r#"{"operation":"and2","returns":[{"name":"out1","datatype":"u64[1]"}],"arguments":[{"name":"arg1",
"datatype":"u64[1]"},{"name":"arg2","datatype":"u64[1]"}],"body":[{"operation":"&",
"name":["out1[0]"],"arguments":["arg1[0]","arg2[0]"]}]}"#;

const MULX1: &str =
    r#"{"operation":"mulx1","returns":[{"name":"out1","datatype":"u64[2]"}],"arguments":[{"name":"arg1",
"datatype":"u64"},{"name":"arg2","datatype":"u64"}],"body":[{"operation":"mulx","name":["out1[0]",
"out1[1]"],"arguments":["arg1","arg2"]}]}"#;

const SUB1: &str =
    r#"{"operation":"sub1","returns":[{"name":"out1","datatype":"u64[2]"}],"arguments":[{"name":"arg1",
"datatype":"u1"},{"name":"arg2","datatype":"u64"},{"name":"arg3","datatype":"u64"}],
"body":[{"operation":"subborrowx","name":["out1[0]","out1[1]"],"arguments":["arg1","arg2","arg3"]}]}"#;

const SWAP2: &str =
    r#"{"operation":"swap2","overlap":"any","returns":[{"name":"out1","datatype":"u64[2]"}],
"arguments":[{"name":"arg1","datatype":"u64[2]"}],"body":[{"operation":"=","name":["out1[0]"],
"arguments":["arg1[1]"]},{"operation":"=","name":["out1[1]"],"arguments":["arg1[0]"]}]}"#;

/// All of them.
pub const EXAMPLES: [&str; 8] = [COPY1, COPY2, ADD1, CHAIN2, AND2, MULX1, SUB1, SWAP2];
