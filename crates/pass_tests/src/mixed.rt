//! The texts of small programs, which have each kind of operation between them.

/// Sums and differences with carries and borrows, of which some go to outputs.
pub const CARRIES: &str = r#"{"operation":"carries","returns":[{"name":"out1","datatype":"u64[6]"}],
"arguments":[{"name":"arg1","datatype":"u64[4]"},{"name":"arg2","datatype":"u64[4]"},{"name":"arg3","datatype":"u1"},
{"name":"arg4","datatype":"u64"}],"body":[
{"operation":"addcarryx","name":["a0","c0"],"arguments":["0","arg1[0]","arg2[0]"]},
{"operation":"addcarryx","name":["b0","d0"],"arguments":["arg3","arg1[1]","arg2[1]"]},
{"operation":"addcarryx","name":["a1","c1"],"arguments":["c0","b0","arg4"]},
{"operation":"addcarryx","name":["b1","d1"],"arguments":["d0","a1","arg2[2]"]},
{"operation":"subborrowx","name":["s0","e0"],"arguments":["0","a0","b1"]},
{"operation":"subborrowx","name":["s1","e1"],"arguments":["e0","arg1[3]","a1"]},
{"operation":"+","name":["t0"],"arguments":["c1","arg2[3]"]},
{"operation":"+","name":["t1"],"arguments":["d1","c1"]},
{"operation":"-","name":["mask"],"arguments":["0","e1"]},
{"operation":"cmovznz","name":["z0"],"arguments":["e1","s0","t0"]},
{"operation":"cmovznz","name":["z1"],"arguments":["e1","s1","t1"]},
{"operation":"&","name":["m0"],"arguments":["mask","0xffffffff"]},
{"operation":"addcarryx","name":["u0","_"],"arguments":["0","z0","m0"]},
{"operation":"addcarryx","name":["out1[0]","out1[1]"],"arguments":["d1","u0","z1"]},
{"operation":"subborrowx","name":["out1[2]","out1[3]"],"arguments":["c1","t0","arg4"]},
{"operation":"=","name":["out1[4]"],"arguments":["t1"]},
{"operation":"=","name":["out1[5]"],"arguments":["arg1[2]"]}]}"#;

/// Products and shifts, and what works on each bit.
pub const SHIFTS: &str = r#"{"operation":"shifts","returns":[{"name":"out1","datatype":"u64[6]"}],
"arguments":[{"name":"arg1","datatype":"u64[4]"},{"name":"arg2","datatype":"u64[2]","ubound":["5","0xfffffffffffff"]},
{"name":"arg3","datatype":"u64[2]","lbound":["7","0"],"ubound":["7","9"]}],"body":[
{"operation":"=","name":["y"],"arguments":["arg1[1]"]},
{"operation":"mulx","name":["l0","h0"],"arguments":["arg1[0]","y"]},
{"operation":"mulx","name":["l1","h1"],"arguments":["y","arg2[1]"]},
{"operation":"mulx","name":["_","h2"],"arguments":["l0","l1"]},
{"operation":"*","name":["p"],"arguments":["h0","19"]},
{"operation":"*","name":["q"],"arguments":["arg3[0]","h2"]},
{"operation":"shrd","name":["r0"],"arguments":["l0","h0","51"]},
{"operation":"shrd","name":["r1"],"arguments":["h1","h1","13"]},
{"operation":"<<","name":["w0"],"arguments":["arg2[0]","3"]},
{"operation":">>","name":["w1"],"arguments":["p","51"]},
{"operation":"~","name":["n"],"arguments":["q"]},
{"operation":"|","name":["v0"],"arguments":["w0","arg3[1]"]},
{"operation":"^","name":["v1"],"arguments":["n","arg1[3]"]},
{"operation":">>","name":["bit"],"arguments":["v1","63"]},
{"operation":"cmovznz","name":["x"],"arguments":["bit","r0","arg1[2]"]},
{"operation":"+","name":["out1[0]"],"arguments":["x","w1"]},
{"operation":"-","name":["out1[1]"],"arguments":["r1","v0"]},
{"operation":"mulx","name":["out1[2]","out1[3]"],"arguments":["v1","x"]},
{"operation":"=","name":["out1[4]"],"arguments":["7"]},
{"operation":"&","name":["out1[5]"],"arguments":["l1","arg1[0]"]}]}"#;

/// A program that may be called in place: its outputs may share memory with its inputs.
pub const IN_PLACE: &str = r#"{"operation":"in_place","overlap":"any",
"returns":[{"name":"out1","datatype":"u64[4]"},{"name":"out2","datatype":"u64[3]"}],
"arguments":[{"name":"arg1","datatype":"u64[4]"},{"name":"arg2","datatype":"u64[2]"}],"body":[
{"operation":"=","name":["out1[0]"],"arguments":["arg1[1]"]},
{"operation":"=","name":["out1[1]"],"arguments":["arg1[0]"]},
{"operation":"mulx","name":["l","out2[0]"],"arguments":["arg1[2]","arg2[0]"]},
{"operation":"addcarryx","name":["out1[2]","out1[3]"],"arguments":["0","l","arg1[3]"]},
{"operation":"=","name":["k"],"arguments":["arg2[1]"]},
{"operation":"=","name":["out2[1]"],"arguments":["k"]},
{"operation":"=","name":["out2[2]"],"arguments":["3"]}]}"#;
