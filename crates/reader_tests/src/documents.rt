//! Documents, and what is read from their bytes.
use crate::reading::read;
use fiat_json::ReadFault;
use std::alloc::{AllocError, Global};
use std::test::Fail;
use word_program::{Operand, Place, Section, Target};

const NOT_JSON: &[&[u8]] = &[
    b"",
    b"{",
    b"{}{}",
    b"{'operation':1}",
    b"{\"operation\":1e999}",
    b"{\"operation\":\"\\ud800\"}",
    b"{\"operation\":1e999,\"operation\":\"f\"}",
    b"{\"operation\":\"\xff\"}",
];

// A document of another form, and where.
const MISSHAPEN: &[(&str, Section, u32)] = &[
    ("null", Section::Top, 0),
    ("[]", Section::Top, 0),
    ("{}", Section::Top, 0),
    (
        r#"{"operation":1,"returns":[],"arguments":[],"body":[]}"#,
        Section::Top,
        0,
    ),
    (
        r#"{"operation":"f","arguments":[],"body":[]}"#,
        Section::Top,
        0,
    ),
    (
        r#"{"operation":"f","returns":{},"arguments":[],"body":[]}"#,
        Section::Top,
        0,
    ),
    (
        r#"{"operation":"f","returns":[],"arguments":null,"body":[]}"#,
        Section::Top,
        0,
    ),
    (
        r#"{"operation":"f","returns":[1],"arguments":[],"body":"g"}"#,
        Section::Top,
        0,
    ),
    (
        r#"{"operation":"f","operation":null,"returns":[],"arguments":[],"body":[]}"#,
        Section::Top,
        0,
    ),
    (
        r#"{"operation":"f","returns":[1],"arguments":[2],"body":[3]}"#,
        Section::Returns,
        0,
    ),
    (
        r#"{"operation":"9","returns":[{"name":"a","datatype":"b"},{"name":"a"}],"arguments":[],"body":[]}"#,
        Section::Returns,
        1,
    ),
    (
        r#"{"operation":"f","returns":[{"name":["a"],"datatype":"b"}],"arguments":[],"body":[]}"#,
        Section::Returns,
        0,
    ),
    (
        r#"{"operation":"f","returns":[],"arguments":[{"name":"a","datatype":"b","lbound":null}],"body":[]}"#,
        Section::Arguments,
        0,
    ),
    (
        r#"{"operation":"f","returns":[],"arguments":[{"name":"a","datatype":"b","lbound":"x","ubound":[]},
            {"name":"a","datatype":"b","ubound":["0",1]}],"body":[]}"#,
        Section::Arguments,
        1,
    ),
    (
        r#"{"operation":"f","returns":[],"arguments":[{"name":"a","datatype":"b","ubound":7}],"body":[1]}"#,
        Section::Arguments,
        0,
    ),
    (
        r#"{"operation":"f","returns":[],"arguments":[],"body":["="]}"#,
        Section::Body,
        0,
    ),
    (
        r#"{"operation":"f","returns":[],"arguments":[],"body":[{"operation":"g","name":[],"arguments":[]},
            {"operation":"g","name":"x","arguments":[]}]}"#,
        Section::Body,
        1,
    ),
    (
        r#"{"operation":"f","returns":[],"arguments":[],"body":[{"operation":"g","name":[],"arguments":[]},
            {"operation":"g","name":[],"arguments":[]},{"operation":"g","name":[],"arguments":[1]}]}"#,
        Section::Body,
        2,
    ),
    (
        r#"{"operation":"f","returns":[],"arguments":[],"body":[{"name":[],"arguments":[]}]}"#,
        Section::Body,
        0,
    ),
];

// A document of the form.
const COPY: &str = r#"{"operation":"copy1","returns":[{"name":"out1","datatype":"u64[1]"}],
"arguments":[{"name":"arg1","datatype":"u64[1]"}],"body":[{"operation":"=",
"name":["out1[0]"],"arguments":["arg1[0]"]}]}"#;

// Where the document has another form if the second text stands in the place of the first one, which is a part of it.
// With the third text in that place it is accepted.
const REPLACED: &[&str] = &[
    r#"top 0 # "operation":"copy1" # "operation":1 # "operation":"g""#,
    r#"top 0 # "operation":"copy1", # # "operations":1,"operation":"copy1","#,
    r#"top 0 # "operation":"copy1" # "operation":"copy1","operation":null # "operation":null,"operation":"copy1""#,
    r#"top 0 # "returns":[ # "return":[ # "more":[],"returns":["#,
    r#"top 0 # [{"name":"out1","datatype":"u64[1]"}] # {"name":"out1","datatype":"u64[1]"}
        # [{"datatype":"u64[1]","name":"out1"}]"#,
    r#"top 0 # "arguments":[{ # "argument":[{ # "more":{},"arguments":[{"#,
    r#"top 0 # [{"name":"arg1","datatype":"u64[1]"}] # null # [{"datatype":"u64[2]","name":"arg1"}]"#,
    r#"top 0 # "body":[ # "bodies":[ # "bodies":[],"body":["#,
    r#"top 0 # "body":[ # "body":"","bodies":[ # "body":"","body":["#,
    r#"top 0 # "operation":"copy1", # "operation":"copy1","overlap":"some", # "operation":"copy1","overlap":"any","#,
    r#"top 0 # "operation":"copy1", # "operation":"copy1","overlap":null, # "operation":"copy1","overlap":"none","#,
    r#"top 0 # "operation":"copy1", # "operation":"copy1","overlap":["any"],
        # "overlap":0,"overlap":"any","operation":"copy1","#,
    r#"top 0 # "operation":"copy1", # "operation":"copy1","overlap":"Any", # "operation":"copy1","overlaps":"some","#,
    r#"top 0 # "operation":"copy1", # "operation":"copy1","overlap":1, # "operation":"copy1","overlap":"\u0061ny","#,
    r#"returns 0 # {"name":"out1", # {"name":["out1"], # {"name":"\u006fut1","#,
    r#"returns 0 # {"name":"out1", # { # {"name":"out2","name":"out1","#,
    r#"returns 0 # {"name":"out1","datatype":"u64[1]"} # {"name":"out1"} # {"datatype":"u64[1]","name":"out1"}"#,
    r#"returns 0 # {"name":"out1","datatype":"u64[1]"} # {"name":"out1","datatype":1}
        # {"name":"out1","datatype":null,"datatype":"u64[1]"}"#,
    r#"returns 0 # {"name":"out1","datatype":"u64[1]"} # ["out1","u64[1]"]
        # {"name":"out1","datatype":"u64[1]","more":[]}"#,
    r#"returns 0 # {"name":"out1", # {"name":"out1","lbound":null, # {"name":"out1","lbound":"0","#,
    r#"returns 0 # {"name":"out1", # {"name":"out1","lbound":["0",1], # {"name":"out1","lbound":["0"],"#,
    r#"returns 0 # {"name":"out1", # {"name":"out1","ubound":7, # {"name":"out1","ubound":"7","#,
    r#"arguments 0 # {"name":"arg1", # {"name":null, # {"name":"arg1","name":"arg1","#,
    r#"arguments 0 # {"name":"arg1","datatype":"u64[1]"} # {"name":"arg1","lbound":"0"}
        # {"name":"arg1","datatype":"u64[1]","lbound":"0"}"#,
    r#"arguments 0 # {"name":"arg1", # {"name":"arg1","lbound":{}, # {"name":"arg1","lbound":["0x0"],"#,
    r#"arguments 0 # {"name":"arg1", # {"name":"arg1","ubound":[7], # {"name":"arg1","ubound":["7"],"#,
    r#"arguments 0 # {"name":"arg1", # {"name":"arg1","ubound":true, # {"name":"arg1","ubound":"007","#,
    r#"arguments 1 # "u64[1]"}],"body" # "u64[1]"},[]],"body" # "u64[1]"},{"name":"arg2","datatype":"u1"}],"body""#,
    r#"body 0 # "operation":"=" # "operation":["="] # "operation":"\u003d""#,
    r#"body 0 # "operation":"=", # # "operation":"+","operation":"=","#,
    r#"body 0 # ["out1[0]"] # "out1[0]" # ["\u006fut1[0]"]"#,
    r#"body 0 # ["out1[0]"] # ["out1[0]",0] # ["out1[0]"],"names":[0]"#,
    r#"body 0 # "name":["out1[0]"], # # "more":["out1[0]"],"name":["out1[0]"],"#,
    r#"body 0 # ["arg1[0]"] # "arg1[0]" # ["0"]"#,
    r#"body 0 # ["arg1[0]"] # [0] # ["0"]"#,
    r#"body 0 # ,"arguments":["arg1[0]"] # # ,"arguments":null,"arguments":["arg1[0]"]"#,
    r#"body 1 # ["arg1[0]"]} # ["arg1[0]"]},7 # ["arg1[0]"]},{"operation":"=","name":["x"],"arguments":["1"]}"#,
    r#"body 2 # ["arg1[0]"]} # ["arg1[0]"]},{"operation":"=","name":["x"],"arguments":["1"]},{}
        # ["arg1[0]"]},{"operation":"=","name":["x"],"arguments":["1"]}"#,
];

// The same program, spelled in other ways: the order of the keys, keys that mean nothing, a key that stands
// twice, and bounds.
const COPIES: &[&str] = &[
    COPY,
    r#" { "body" : [ { "arguments" : ["arg1[0]"], "name" : ["out1[0]"], "operation" : "=" } ],
      "arguments" : [ { "datatype" : "u64[1]", "name" : "arg1" } ],
      "returns" : [ { "datatype" : "u64[1]", "name" : "out1" } ], "operation" : "copy1" }
"#,
    r#"{"operation":"copy1","of":[null],"returns":[{"name":"out1","datatype":"u64[1]","datatypes":1}],
        "arguments":[{"name":"arg1","datatype":"u64[1]"}],"body":[{"operation":"=","name":["out1[0]"],
        "arguments":["arg1[0]"],"parameters":{}}]}"#,
    r#"{"operation":1,"returns":[{"name":"out1","datatype":"u64[1]"}],"returns":[{"name":"out1","name":"out1",
        "datatype":"u64[1]"}],"arguments":7,"arguments":[{"name":"arg1","datatype":"u64[1]"}],
        "body":[{"operation":"=","name":["out1[0]"],"arguments":["arg1[0]"]}],"operation":"\u0063opy1"}"#,
    r#"{"operation":"copy1","returns":[{"name":"out1","datatype":"u64[1]","lbound":"0",
        "ubound":["0xffffffffffffffff"]}],"arguments":[{"name":"arg1","datatype":"u64[1]","lbound":["0x0"],
        "ubound":"18446744073709551615"}],"body":[{"operation":"=","name":["out1[0]"],"arguments":["arg1[0]"]}]}"#,
];

fn fault(code: u8, section: Section, item: u32, inner: u32) -> ReadFault {
    ReadFault::Program {
        code,
        place: Place {
            section,
            item,
            inner,
        },
    }
}

#[test]
fn bytes_that_are_no_json(rt: HostRuntime) {
    for bytes in NOT_JSON {
        assert_eq!(rt; read(rt.alloc(), bytes).err(), Some(ReadFault::NotJson));
    }
}

#[test]
fn documents_of_another_form(rt: HostRuntime) {
    for (document, section, item) in MISSHAPEN {
        assert_eq!(rt;
            read(rt.alloc(), document.as_bytes()).err(),
            Some(fault(1, *section, *item, 0)),
            "{document}"
        );
    }
}

// The document with another text in the place of a part of it.
fn replaced(alloc: Global, part: &str, other: &str) -> Result<String, AllocError> {
    match COPY.split_once(part) {
        Some((before, after)) => format!(in alloc; "{before}{other}{after}"),
        None => String::from_str(alloc, "the document has no such part"),
    }
}

// The fault of a document, or that there is none.
fn answer(alloc: Global, document: &str) -> Result<String, AllocError> {
    match read(alloc, document.as_bytes()) {
        Ok(_) => String::from_str(alloc, "accepted"),
        Err(ReadFault::Program { code, place }) => {
            let (section, item, inner) = (name_of(place.section), place.item, place.inner);
            format!(in alloc; "P{code:02} {section} {item} {inner}")
        }
        Err(ReadFault::NotJson) => String::from_str(alloc, "not JSON"),
        Err(ReadFault::Memory) => String::from_str(alloc, "no memory"),
    }
}

fn name_of(section: Section) -> &'static str {
    match section {
        Section::Top => "top",
        Section::Returns => "returns",
        Section::Arguments => "arguments",
        Section::Body => "body",
    }
}

fn cut(text: &str) -> (&str, &str) {
    match text.split_once('#') {
        Some((before, after)) => (before.trim(), after.trim()),
        None => (text.trim(), ""),
    }
}

#[test]
fn one_part_of_another_form(rt: HostRuntime) -> Result<(), Fail> {
    for row in REPLACED {
        let (place, rest) = cut(row);
        let (part, rest) = cut(rest);
        let (faulty, accepted) = cut(rest);
        let fault = format!(in rt.alloc(); "P01 {place} 0")?;
        let document = replaced(rt.alloc(), part, faulty)?;
        assert_eq!(rt;
            answer(rt.alloc(), document.as_str())?.as_str(),
            fault.as_str(),
            "{row}"
        );
        let document = replaced(rt.alloc(), part, accepted)?;
        assert_eq!(rt;
            answer(rt.alloc(), document.as_str())?.as_str(),
            "accepted",
            "{row}"
        );
    }
    Ok(())
}

#[test]
fn one_program_in_many_spellings(rt: HostRuntime) -> Result<(), Fail> {
    for document in COPIES {
        let program = read(rt.alloc(), document.as_bytes())?;
        assert_eq!(rt; program.name().as_str(), "copy1", "{document}");
        assert_eq!(rt; program.params().len(), 2, "{document}");
        assert_eq!(rt; program.ops().len(), 1, "{document}");
    }
    Ok(())
}

// The form of the whole document comes before the other rules.
#[test]
fn faults_of_the_program(rt: HostRuntime) {
    let document =
        r#"{"operation":"9","returns":[],"arguments":[{"name":"x","datatype":"u64"}],"body":[{"operation":"g",
            "name":[],"arguments":[]}]}"#;
    assert_eq!(rt;
        read(rt.alloc(), document.as_bytes()).err(),
        Some(fault(2, Section::Top, 0, 0))
    );
    let document =
        r#"{"operation":"f","returns":[{"name":"o","datatype":"u64[2]"}],"arguments":[{"name":"x",
            "datatype":"u64"}],"body":[{"operation":"=","name":["o[0]"],"arguments":["x"]},
            {"operation":"cmovznz","name":["y"],"arguments":["x","x","x"]}]}"#;
    assert_eq!(rt;
        read(rt.alloc(), document.as_bytes()).err(),
        Some(fault(13, Section::Body, 1, 1))
    );
}

// A document of the form with this many operations, of which the last one writes the output.
fn document_of(alloc: Global, operations: u32) -> Result<String, AllocError> {
    let (before, last) = match COPY.split_once("{\"operation\":\"=\"") {
        Some(parts) => parts,
        None => ("", ""),
    };
    let mut text = String::from_str(alloc, before)?;
    for _operation in 1..operations {
        text.push_str("{\"operation\":\"=\",\"name\":[\"_\"],\"arguments\":[\"0\"]},")?;
    }
    text.push_str("{\"operation\":\"=\"")?;
    text.push_str(last)?;
    Ok(text)
}

#[test]
fn as_many_operations_as_a_program_has(rt: HostRuntime) -> Result<(), Fail> {
    let most = document_of(rt.alloc(), 2048)?;
    assert_eq!(rt; answer(rt.alloc(), most.as_str())?.as_str(), "accepted");
    let more = document_of(rt.alloc(), 2049)?;
    assert_eq!(rt; answer(rt.alloc(), more.as_str())?.as_str(), "P06 top 0 0");
    Ok(())
}

// The program of `examples/swap2.json`.
const SWAP: &str =
    r#"{"operation":"swap2","overlap":"any","returns":[{"name":"out1","datatype":"u64[2]"}],
"arguments":[{"name":"arg1","datatype":"u64[2]"}],"body":[
{"operation":"=","name":["out1[0]"],"arguments":["arg1[1]"]},
{"operation":"=","name":["out1[1]"],"arguments":["arg1[0]"]}]}"#;

#[test]
fn a_swap_whose_output_may_overlap_its_input(rt: HostRuntime) -> Result<(), Fail> {
    let program = read(rt.alloc(), SWAP.as_bytes())?;
    assert!(rt; program.overlap());
    assert_eq!(rt; program.ops().len(), 2);
    for (number, op) in program.ops().iter().enumerate() {
        let target = Target::Output {
            param: 0,
            word: number as u8,
        };
        let operand = Operand::Input {
            param: 1,
            word: 1 - number as u8,
        };
        assert!(rt; op.targets.items().first() == Some(&target));
        assert!(rt; op.args.items().first() == Some(&operand));
    }
    let program = read(rt.alloc(), COPY.as_bytes())?;
    assert!(rt; !program.overlap());
    Ok(())
}
