//! Command lines, and the calls of the shelf that fail.
use crate::calls::{Files, Left, end_of, is_idle, leaves, refused, refuses, with_program};
use crate::programs::{COPY1, COPY1_TEXT};
use search_top::Status;
use std::test::Fail;

fn copy() -> Files<'static> {
    Files {
        program: COPY1.as_bytes(),
        asm: COPY1_TEXT.as_bytes(),
    }
}

// Command lines of no command.
const NONE: &str = "\
search
search p.json
search p.json p.s q.s
search p.json -
search p.json p.json
search -p.json p.s
search p.json p.s --in 1
search p.json p.s --help
searching p.json p.s
Search p.json p.s
eval
eval p.json q.json
eval p.json --in
eval p.json --in=
eval p.json --in 0,
eval p.json --in 0x
eval p.json --in 18446744073709551616
eval p.json --in 7 --in 7
eval p.json --out 7
eval -p.json
evaluate p.json
emulate p.json
emulate p.json p.s 7
emulate p.json p.s --in x
emulate p.json -p.s --in 7
checks p.json p.s
check p.json
check p.json p.s q.s
check p.json p.s --in 7
check p.json -p.s
show
show p.s p.s
show p.s --in 7
show --help
--help";

#[test]
fn refuses_what_is_no_command_with_no_call(rt: HostRuntime) -> Result<(), Fail> {
    for line in NONE.lines() {
        let left = refused(copy(), "2 usage");
        assert!(rt; leaves(&rt, copy(), line, &[0], left)?, "{line}");
        assert!(rt; is_idle(&rt, copy(), line)?, "{line}");
    }
    for line in [
        "search p.json p.s",
        "eval p.json --in 7",
        "emulate p.json p.s --in 7",
        "check p.json p.s",
        "show p.s",
    ] {
        assert!(rt; is_idle(&rt, copy(), line)?, "{line}");
    }
    Ok(())
}

// Each row has a line, how many calls it makes, and what it says.
#[test]
fn takes_options_anywhere_and_names_behind_two_hyphens(rt: HostRuntime) -> Result<(), Fail> {
    let word = "out1[0] 0x0000000000000007\n";
    for (line, calls, said) in [
        ("eval --in 7 p.json", 2, word),
        ("eval --in=0x7 p.json", 2, word),
        ("eval p.json --in=007", 2, word),
        ("eval --in 7 -- p.json", 2, word),
        ("emulate p.json --in 7 p.s", 3, word),
        ("emulate --in=7 -- p.json p.s", 3, word),
        ("check -- p.json p.s", 3, "proved\n"),
        ("show -- p.s", 2, COPY1_TEXT),
        ("search -- p.json p.s", 3, "opening 28\n"),
    ] {
        let left = Left {
            end: "0 ",
            asm: COPY1_TEXT.as_bytes(),
            said,
        };
        assert!(rt; leaves(&rt, copy(), line, &[calls], left)?, "{line}");
    }
    for (row, calls) in [
        ("eval - => 3 cannot read -", 1),
        ("search - p.s => 3 cannot read -", 1),
        ("emulate p.json - => 3 cannot read -", 2),
        ("check p.json - => 3 cannot read -", 2),
        ("show -- --in => 3 cannot read --in", 1),
    ] {
        assert!(rt; refuses(&rt, copy(), row, calls)?, "{row}");
    }
    Ok(())
}

// Each row has a line, the call that fails, and the end.
#[test]
fn ends_at_the_call_that_fails(rt: HostRuntime) -> Result<(), Fail> {
    for (line, call, end) in [
        ("search p.json p.s", 0, "3 cannot read p.json"),
        ("search p.json p.s", 1, "7 cannot write p.s"),
        ("eval p.json --in 7", 0, "3 cannot read p.json"),
        ("eval p.json --in 7", 1, "7 cannot write -"),
        ("emulate p.json p.s --in 7", 0, "3 cannot read p.json"),
        ("emulate p.json p.s --in 7", 1, "3 cannot read p.s"),
        ("emulate p.json p.s --in 7", 2, "7 cannot write -"),
        ("check p.json p.s", 0, "3 cannot read p.json"),
        ("check p.json p.s", 1, "3 cannot read p.s"),
        ("check p.json p.s", 2, "7 cannot write -"),
        ("show p.s", 0, "3 cannot read p.s"),
        ("show p.s", 1, "7 cannot write -"),
    ] {
        let left = refused(copy(), end);
        assert!(rt;
            leaves(&rt, copy(), line, &[call, call + 1], left)?,
            "{line}, {call}"
        );
    }
    let left = Left {
        end: "7 cannot write -",
        asm: COPY1_TEXT.as_bytes(),
        said: "",
    };
    let line = "search p.json p.s";
    assert!(rt; leaves(&rt, with_program(COPY1), line, &[2, 3], left)?);
    let end = end_of(rt.alloc(), &Status::OutOfMemory)?;
    assert_eq!(rt; end.as_str(), "17 out of memory");
    Ok(())
}
