//! Start states, and runs from them, by the public calls of `x86_meaning`.
use crate::reading::listing_of;
use fiat_json::read_program;
use std::alloc::Global;
use std::test::Fail;
use word_program::{EvalFault, Program};
use x86_instr::Listing;
use x86_meaning::{State, run};

const COPY1: &str = r#"{"operation":"copy1",
        "returns":[{"name":"out1","datatype":"u64[1]"}],
        "arguments":[{"name":"arg1","datatype":"u64[1]"}],
        "body":[{"operation":"=","name":["out1[0]"],"arguments":["arg1[0]"]}]}"#;

const CHAIN2: &str = r#"{"operation":"chain2",
        "returns":[{"name":"out1","datatype":"u64[4]"}],
        "arguments":[{"name":"arg1","datatype":"u64[4]"},{"name":"arg2","datatype":"u64[4]"}],
        "body":[{"operation":"addcarryx","name":["out1[0]","x"],"arguments":["0","arg1[0]","arg2[0]"]},
        {"operation":"addcarryx","name":["out1[2]","y"],"arguments":["0","arg1[2]","arg2[2]"]},
        {"operation":"addcarryx","name":["out1[1]","_"],"arguments":["x","arg1[1]","arg2[1]"]},
        {"operation":"addcarryx","name":["out1[3]","_"],"arguments":["y","arg1[3]","arg2[3]"]}]}"#;

const CHAINS: &str = "xor rax, rax\n\
     mov rax, [rsi]\n\
     mov rcx, [rsi + 16]\n\
     adcx rax, [rdx]\n\
     adox rcx, [rdx + 16]\n\
     mov [rdi], rax\n\
     mov [rdi + 16], rcx\n\
     mov rax, [rsi + 8]\n\
     mov rcx, [rsi + 24]\n\
     adcx rax, [rdx + 8]\n\
     adox rcx, [rdx + 24]\n\
     mov [rdi + 8], rax\n\
     mov [rdi + 24], rcx";

// A carry, a word and an array of three words, with bounds, in this order.
const MIXED: &str = r#"{"operation":"mixed",
        "returns":[{"name":"out1","datatype":"u64[2]"}],
        "arguments":[{"name":"arg1","datatype":"u1"},{"name":"arg2","datatype":"u64","lbound":"5"},
        {"name":"arg3","datatype":"u64[3]","ubound":["9","9","9"]}],
        "body":[{"operation":"=","name":["out1[0]"],"arguments":["arg2"]},
        {"operation":"=","name":["out1[1]"],"arguments":["arg3[2]"]}]}"#;

const FILLING: u64 = 0x5a5a_5a5a_5a5a_5a5a;

const RSP: u64 = 0x7fff_fff8;

// No document of a test has more than 1,048,576 bytes.
fn program_of(alloc: Global, text: &str) -> Option<Program> {
    if 1_048_576 < text.len() {
        return None;
    }
    match read_program(alloc, text.as_bytes()) {
        Ok(program) => Some(program),
        Err(_) => None,
    }
}

// What a run of these instructions from the start state of a program gives.
#[derive(Drop)]
enum Outcome {
    Ended(State),
    Stuck(u32),
    Refused(EvalFault),
    Unread,
}

fn run_from(alloc: Global, program: &Program, listing: &Listing, inputs: &[u64]) -> Outcome {
    let mut state = match State::start(alloc, program, listing, inputs) {
        Ok(state) => state,
        Err(fault) => return Outcome::Refused(fault),
    };
    match run(listing, &mut state) {
        Ok(()) => Outcome::Ended(state),
        Err(stuck) => Outcome::Stuck(stuck.line),
    }
}

fn run_text(alloc: Global, program: &str, text: &str, inputs: &[u64]) -> Result<Outcome, Fail> {
    let Some(program) = program_of(alloc, program) else {
        return Ok(Outcome::Unread);
    };
    match listing_of(alloc, text)? {
        Some(listing) => Ok(run_from(alloc, &program, &listing, inputs)),
        None => Ok(Outcome::Unread),
    }
}

// The words of the array at a place.
fn cells(state: &State, place: u64) -> [Option<u64>; 4] {
    let cell = |word: u64| state.cells.get(place.wrapping_add(8 * word));
    [cell(0), cell(1), cell(2), cell(3)]
}

#[test]
fn two_interleaved_chains_add(rt: HostRuntime) -> Result<(), Fail> {
    let inputs = [u64::MAX, 0, u64::MAX, 0, 1, 0, 1, 0];
    match run_text(rt.alloc(), CHAIN2, CHAINS, &inputs)? {
        Outcome::Ended(state) => {
            assert!(rt; cells(&state, 65536) == [Some(0), Some(1), Some(0), Some(1)])
        }
        _ => assert!(rt; false, "the run ends"),
    }
    Ok(())
}

#[test]
fn a_lost_register_leaves_the_output(rt: HostRuntime) -> Result<(), Fail> {
    let text = "mov r12, [rsi]\nmov [rdi], r12";
    match run_text(rt.alloc(), COPY1, text, &[77])? {
        Outcome::Ended(state) => assert!(rt; state.cells.get(65536) == Some(77)),
        _ => assert!(rt; false, "the run ends"),
    }
    Ok(())
}

#[test]
fn a_read_behind_an_array_is_stuck(rt: HostRuntime) -> Result<(), Fail> {
    let text = "mov rax, [rsi + 8]\nmov [rdi], rax";
    assert!(rt; matches!(run_text(rt.alloc(), COPY1, text, &[77])?, Outcome::Stuck(1)));
    Ok(())
}

#[test]
fn inputs_are_refused_as_an_evaluation_refuses_them(rt: HostRuntime) -> Result<(), Fail> {
    for (inputs, fault) in [
        (
            &[1, 5, 9, 9][..],
            EvalFault::Count {
                given: 4,
                wanted: 5,
            },
        ),
        (
            &[9, 9, 9, 9, 9, 9],
            EvalFault::Count {
                given: 6,
                wanted: 5,
            },
        ),
        (&[2, 4, 10, 9, 9], EvalFault::OutOfBounds { word: 0 }),
        (&[1, 4, 10, 9, 9], EvalFault::OutOfBounds { word: 1 }),
        (&[1, 5, 9, 9, 10], EvalFault::OutOfBounds { word: 4 }),
    ] {
        match run_text(rt.alloc(), MIXED, "clc", inputs)? {
            Outcome::Refused(found) => assert!(rt; found == fault, "{inputs:?}"),
            _ => assert!(rt; false, "{inputs:?} are refused"),
        }
    }
    Ok(())
}

// Each register, with the place of an array, a scalar or a filling of its own, and each cell, in a frame of 16
// bytes.
#[test]
fn a_start_state_is_as_stated(rt: HostRuntime) -> Result<(), Fail> {
    let program = program_of(rt.alloc(), MIXED).expect(&rt, "the text is a program");
    let text = "sub rsp, 16\nadd rsp, 16";
    let listing = listing_of(rt.alloc(), text)?.expect(&rt, "the lines are a listing");
    let state = State::start(rt.alloc(), &program, &listing, &[1, 6, 7, 8, 9]);
    let state = state.expect(&rt, "the inputs are in bounds");
    let unused = |number: u64| 0xa5a5_a5a5_a5a5_a500 | number;
    assert!(rt;
        state.regs
            == [
                unused(0),
                0x40000,
                6,
                unused(3),
                RSP,
                unused(5),
                1,
                0x10000,
                unused(8),
                unused(9),
                unused(10),
                unused(11),
                unused(12),
                unused(13),
                unused(14),
                unused(15),
            ]
    );
    assert!(rt; state.cf.is_none() && state.of.is_none() && state.zf.is_none());
    for (place, there) in [
        (0x10000, [Some(FILLING), Some(FILLING), None, None]),
        (0x20000, [None, None, None, None]),
        (0x30000, [None, None, None, None]),
        (0x40000, [Some(7), Some(8), Some(9), None]),
        (0xfff8, [None, Some(FILLING), Some(FILLING), None]),
        (0x3fff8, [None, Some(7), Some(8), Some(9)]),
        (
            RSP - 24,
            [None, Some(FILLING), Some(FILLING), Some(FILLING)],
        ),
        (RSP, [Some(FILLING), None, None, None]),
    ] {
        assert!(rt; cells(&state, place) == there, "at {place}");
    }
    Ok(())
}

#[test]
fn the_largest_frame_is_there(rt: HostRuntime) -> Result<(), Fail> {
    let text = "sub rsp, 32816\nmov rax, [rsp]\nmov rcx, [rsp + 32816]\nadd rsp, 32816";
    assert!(rt; matches!(run_text(rt.alloc(), COPY1, text, &[77])?, Outcome::Ended(_)));
    let below = "sub rsp, 32816\nmov rax, [rsp - 8]\nadd rsp, 32816";
    assert!(rt;
        matches!(
            run_text(rt.alloc(), COPY1, below, &[77])?,
            Outcome::Stuck(2)
        )
    );
    let above = "sub rsp, 32816\nmov rax, [rsp + 32824]\nadd rsp, 32816";
    assert!(rt;
        matches!(
            run_text(rt.alloc(), COPY1, above, &[77])?,
            Outcome::Stuck(2)
        )
    );
    Ok(())
}
