//! Each check of a replay that fails alone, and journals with two failures, of which the first one is told.
use crate::reading::{program_of, replayed};
use equiv_validator::Why;
use journal_replay::ReplayFault;
use std::alloc::Global;
use std::test::Fail;
use x86_instr::Reg;

/// A copy of one word.
const COPY1: &str = r#"{"operation":"copy1",
"returns":[{"name":"out1","datatype":"u64[1]"}],
"arguments":[{"name":"arg1","datatype":"u64[1]"}],
"body":[{"operation":"=","name":["out1[0]"],"arguments":["arg1[0]"]}]}"#;

/// A listing of it that costs 9.
const COPY: &str = "mov rax, qword ptr [rsi] # 0;mov qword ptr [rdi], rax;ret";

/// A journal with two lanes of two turns. The mutations are those that the words of ChaCha20 draw for the seeds 0
/// and 7. The last entry costs as much as the one before it, and so is the incumbent.
const WHOLE: &str = "seeds 0,7;turns 2;opening 28;entry 0 0 0 chain 0 1 20 fast;\
    entry 1 0 0 template 0 0 28 plain;entry 1 1 2 move 0 0 9 fast;entry 0 1 3 load 0 9 fast";

/// Journals of the copy, and listings that cost what their incumbents do, and the first fault of each.
const ENTRIES: &[(&str, u32, u8)] = &[
    (
        "seeds 0;turns 1;opening 28;entry 1 0 0 chain 0 1 9 fast",
        1,
        1,
    ),
    ("seeds 0;turns 2;opening 28;entry 0 1 0 load 0 9 fast", 1, 2),
    (
        "seeds 0;turns 1;opening 28;entry 0 0 0 chain 0 1 9 fast;entry 0 1 1 load 0 9 fast",
        2,
        2,
    ),
    (
        "seeds 0;turns 1;opening 28;entry 0 0 1 chain 0 1 9 fast",
        1,
        3,
    ),
    (
        "seeds 0;turns 2;opening 28;entry 0 0 0 chain 0 1 9 fast;entry 0 1 0 load 0 9 fast",
        2,
        4,
    ),
    (
        "seeds 0;turns 1;opening 28;entry 0 0 0 chain 0 2 9 fast",
        1,
        5,
    ),
    ("seeds 0;turns 1;opening 28;entry 0 0 0 load 0 9 fast", 1, 5),
    (
        "seeds 0,7;turns 2;opening 28;entry 0 0 0 chain 0 1 20 fast;\
        entry 1 0 0 template 0 0 28 plain;entry 1 1 2 move 0 0 9 fast",
        4,
        6,
    ),
    ("seeds 0;turns 1;opening 28", 1, 6),
    // Two rules: the lane and the look, the turn and the look, the look and the mutation, two entries.
    (
        "seeds 0;turns 1;opening 28;entry 1 0 1 chain 0 1 9 fast",
        1,
        1,
    ),
    ("seeds 0;turns 2;opening 28;entry 0 1 1 load 0 9 fast", 1, 2),
    ("seeds 0;turns 1;opening 28;entry 0 0 1 load 0 9 fast", 1, 3),
    (
        "seeds 0;turns 2;opening 28;entry 0 0 0 chain 0 1 9 fast;entry 0 1 0 swap 0 9 fast",
        2,
        4,
    ),
    (
        "seeds 0;turns 2;opening 28;entry 0 0 0 chain 0 2 9 fast;entry 1 1 1 load 0 9 fast",
        1,
        5,
    ),
];

/// What the replay says of a journal of the copy, and of the listing of these lines.
fn told(
    alloc: Global,
    byte: u8,
    journal: &str,
    lines: &str,
) -> Result<Option<Result<u32, ReplayFault>>, Fail> {
    let Some(program) = program_of(alloc, COPY1)? else {
        return Ok(None);
    };
    replayed(alloc, &program, byte, 2, journal, lines)
}

/// Of the whole journal.
fn whole(alloc: Global, byte: u8, lines: &str) -> Result<Option<Result<u32, ReplayFault>>, Fail> {
    told(alloc, byte, WHOLE, lines)
}

#[test]
fn a_whole_journal_gives_its_last_cheapest_number(rt: HostRuntime) -> Result<(), Fail> {
    assert!(rt; whole(rt.alloc(), 0, COPY)? == Some(Ok(4)));
    Ok(())
}

#[test]
fn another_digest_is_told_first(rt: HostRuntime) -> Result<(), Fail> {
    let fault = ReplayFault::Digest {
        journal: [0; 32],
        program: [1; 32],
    };
    assert!(rt; whole(rt.alloc(), 1, COPY)? == Some(Err(fault)));
    assert!(rt; whole(rt.alloc(), 1, "ret")? == Some(Err(fault)));
    Ok(())
}

#[test]
fn another_opening_cost_is_told_before_entries(rt: HostRuntime) -> Result<(), Fail> {
    let fault = ReplayFault::Cost {
        recorded: 27,
        table: 28,
    };
    let journal = "seeds 0;turns 1;opening 27;entry 1 0 0 chain 0 2 9 fast";
    let said = told(rt.alloc(), 0, journal, COPY)?;
    assert!(rt; said == Some(Err(fault)));
    Ok(())
}

#[test]
fn entries_break_their_first_rule(rt: HostRuntime) -> Result<(), Fail> {
    for (journal, number, rule) in ENTRIES {
        let fault = ReplayFault::Entry {
            number: *number,
            rule: *rule,
        };
        let said = told(rt.alloc(), 0, journal, "ret")?;
        assert!(rt; said == Some(Err(fault)), "{journal}");
    }
    Ok(())
}

#[test]
fn listings_fail_in_order(rt: HostRuntime) -> Result<(), Fail> {
    // No line is owned, and the cost is another one.
    let none = "mov rax, qword ptr [rsi];ret";
    assert!(rt; whole(rt.alloc(), 0, none)? == Some(Err(ReplayFault::Realises { slot: 0 })));
    // One line too many is owned.
    let more = "mov rax, qword ptr [rsi] # 0;mov qword ptr [rdi], rax # 0;ret";
    assert!(rt; whole(rt.alloc(), 0, more)? == Some(Err(ReplayFault::Realises { slot: 1 })));
    // The cost is another one, and the output is not written.
    let short = "mov rax, qword ptr [rsi] # 0;ret";
    let fault = ReplayFault::Cost {
        recorded: 9,
        table: 6,
    };
    assert!(rt; whole(rt.alloc(), 0, short)? == Some(Err(fault)));
    Ok(())
}

#[test]
fn what_is_not_proved_is_told_last(rt: HostRuntime) -> Result<(), Fail> {
    let lines = "mov rax, qword ptr [rsi] # 0;mov qword ptr [rdi], rax;mov rbx, rax;ret";
    let journal = "seeds 0;turns 1;opening 28;entry 0 0 0 chain 0 1 10 fast";
    let said = told(rt.alloc(), 0, journal, lines)?;
    let why = Why::Saved { reg: Reg::Rbx };
    assert!(rt; said == Some(Err(ReplayFault::NotProved(why))));
    Ok(())
}
