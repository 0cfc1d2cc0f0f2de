//! Plans that follow from what the lanes saw. The listings of a copy of two words show by the order of their owned
//! lines which plan they realise.
use crate::reading::{program_of, replayed};
use journal_replay::ReplayFault;
use std::alloc::Global;
use std::test::Fail;

/// A copy of two words.
const COPY2: &str = r#"{"operation":"copy2",
"returns":[{"name":"out1","datatype":"u64[2]"}],
"arguments":[{"name":"arg1","datatype":"u64[2]"}],"body":
[{"operation":"=","name":["out1[0]"],"arguments":["arg1[0]"]},
{"operation":"=","name":["out1[1]"],"arguments":["arg1[1]"]}]}"#;

/// The word 0 first, and the word 1 first. Each listing costs 17.
const FORTH: &str =
    "mov rax, [rsi] # 0;mov [rdi], rax;mov rax, [rsi + 8] # 1;mov [rdi + 8], rax;ret";

const BACK: &str =
    "mov rax, [rsi + 8] # 1;mov [rdi + 8], rax;mov rax, [rsi] # 0;mov [rdi], rax;ret";

/// The first lane moves slot 0 behind slot 1. The second one saw the plan before that.
const OVERTAKEN: &str =
    "seeds 3,1;turns 1;opening 47;entry 0 0 0 move 0 1 17 fast;entry 1 0 0 template 1 0 17 fast";

/// Or it saw the plan behind it.
const FOLLOWED: &str =
    "seeds 3,1;turns 1;opening 47;entry 0 0 0 move 0 1 17 fast;entry 1 0 1 template 1 0 17 fast";

/// Or it made the dearer offer, and the first one is the incumbent.
const KEPT: &str =
    "seeds 3,1;turns 1;opening 47;entry 0 0 0 move 0 1 17 fast;entry 1 0 0 template 1 0 18 fast";

const DIFFERS: Result<u32, ReplayFault> = Err(ReplayFault::Realises { slot: 0 });

fn said(
    alloc: Global,
    journal: &str,
    lines: &str,
    expected: Result<u32, ReplayFault>,
) -> Result<bool, Fail> {
    let Some(program) = program_of(alloc, COPY2)? else {
        return Ok(false);
    };
    Ok(replayed(alloc, &program, 0, 1, journal, lines)? == Some(expected))
}

#[test]
fn a_lane_changes_the_plan_that_it_saw(rt: HostRuntime) -> Result<(), Fail> {
    assert!(rt; said(rt.alloc(), OVERTAKEN, FORTH, Ok(2))?);
    assert!(rt; said(rt.alloc(), OVERTAKEN, BACK, DIFFERS)?);
    assert!(rt; said(rt.alloc(), FOLLOWED, BACK, Ok(2))?);
    assert!(rt; said(rt.alloc(), FOLLOWED, FORTH, DIFFERS)?);
    assert!(rt; said(rt.alloc(), KEPT, BACK, Ok(1))?);
    assert!(rt; said(rt.alloc(), KEPT, FORTH, DIFFERS)?);
    Ok(())
}
