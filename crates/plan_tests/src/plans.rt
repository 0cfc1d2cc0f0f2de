//! Plans, their windows, and mutations of them.
ghost use Rattle.std.specs.Prelude.{◌≤◌};

use crate::programs::{CHAIN2, parts};
use mutations::{Draw, Mutation, apply, drawn, words};
use op_order::{Plan, Slot, window};
use std::alloc::{AllocError, Global};
use std::test::Fail;
use word_program::Program;

/// `examples/mul4.json`.
const MUL4: &[&str] = &[
    "mulx l_0_0,h_0_0 arg1[0],arg2[0]",
    "mulx l_0_1,h_0_1 arg1[0],arg2[1]",
    "mulx l_0_2,h_0_2 arg1[0],arg2[2]",
    "mulx l_0_3,h_0_3 arg1[0],arg2[3]",
    "addcarryx r_0_1,c_0_1 0,h_0_0,l_0_1",
    "addcarryx r_0_2,c_0_2 c_0_1,h_0_1,l_0_2",
    "addcarryx r_0_3,c_0_3 c_0_2,h_0_2,l_0_3",
    "addcarryx r_0_4,_ c_0_3,h_0_3,0",
    "mulx l_1_0,h_1_0 arg1[1],arg2[0]",
    "mulx l_1_1,h_1_1 arg1[1],arg2[1]",
    "mulx l_1_2,h_1_2 arg1[1],arg2[2]",
    "mulx l_1_3,h_1_3 arg1[1],arg2[3]",
    "addcarryx r_1_1,c_1_1 0,h_1_0,l_1_1",
    "addcarryx r_1_2,c_1_2 c_1_1,h_1_1,l_1_2",
    "addcarryx r_1_3,c_1_3 c_1_2,h_1_2,l_1_3",
    "addcarryx r_1_4,_ c_1_3,h_1_3,0",
    "addcarryx s_1_0,d_1_0 0,r_0_1,l_1_0",
    "addcarryx s_1_1,d_1_1 d_1_0,r_0_2,r_1_1",
    "addcarryx s_1_2,d_1_2 d_1_1,r_0_3,r_1_2",
    "addcarryx s_1_3,d_1_3 d_1_2,r_0_4,r_1_3",
    "addcarryx s_1_4,_ d_1_3,0,r_1_4",
    "mulx l_2_0,h_2_0 arg1[2],arg2[0]",
    "mulx l_2_1,h_2_1 arg1[2],arg2[1]",
    "mulx l_2_2,h_2_2 arg1[2],arg2[2]",
    "mulx l_2_3,h_2_3 arg1[2],arg2[3]",
    "addcarryx r_2_1,c_2_1 0,h_2_0,l_2_1",
    "addcarryx r_2_2,c_2_2 c_2_1,h_2_1,l_2_2",
    "addcarryx r_2_3,c_2_3 c_2_2,h_2_2,l_2_3",
    "addcarryx r_2_4,_ c_2_3,h_2_3,0",
    "addcarryx s_2_0,d_2_0 0,s_1_1,l_2_0",
    "addcarryx s_2_1,d_2_1 d_2_0,s_1_2,r_2_1",
    "addcarryx s_2_2,d_2_2 d_2_1,s_1_3,r_2_2",
    "addcarryx s_2_3,d_2_3 d_2_2,s_1_4,r_2_3",
    "addcarryx s_2_4,_ d_2_3,0,r_2_4",
    "mulx l_3_0,h_3_0 arg1[3],arg2[0]",
    "mulx l_3_1,h_3_1 arg1[3],arg2[1]",
    "mulx l_3_2,h_3_2 arg1[3],arg2[2]",
    "mulx l_3_3,h_3_3 arg1[3],arg2[3]",
    "addcarryx r_3_1,c_3_1 0,h_3_0,l_3_1",
    "addcarryx r_3_2,c_3_2 c_3_1,h_3_1,l_3_2",
    "addcarryx r_3_3,c_3_3 c_3_2,h_3_2,l_3_3",
    "addcarryx r_3_4,_ c_3_3,h_3_3,0",
    "addcarryx s_3_0,d_3_0 0,s_2_1,l_3_0",
    "addcarryx s_3_1,d_3_1 d_3_0,s_2_2,r_3_1",
    "addcarryx s_3_2,d_3_2 d_3_1,s_2_3,r_3_2",
    "addcarryx s_3_3,d_3_3 d_3_2,s_2_4,r_3_3",
    "addcarryx s_3_4,_ d_3_3,0,r_3_4",
    "= out1[0] l_0_0",
    "= out1[1] s_1_0",
    "= out1[2] s_2_0",
    "= out1[3] s_3_0",
    "= out1[4] s_3_1",
    "= out1[5] s_3_2",
    "= out1[6] s_3_3",
    "= out1[7] s_3_4",
];

fn program(alloc: Global, output: &str, rows: &[&str]) -> Result<Program, Fail> {
    let parts = parts(alloc, output, "u64[4]", rows)?;
    Ok(Program::new(alloc, &parts)?)
}

/// Seeds, turns and their words. Those of the seed 0 are test vectors of RFC 8439, appendix A.1.
const WORDS: &[(u64, u32, [u32; 4])] = &[
    (0, 0, [0xade0b876, 0x903df1a0, 0xe56a5d40, 0x28bd8653]),
    (0, 1, [0xb819d2bd, 0x1aed8da0, 0xccef36a8, 0xc70d778b]),
    (0, 4, [0xbee7079f, 0x7a385155, 0x7c97ba98, 0x0d082d73]),
    (1, 0, [0x7c0ad3c5, 0x9311ece1, 0x484fc878, 0x855a777d]),
    (
        0x0102030405060708,
        65535,
        [0x0c8f6e79, 0xedf4721f, 0xf134f4c6, 0x92a683c2],
    ),
    (
        u64::MAX,
        u32::MAX,
        [0x9fc930d8, 0x6f16612e, 0x95416921, 0x1f5b4d13],
    ),
];

#[test]
fn words_are_those_of_chacha20(rt: HostRuntime) -> Result<(), Fail> {
    for (seed, turn, expected) in WORDS {
        assert_eq!(rt; words(*seed, *turn), *expected, "{seed} {turn}");
    }
    Ok(())
}

fn ops_of(plan: &Plan, alloc: Global) -> Result<Vec<u16>, AllocError> {
    let mut ops = Vec::new(alloc);
    for slot in plan.slots() {
        ops.push(slot.op)?;
    }
    Ok(ops)
}

#[test]
#[tactic(auto, unfolding(mutations::specs::Mutations::Fits))]
fn a_slot_moves_within_its_window(rt: HostRuntime) -> Result<(), Fail> {
    let program = program(rt.alloc(), "u64[4]", CHAIN2)?;
    let mut plan = Plan::opening(rt.alloc(), &program)?;
    assert!(rt; plan.slots().len() == 4);
    assert_eq!(rt; window(&program, &plan, 0), (0, 1));
    let (low, high) = window(&program, &plan, 2);
    assert!(rt; low == 1 && high == 3);
    apply(&program, Mutation::Move { slot: 2, to: 3 }, &mut plan);
    assert_eq!(rt;
        ops_of(&plan, rt.alloc())?.as_slice(),
        [0, 1, 3, 2].as_slice()
    );
    assert_eq!(rt; plan.room(), 4);
    Ok(())
}

#[test]
#[tactic(auto, unfolding(mutations::specs::Mutations::Fits))]
fn marks_are_turned(rt: HostRuntime) -> Result<(), Fail> {
    let program = program(rt.alloc(), "u64[4]", CHAIN2)?;
    let mut plan = Plan::opening(rt.alloc(), &program)?;
    assert!(rt; plan.slots().len() == 4);
    apply(&program, Mutation::Swap { slot: 3 }, &mut plan);
    assert!(rt; plan.slots().len() == 4);
    apply(&program, Mutation::Load { slot: 3 }, &mut plan);
    let expected = Slot {
        op: 3,
        template: 0,
        swap: true,
        load_first: true,
    };
    assert_eq!(rt; plan.slots().last(), Some(&expected));
    Ok(())
}

/// Turns of the seed 0, and the mutation of mul4's opening plan that they draw.
const DRAWN: &[(u32, Mutation)] = &[
    (0, Mutation::Swap { slot: 51 }),
    (
        1,
        Mutation::Template {
            slot: 19,
            number: 2,
        },
    ),
    (4, Mutation::Load { slot: 34 }),
    (23, Mutation::Move { slot: 42, to: 37 }),
    (33, Mutation::Move { slot: 10, to: 7 }),
    (
        40,
        Mutation::Template {
            slot: 25,
            number: 2,
        },
    ),
];

#[test]
fn mutations_are_drawn(rt: HostRuntime) -> Result<(), Fail> {
    let program = program(rt.alloc(), "u64[8]", MUL4)?;
    let plan = Plan::opening(rt.alloc(), &program)?;
    for (turn, expected) in DRAWN {
        assert_eq!(rt;
            drawn(&program, &plan, words(0, *turn), Draw::One),
            *expected,
            "{turn}"
        );
    }
    Ok(())
}

#[test]
#[tactic(auto, unfolding(mutations::specs::Mutations::Fits))]
fn the_chain_of_a_copy_leaves_the_plan(rt: HostRuntime) -> Result<(), Fail> {
    let program = program(rt.alloc(), "u64[8]", MUL4)?;
    let mut plan = Plan::opening(rt.alloc(), &program)?;
    let mut before = Plan::opening(rt.alloc(), &program)?;
    assert!(rt; plan.slots().len() == 55);
    let mutation = drawn(&program, &plan, words(0, 0), Draw::Two);
    let chain = Mutation::Chain {
        slot: 51,
        number: 1,
    };
    assert_eq!(rt; mutation, chain);
    apply(&program, mutation, &mut plan);
    assert!(rt; plan.same(&before));
    Ok(())
}

fn templates_of(plan: &Plan, alloc: Global) -> Result<Vec<u8>, AllocError> {
    let mut templates = Vec::new(alloc);
    for slot in plan.slots() {
        templates.push(slot.template)?;
    }
    Ok(templates)
}

/// The templates of the slots of `examples/chain2.json` after a chain of its opening plan.
#[tactic(auto, unfolding(mutations::specs::Mutations::Fits))]
fn templates_after(alloc: Global, slot: u16, number: u8) -> Result<Vec<u8>, Fail>
    requires slot { slot ≤ 3 }
    requires number { (1 ≤ number) × (number ≤ 2) }
{
    let program = program(alloc, "u64[4]", CHAIN2)?;
    let mut plan = Plan::opening(alloc, &program)?;
    if plan.slots().len() == 4 {
        apply(&program, Mutation::Chain { slot, number }, &mut plan);
    }
    Ok(templates_of(&plan, alloc)?)
}

#[test]
fn a_chain_gets_one_template(rt: HostRuntime) -> Result<(), Fail> {
    assert_eq!(rt;
        templates_after(rt.alloc(), 0, 2)?.as_slice(),
        [2, 0, 2, 0].as_slice()
    );
    assert_eq!(rt;
        templates_after(rt.alloc(), 1, 1)?.as_slice(),
        [0, 1, 0, 1].as_slice()
    );
    assert_eq!(rt;
        templates_after(rt.alloc(), 2, 1)?.as_slice(),
        [0, 0, 1, 0].as_slice()
    );
    Ok(())
}

#[test]
fn turn_4_of_the_seed_1_puts_a_chain_forward(rt: HostRuntime) -> Result<(), Fail> {
    let program = program(rt.alloc(), "u64[4]", CHAIN2)?;
    let mut plan = Plan::opening(rt.alloc(), &program)?;
    let mutation = drawn(&program, &plan, words(1, 4), Draw::One);
    assert_eq!(rt; mutation, Mutation::Move { slot: 1, to: 2 });
    apply(&program, mutation, &mut plan);
    assert_eq!(rt;
        ops_of(&plan, rt.alloc())?.as_slice(),
        [0, 2, 1, 3].as_slice()
    );
    Ok(())
}

#[test]
#[tactic(auto, unfolding(mutations::specs::Mutations::Fits))]
fn a_swap_of_a_copy_leaves_the_plan(rt: HostRuntime) -> Result<(), Fail> {
    let program = program(rt.alloc(), "u64[8]", MUL4)?;
    let mut plan = Plan::opening(rt.alloc(), &program)?;
    assert!(rt; plan.slots().len() == 55);
    let mut before = Plan::with_room(rt.alloc(), 60)?;
    assert!(rt; plan.slots().len() <= before.room() as usize);
    plan.copy_into(&mut before);
    let mutation = drawn(&program, &plan, words(0, 0), Draw::One);
    apply(&program, mutation, &mut plan);
    assert!(rt; plan.same(&before));
    assert!(rt; plan.slots().len() == 55);
    assert_eq!(rt; (plan.room(), before.room()), (55, 60));
    apply(&program, Mutation::Load { slot: 54 }, &mut plan);
    assert!(rt; !plan.same(&before));
    Ok(())
}
