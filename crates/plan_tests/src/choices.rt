//! The templates of each kind of operation, and which operations need which.
ghost use Rattle.std.specs.Prelude.{◌<◌, length};

use crate::programs::{CHAIN2, parts};
use dependency_graph::{Graph, definer, first_value, reads_value_in};
use std::test::Fail;
use templates::{count, mnemonics};
use word_program::Program;
use x86_instr::Mnemonic;

/// An operation of a program, and the mnemonics of each of its templates.
const TEMPLATES: &[(&str, &[&[Mnemonic]])] = &[
    (
        "addcarryx s,c 0,arg1[0],arg2[0]",
        &[
            &[Mnemonic::Adc],
            &[Mnemonic::Adcx],
            &[Mnemonic::Adox],
            &[Mnemonic::Add],
        ],
    ),
    (
        "addcarryx t,_ c,arg1[1],arg2[1]",
        &[&[Mnemonic::Adc], &[Mnemonic::Adcx], &[Mnemonic::Adox]],
    ),
    (
        "addcarryx u,_ 0x0,arg1[1],arg2[1]",
        &[
            &[Mnemonic::Adc],
            &[Mnemonic::Adcx],
            &[Mnemonic::Adox],
            &[Mnemonic::Add],
            &[Mnemonic::Lea],
        ],
    ),
    (
        "addcarryx _,_ 00,arg1[1],arg2[1]",
        &[
            &[Mnemonic::Adc],
            &[Mnemonic::Adcx],
            &[Mnemonic::Adox],
            &[Mnemonic::Add],
            &[Mnemonic::Lea],
        ],
    ),
    (
        "addcarryx _,d 0,0,0",
        &[
            &[Mnemonic::Adc],
            &[Mnemonic::Adcx],
            &[Mnemonic::Adox],
            &[Mnemonic::Add],
        ],
    ),
    (
        "addcarryx v,_ 1,0,0",
        &[&[Mnemonic::Adc], &[Mnemonic::Adcx], &[Mnemonic::Adox]],
    ),
    (
        "subborrowx w,b 0,arg1[2],arg2[2]",
        &[&[Mnemonic::Sbb], &[Mnemonic::Sub]],
    ),
    (
        "subborrowx _,_ 0,arg1[2],arg2[2]",
        &[&[Mnemonic::Sbb], &[Mnemonic::Sub]],
    ),
    ("subborrowx _,_ b,0,0", &[&[Mnemonic::Sbb]]),
    (
        "mulx l,h arg1[0],arg2[0]",
        &[&[Mnemonic::Mulx], &[Mnemonic::Mul]],
    ),
    ("* m l,h", &[&[Mnemonic::Imul], &[Mnemonic::Mulx]]),
    ("+ n l,h", &[&[Mnemonic::Add], &[Mnemonic::Lea]]),
    ("- o l,h", &[&[Mnemonic::Sub]]),
    ("& p l,h", &[&[Mnemonic::And]]),
    ("| q l,h", &[&[Mnemonic::Or]]),
    ("^ r l,h", &[&[Mnemonic::Xor]]),
    ("~ x l", &[&[Mnemonic::Not]]),
    ("= y l", &[&[Mnemonic::Mov]]),
    ("<< z l,1", &[&[Mnemonic::Shl], &[Mnemonic::Shlx]]),
    (">> aa l,63", &[&[Mnemonic::Shr], &[Mnemonic::Shrx]]),
    (
        "shrd bb l,h,8",
        &[
            &[Mnemonic::Shrd],
            &[Mnemonic::Shrx, Mnemonic::Shlx, Mnemonic::Lea],
        ],
    ),
    (
        "cmovznz out1[0] c,l,h",
        &[&[Mnemonic::Test, Mnemonic::Cmovnz], &[Mnemonic::Cmovc]],
    ),
];

fn are_same(list: &[Mnemonic], wanted: &[Mnemonic]) -> bool {
    list.len() == wanted.len()
        && list
            .iter()
            .zip(wanted)
            .all(|(mnemonic, other)| *mnemonic as u8 == *other as u8)
}

// An operation has exactly these templates.
fn has_templates(program: &Program, op: u16, wanted: &[&[Mnemonic]]) -> bool
    requires { op < length program.now.ops }
{
    if count(program, op) as usize != wanted.len() {
        return false;
    }
    for number in 0..count(program, op) {
        if !are_same(mnemonics(program, op, number), wanted[number as usize]) {
            return false;
        }
    }
    true
}

#[test]
fn each_operation_has_the_templates_of_its_kind(rt: HostRuntime) -> Result<(), Fail> {
    let mut rows = Vec::new(rt.alloc());
    for (row, _) in TEMPLATES {
        rows.push(*row)?;
    }
    let parts = parts(rt.alloc(), "u64[1]", "u64[4]", rows.as_slice())?;
    let program = Program::new(rt.alloc(), &parts)?;
    assert_eq!(rt; program.ops().len(), TEMPLATES.len());
    for op in 0..program.ops().len() {
        let (row, wanted) = TEMPLATES[op];
        assert!(rt; has_templates(&program, op as u16, wanted), "{row}");
    }
    Ok(())
}

#[test]
fn the_starts_of_the_chains_of_chain2_have_four_templates(rt: HostRuntime) -> Result<(), Fail> {
    let parts = parts(rt.alloc(), "u64[4]", "u64[4]", CHAIN2)?;
    let program = Program::new(rt.alloc(), &parts)?;
    assert!(rt; program.ops().len() == 4);
    assert_eq!(rt; count(&program, 0), 4);
    assert_eq!(rt; count(&program, 1), 4);
    assert_eq!(rt; count(&program, 2), 3);
    assert_eq!(rt; count(&program, 3), 3);
    Ok(())
}

// Operations of which the operands come from one operation, and from three of them.
const SHARED: &[&str] = &[
    "mulx l,h arg1[0],arg2[0]",
    "+ a l,h",
    "addcarryx b,c 0,a,l",
    "addcarryx out1[0],_ c,a,h",
    "= _ arg1[0]",
];

/// Programs, the words of their output array, and of each operation the ones that it needs and its users.
const LINKS: &[(&[&str], &str, &[(&[u16], &[u16])])] = &[
    (
        CHAIN2,
        "u64[4]",
        &[(&[], &[2]), (&[], &[3]), (&[0], &[]), (&[1], &[])],
    ),
    (
        SHARED,
        "u64[1]",
        &[
            (&[], &[1, 2, 3]),
            (&[0], &[2, 3]),
            (&[0, 1], &[3]),
            (&[0, 1, 2], &[]),
            (&[], &[]),
        ],
    ),
];

#[test]
fn needs_and_users_are_told_once_and_ascending(rt: HostRuntime) -> Result<(), Fail> {
    for (rows, output, links) in LINKS {
        let parts = parts(rt.alloc(), output, "u64[4]", rows)?;
        let program = Program::new(rt.alloc(), &parts)?;
        let graph = Graph::of(rt.alloc(), &program)?;
        assert!(rt; program.ops().len() == links.len());
        for (op, (needs, users)) in links.iter().enumerate() {
            assert_eq!(rt; graph.needs(op as u16), *needs, "{op}");
            assert_eq!(rt; graph.users(op as u16), *users, "{op}");
        }
    }
    Ok(())
}

#[test]
fn values_are_counted_through_the_operations(rt: HostRuntime) -> Result<(), Fail> {
    let parts = parts(rt.alloc(), "u64[1]", "u64[4]", SHARED)?;
    let program = Program::new(rt.alloc(), &parts)?;
    assert!(rt; program.ops().len() == 5 && program.values() == 8);
    assert_eq!(rt; first_value(&program, 2), 3);
    assert_eq!(rt; first_value(&program, 5), 8);
    assert_eq!(rt; definer(&program, 1), 0);
    assert_eq!(rt; definer(&program, 2), 1);
    assert_eq!(rt; definer(&program, 7), 4);
    assert!(rt; reads_value_in(&program, 3, 4, 5) && !reads_value_in(&program, 3, 3, 4));
    Ok(())
}
