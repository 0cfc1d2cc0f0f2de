//! Values in flags.
use crate::programs::parts;
use flag_tracks::{Home, Tracks};
use std::test::Fail;
use word_program::Program;
use x86_instr::{Bin, Instr, Reg, Rm, Src};

/// A program with four values: sums and their carries.
const SUMS: &[&str] = &[
    "addcarryx a,b 0,arg1[0],arg2[0]",
    "addcarryx out1[0],c b,arg1[1],arg2[1]",
];

const ADD: Instr = Instr::Bin {
    op: Bin::Add,
    dst: Reg::Rax,
    src: Src::Imm(1),
};

const ADOX: Instr = Instr::Adox {
    dst: Reg::Rax,
    src: Rm::Reg(Reg::Rbx),
};

#[test]
fn an_adox_leaves_a_carry_in_cf_and_an_add_does_not(rt: HostRuntime) -> Result<(), Fail> {
    let program = Program::new(rt.alloc(), &parts(rt.alloc(), SUMS)?)?;
    let mut tracks = Tracks::new(rt.alloc(), &program)?;
    assert!(rt; program.values() == 4);
    tracks.put(1, Home::Cf);
    tracks.put(3, Home::Of);
    tracks.kill(&ADOX);
    assert_eq!(rt; tracks.home(1), Home::Cf);
    assert_eq!(rt; tracks.home(3), Home::Gone);
    tracks.kill(&ADD);
    assert_eq!(rt; tracks.home(1), Home::Gone);
    Ok(())
}

#[test]
fn a_flag_has_the_value_that_was_put_there_last(rt: HostRuntime) -> Result<(), Fail> {
    let program = Program::new(rt.alloc(), &parts(rt.alloc(), SUMS)?)?;
    let mut tracks = Tracks::new(rt.alloc(), &program)?;
    assert!(rt; program.values() == 4);
    assert_eq!(rt; tracks.home(0), Home::Gone);
    tracks.put(0, Home::Register(Reg::R9));
    tracks.put(2, Home::Slot(5));
    tracks.put(1, Home::Of);
    tracks.put(3, Home::Of);
    assert_eq!(rt; tracks.home(1), Home::Gone);
    assert_eq!(rt; tracks.home(3), Home::Of);
    tracks.put(3, Home::Cf);
    tracks.put(1, Home::Of);
    tracks.kill(&ADD);
    assert_eq!(rt; tracks.home(0), Home::Register(Reg::R9));
    assert_eq!(rt; tracks.home(2), Home::Slot(5));
    Ok(())
}
