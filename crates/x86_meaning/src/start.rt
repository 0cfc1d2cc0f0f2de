//! The stated start state, in which listings are tried.

ghost use Rattle.std.specs.Prelude.{◌≡◌, ◌%◌, ◌≤◌, ◌<◌, IfOk, IfErr, OnOk, length};
ghost use Rattle.word_program.specs.Evaluates.{Refuses};
ghost use Rattle.word_program.specs.Values as values;
ghost use Rattle.x86_meaning.specs.Start.{IsStart};
ghost use Rattle.x86_meaning.specs.Start as starts;
ghost use Rattle.x86_meaning.specs.Stated as spec;
ghost use Rattle.x86_meaning.specs.StatedCells as rows;

use crate::cells::Cells;
use crate::state::State;
use std::alloc::{AllocError, Global};
use word_program::{EvalFault, Program, Role, check_inputs};
use x86_instr::{Listing, Reg};

/// The word of each cell that holds no input.
const FILLING: u64 = 0x5a5a_5a5a_5a5a_5a5a;

/// The address of the return address.
const STACK_ADDRESS: u64 = 0x7fff_fff8;

/// The addresses from the begin of one parameter's array to that of the next one.
const ARRAY_STEP: u64 = 65_536;

/// Where a parameter's array begins.
fn array_address(param: usize) -> u64
    requires { param < 6 }
    ensures { result ≡ spec.array_address param }
{
    ARRAY_STEP * (param as u64 + 1)
}

/// A word of an input parameter.
fn input_word(program: &Program, inputs: &[u64], param: usize, word: usize) -> u64
    requires { word < 32 }
    ensures { result ≡ values.input_word program.now.params inputs.now param word }
{
    match inputs.get(program.input_offset(param) + word) {
        Some(word) => *word,
        None => 0,
    }
}

/// What the register of the parameter with this number holds, and another word where there is none.
fn param_word(program: &Program, inputs: &[u64], param: usize, other: u64) -> u64
    requires { param < 6 }
    ensures { result ≡ spec.param_word program.now.params inputs.now param other }
{
    let Some(found) = program.params().get(param) else {
        return other;
    };
    match found.role {
        Role::Output | Role::InputArray => array_address(param),
        Role::InputScalar => input_word(program, inputs, param, 0),
    }
}

/// What a register holds that has no other use.
fn unused_word(reg: Reg) -> u64
    ensures { result ≡ spec.unused_word reg }
{
    0xa5a5_a5a5_a5a5_a500 + u64::from(reg.number())
}

/// What a register holds.
fn stated_reg(program: &Program, inputs: &[u64], reg: Reg) -> u64
    ensures { result ≡ spec.stated_reg program.now.params inputs.now reg }
{
    match reg {
        Reg::Rdi => param_word(program, inputs, 0, unused_word(reg)),
        Reg::Rsi => param_word(program, inputs, 1, unused_word(reg)),
        Reg::Rdx => param_word(program, inputs, 2, unused_word(reg)),
        Reg::Rcx => param_word(program, inputs, 3, unused_word(reg)),
        Reg::R8 => param_word(program, inputs, 4, unused_word(reg)),
        Reg::R9 => param_word(program, inputs, 5, unused_word(reg)),
        Reg::Rsp => STACK_ADDRESS,
        Reg::Rax | Reg::Rbx | Reg::Rbp | Reg::R10 | Reg::R11 => unused_word(reg),
        Reg::R12 | Reg::R13 | Reg::R14 | Reg::R15 => unused_word(reg),
    }
}

/// What the registers hold, by number.
fn stated_regs(program: &Program, inputs: &[u64]) -> [u64; 16]
    ensures { result ≡ rows.stated_regs program.now.params inputs.now }
{
    [
        stated_reg(program, inputs, Reg::Rax),
        stated_reg(program, inputs, Reg::Rcx),
        stated_reg(program, inputs, Reg::Rdx),
        stated_reg(program, inputs, Reg::Rbx),
        stated_reg(program, inputs, Reg::Rsp),
        stated_reg(program, inputs, Reg::Rbp),
        stated_reg(program, inputs, Reg::Rsi),
        stated_reg(program, inputs, Reg::Rdi),
        stated_reg(program, inputs, Reg::R8),
        stated_reg(program, inputs, Reg::R9),
        stated_reg(program, inputs, Reg::R10),
        stated_reg(program, inputs, Reg::R11),
        stated_reg(program, inputs, Reg::R12),
        stated_reg(program, inputs, Reg::R13),
        stated_reg(program, inputs, Reg::R14),
        stated_reg(program, inputs, Reg::R15),
    ]
}

/// How many words the array of the parameter with this number has, and 0 where there is none.
#[tactic(auto, using(crate::proofs::StatedRows::params_limits))]
fn array_words(program: &Program, param: usize) -> usize
    ensures count { result ≡ starts.array_words program.now.params param }
    ensures limit { result ≤ 32 }
{
    let Some(found) = program.params().get(param) else {
        return 0;
    };
    match found.role {
        Role::Output | Role::InputArray => found.bounds.items().len(),
        Role::InputScalar => 0,
    }
}

/// A word of the array of the parameter with this number.
fn array_cell(program: &Program, inputs: &[u64], param: usize, word: usize) -> u64
    requires { word < 32 }
    ensures { result ≡ spec.array_cell program.now.params inputs.now param word }
{
    let Some(found) = program.params().get(param) else {
        return FILLING;
    };
    match found.role {
        Role::Output => FILLING,
        Role::InputArray | Role::InputScalar => input_word(program, inputs, param, word),
    }
}

fn memory(_: AllocError) -> EvalFault
    ensures { result ≡ EvalFault.Memory }
{
    EvalFault::Memory
}

/// Puts the array of the parameter with this number into the memory.
#[tactic(auto, using(crate::proofs::StatedRows::row_none, crate::proofs::StatedRows::row_more))]
fn put_array(
    cells: &mut Cells,
    program: &Program,
    inputs: &[u64],
    param: usize,
) -> Result<(), AllocError>
    requires { param < 6 }
    ensures { OnOk result (cells.new ≡ rows.with_array program.entry.now.params inputs.entry.now param cells.old) }
{
    for word in 0..array_words(program, param) {
        let address = array_address(param) + 8 * word as u64;
        cells.set(address, array_cell(program, inputs, param, word))?;
    }
    Ok(())
}

/// Puts the arrays of all parameters into the memory.
#[tactic(auto, using(crate::proofs::StatedRows::rows_none, crate::proofs::StatedRows::rows_more))]
fn put_arrays(cells: &mut Cells, program: &Program, inputs: &[u64]) -> Result<(), AllocError>
    ensures arrays { OnOk result (cells.new ≡ rows.with_arrays program.entry.now.params inputs.entry.now
        (length program.entry.now.params) cells.old) }
    ensures limits { spec.AreParams program.entry.now.params }
{
    for param in 0..program.params().len() {
        put_array(cells, program, inputs, param)?;
    }
    Ok(())
}

/// Puts the frame and the return address into the memory.
#[tactic(auto, using(crate::proofs::StatedRows::row_none, crate::proofs::StatedRows::row_more))]
fn put_stack(cells: &mut Cells, frame: u32) -> Result<(), AllocError>
    requires aligned { frame % 8 ≡ 0 }
    requires most { frame ≤ 32816 }
    ensures { OnOk result (cells.new ≡ rows.with_stack frame cells.old) }
{
    let first = STACK_ADDRESS - u64::from(frame);
    for word in 0..u64::from(frame) / 8 + 1 {
        cells.set(first + 8 * word, FILLING)?;
    }
    Ok(())
}

/// The memory.
fn stated_cells(
    alloc: Global,
    program: &Program,
    inputs: &[u64],
    frame: u32,
) -> Result<Cells, EvalFault>
    requires aligned { frame % 8 ≡ 0 }
    requires most { frame ≤ 32816 }
    ensures cells { IfOk result (λ cells. cells ≡ rows.stated_cells program.entry.now.params frame inputs.entry.now) }
    ensures err { IfErr result (λ fault. fault ≡ EvalFault.Memory) }
    ensures limits { spec.AreParams program.entry.now.params }
{
    let mut cells = Cells::new(alloc);
    put_arrays(&mut cells, program, inputs).map_err(memory)?;
    put_stack(&mut cells, frame).map_err(memory)?;
    Ok(cells)
}

impl State {
    /// The stated start state of a listing for a program on these input words. Parameter `p`'s array begins at
    /// 65,536 * (p + 1), `rsp` is 0x7ffffff8, each register without a use holds 0xa5a5a5a5a5a5a500 plus its
    /// number, each cell that holds no input 0x5a5a5a5a5a5a5a5a, and all flags are undefined. The faults are
    /// those of `word_program::eval`, and come where they come there. It takes memory for the arrays, the
    /// frame and the return address, and for no other cell.
    #[tactic(auto, using(crate::proofs::FrameLimits::frame_is))]
    pub fn start(
        alloc: Global,
        program: &Program,
        listing: &Listing,
        inputs: &[u64],
    ) -> Result<State, EvalFault>
        ensures stated { IfOk result (λ state.
            spec.IsStated program.entry.now listing.entry.now.lines inputs.entry.now state) }
        ensures start { IfOk result (λ state.
            IsStart program.entry.now listing.entry.now.lines inputs.entry.now state) }
        ensures err { IfErr result (λ fault. Refuses program.entry.now inputs.entry.now fault) }
    {
        check_inputs(alloc, program, inputs)?;
        let cells = stated_cells(alloc, program, inputs, listing.frame())?;
        Ok(State {
            regs: stated_regs(program, inputs),
            cf: None,
            of: None,
            zf: None,
            cells,
        })
    }
}
