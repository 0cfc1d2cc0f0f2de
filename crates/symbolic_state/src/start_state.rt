//! The symbolic state at the start of a listing.

ghost use Rattle.std.specs.Prelude.{◌≡◌, ℕ, ◌+◌, ◌-◌, ◌^◌, ◌/◌, ◌<◌, ◌≤◌, length, map, replicate};
ghost use Rattle.std.specs.Prelude.{slice_get, slice_set, Some, None, IfOk, if◌then◌else◌};
ghost use Rattle.std.specs.List.{range_with_len};
ghost use Rattle.word_program.specs.declared.operation.Operand.TheVariants as operands;
ghost use Rattle.word_program.specs.Accepted.{IsAccepted, IsOperand, IsParam};
ghost use Rattle.base.specs.declared.limits.TheConstants.{MAX_ARRAY_WORDS};
ghost use Rattle.word_program.specs.Values as values;
ghost use Rattle.x86_instr.specs.declared.listing.TheConstants.{MAX_FRAME_BYTES};
ghost use Rattle.x86_instr.specs.Registers.{number_of};
ghost use Rattle.x86_meaning.specs.Start as areas;
ghost use Rattle.terms.specs.Tables.{Prefix};
ghost use Rattle.symbolic_state.specs.Fitting.{FitsTable, HasShape};
ghost use Rattle.program_nodes.specs.Sources as sources;
ghost use Rattle.symbolic_state.specs.Starts as starts;

use crate::array::Array;
use crate::cells::param_reg;
use crate::state::SymState;
use program_nodes::input_form;
use std::alloc::{AllocError, Global};
use term_store::Interner;
use word_program::{Param, Program, Role};

/// The node of an input word, which the table has.
#[tactic(auto, using(crate::proofs::StartLemmas::inputs))]
fn input_node<T: Interner>(
    store: &mut T,
    program: &Program,
    param: u8,
    word: u8,
) -> Result<u32, AllocError>
    requires room { length (T.nodes store.now) < 2 ^ 32 - 1 }
    requires begins { Prefix (sources.source_made program.now).table (T.nodes store.now) }
    requires input { IsOperand program.now.params 0 (operands.Input param word) }
    ensures node { IfOk result (λ node. node ≡ starts.input_node (T.nodes store.old) program.now.params param word) }
    ensures table { T.nodes store.new ≡ T.nodes store.old }
    ensures fixed { T.fixed store.new ≡ T.fixed store.old }
{
    store.make(input_form(program.params(), param, word))
}

/// The nodes of the first words of an input.
#[tactic(auto, using(crate::proofs::StartLemmas::inputs))]
fn input_words<T: Interner>(
    alloc: Global,
    store: &mut T,
    program: &Program,
    param: u8,
    count: u8,
) -> Result<Vec<Option<u32>>, AllocError>
    requires room { length (T.nodes store.now) < 2 ^ 32 - 1 }
    requires begins { Prefix (sources.source_made program.now).table (T.nodes store.now) }
    requires inputs { (word : ℕ) → word < count → IsOperand program.now.params 0 (operands.Input param word) }
    ensures words { IfOk result (λ words. words.items
        ≡ map (λ word. Some (starts.input_node (T.nodes store.old) program.now.params param word))
        (range_with_len 0 count)) }
    ensures table { T.nodes store.new ≡ T.nodes store.old }
    ensures fixed { T.fixed store.new ≡ T.fixed store.old }
{
    let mut words = Vec::new(alloc);
    for word in 0..count {
        let node = input_node(store, program, param, word)?;
        words.push(Some(node))?;
    }
    Ok(words)
}

/// So many unknown words.
fn unknown_words(alloc: Global, count: usize) -> Result<Vec<Option<u32>>, AllocError>
    ensures { IfOk result (λ words. words.items ≡ replicate count None) }
{
    Ok(vec![in alloc; None; count]?)
}

/// The words of a parameter's array.
#[tactic(auto, using(crate::proofs::StartLemmas::inputs))]
fn start_words<T: Interner>(
    alloc: Global,
    store: &mut T,
    program: &Program,
    number: u8,
    param: &Param,
) -> Result<Vec<Option<u32>>, AllocError>
    requires room { length (T.nodes store.now) < 2 ^ 32 - 1 }
    requires begins { Prefix (sources.source_made program.now).table (T.nodes store.now) }
    requires there { slice_get program.now.params number ≡ Some param.now }
    requires param { IsParam param.now }
    ensures words { IfOk result (λ words. words.items
        ≡ (starts.array_at_start (T.nodes store.old) program.now.params number param.now).words) }
    ensures most { IfOk result (λ words. length words.items ≤ MAX_ARRAY_WORDS) }
    ensures table { T.nodes store.new ≡ T.nodes store.old }
    ensures fixed { T.fixed store.new ≡ T.fixed store.old }
{
    let count = param.bounds.items().len();
    match param.role {
        Role::InputScalar => Ok(Vec::new(alloc)),
        Role::Output => unknown_words(alloc, count),
        Role::InputArray => input_words(alloc, store, program, number, count as u8),
    }
}

/// The arrays of the parameters.
#[tactic(auto, using(crate::proofs::StartLemmas::next_params))]
fn start_arrays<T: Interner>(
    alloc: Global,
    store: &mut T,
    program: &Program,
) -> Result<Vec<Array>, AllocError>
    requires room { length (T.nodes store.now) < 2 ^ 32 - 1 }
    requires begins { Prefix (sources.source_made program.now).table (T.nodes store.now) }
    ensures arrays { IfOk result (λ arrays. arrays.items
        ≡ starts.arrays_at_start (T.nodes store.old) program.now.params 0 program.now.params) }
    ensures table { T.nodes store.new ≡ T.nodes store.old }
    ensures fixed { T.fixed store.new ≡ T.fixed store.old }
{
    let mut arrays = Vec::new(alloc);
    let mut number = 0;
    for param in program.params() {
        let words = start_words(alloc, store, program, number, param)?;
        arrays.push(Array::new(param.role, words))?;
        number += 1;
    }
    Ok(arrays)
}

/// The registers with the word of a parameter, where it is a scalar.
#[tactic(auto, using(crate::proofs::StartLemmas::inputs))]
fn with_scalar<T: Interner>(
    store: &mut T,
    program: &Program,
    number: u8,
    param: &Param,
    mut regs: [u32; 16],
) -> Result<[u32; 16], AllocError>
    requires room { length (T.nodes store.now) < 2 ^ 32 - 1 }
    requires begins { Prefix (sources.source_made program.now).table (T.nodes store.now) }
    requires there { slice_get program.now.params number ≡ Some param.now }
    requires param { IsParam param.now }
    ensures regs { IfOk result (λ new. new ≡ (if values.is_scalar param.now.role then slice_set regs
        (number_of (areas.param_reg number)) (starts.input_node (T.nodes store.old) program.now.params number 0)
        else regs)) }
    ensures table { T.nodes store.new ≡ T.nodes store.old }
    ensures fixed { T.fixed store.new ≡ T.fixed store.old }
{
    match param.role {
        Role::Output | Role::InputArray => Ok(regs),
        Role::InputScalar => {
            let reg = param_reg(number as usize);
            regs[usize::from(reg.number())] = input_node(store, program, number, 0)?;
            Ok(regs)
        }
    }
}

/// The registers: each scalar's holds its word, and every other one what it holds at the start.
#[tactic(auto, using(crate::proofs::StartLemmas::next_params))]
fn start_regs<T: Interner>(store: &mut T, program: &Program) -> Result<[u32; 16], AllocError>
    requires room { length (T.nodes store.now) < 2 ^ 32 - 1 }
    requires begins { Prefix (sources.source_made program.now).table (T.nodes store.now) }
    ensures regs { IfOk result (λ regs. regs
        ≡ starts.with_scalars (T.nodes store.old) program.now.params 0 program.now.params (range_with_len 0 16)) }
    ensures table { T.nodes store.new ≡ T.nodes store.old }
    ensures fixed { T.fixed store.new ≡ T.fixed store.old }
    ensures accepted { IsAccepted program.now }
{
    let mut regs = [0, 1, 2, 3, 4, 5, 6, 7, 8, 9, 10, 11, 12, 13, 14, 15];
    let mut number = 0;
    for param in program.params() {
        regs = with_scalar(store, program, number, param, regs)?;
        number += 1;
    }
    Ok(regs)
}

/// The state at the start.
#[tactic(auto, unfolding(crate::specs::Starts::symbols_at_start))]
fn state_at_start<T: Interner>(
    alloc: Global,
    store: &mut T,
    program: &Program,
    frame: u32,
) -> Result<SymState, AllocError>
    requires begins { Prefix (sources.source_made program.now).table (T.nodes store.now) }
    requires frame { frame ≤ MAX_FRAME_BYTES }
    requires room { length (T.nodes store.now) < 2 ^ 32 - 1 }
    ensures state { IfOk result (λ state. state ≡ starts.symbols_at_start (T.nodes store.old) program.now frame) }
    ensures table { T.nodes store.new ≡ T.nodes store.old }
    ensures fixed { T.fixed store.new ≡ T.fixed store.old }
    ensures accepted { IsAccepted program.now }
{
    let regs = start_regs(store, program)?;
    let arrays = start_arrays(alloc, store, program)?;
    let words = unknown_words(alloc, (frame / 8) as usize)?;
    Ok(SymState::new(alloc, regs, arrays, words, program.overlap()))
}

/// The symbolic state at the start of a listing with a frame of so many bytes, over a table that begins with the nodes
/// of the program: each scalar's register and each word of an input array holds the node of its input word, and every
/// other register that of what it holds at the start. Flags, the words of outputs and those of the frame are unknown.
/// The one error is want of memory. The table stays as it is.
#[tactic(auto, using(crate::proofs::StartLemmas::fits_at_start, crate::proofs::StartLemmas::shape_at_start))]
pub fn start<T: Interner>(
    alloc: Global,
    store: &mut T,
    program: &Program,
    frame: u32,
) -> Result<SymState, AllocError>
    requires begins { Prefix (sources.source_made program.now).table (T.nodes store.now) }
    requires frame { frame ≤ MAX_FRAME_BYTES }
    requires room { length (T.nodes store.now) ≤ 2 ^ 32 - 32 }
    ensures state { IfOk result (λ state. state ≡ starts.symbols_at_start (T.nodes store.old) program.now frame) }
    ensures table { T.nodes store.new ≡ T.nodes store.old }
    ensures fixed { T.fixed store.new ≡ T.fixed store.old }
    ensures fits { IfOk result (FitsTable (T.nodes store.new)) }
    ensures shape { IfOk result (HasShape program.now frame) }
{
    state_at_start(alloc, store, program, frame)
}
