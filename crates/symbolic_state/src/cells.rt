//! Which cell an address names, and what stands there.

ghost use Rattle.std.specs.Prelude.{◌≡◌, ◌*◌, ◌/◌, ◌%◌, ◌^◌, ◌<◌, length, Some, None, IfSome};
ghost use Rattle.std.specs.Bool.{MatchBool};
ghost use Rattle.terms.specs.Tables.{AreTermsBelow};
ghost use Rattle.x86_instr.specs.declared.listing.TheConstants.{MAX_FRAME_BYTES};
ghost use Rattle.x86_meaning.specs.Start as areas;
ghost use Rattle.symbolic_state.specs.Cells as cells;

use crate::state::SymState;
use crate::touch::Touch;
use std::marker::Model;
use terms::{NodeKind, Nodes, Term};
use x86_instr::Reg;

/// What the register with this number holds at the start, and a constant, modulo 2^64.
#[derive(Drop)]
pub struct Base {
    reg: u8,
    offset: u64,
}

impl Model for Base {
    ghost use Rattle.symbolic_state.specs.Cells as cells;

    ghost Value = { cells.Base };

    ghost view = { λ b. record { reg = b.reg; offset = b.offset } };
}

/// A word of a parameter's array, or of the frame where there is no parameter.
#[derive(Drop)]
pub struct Cell {
    param: Option<usize>,
    word: usize,
}

impl Model for Cell {
    ghost use Rattle.std.specs.Prelude.{◌*◌, ◌<◌};
    ghost use Rattle.x86_instr.specs.declared.listing.TheConstants.{MAX_FRAME_BYTES};
    ghost use Rattle.symbolic_state.specs.Cells as cells;

    ghost Value = { cells.Cell };

    ghost view = { λ c. record { area = cells.area_of c.param; word = c.word } };

    ghost invariant = { λ c. 8 * c.word < MAX_FRAME_BYTES };
}

/// The registers that pass the parameters, in order.
const PARAM_REGS: [Reg; 6] = [Reg::Rdi, Reg::Rsi, Reg::Rdx, Reg::Rcx, Reg::R8, Reg::R9];

/// The register of a parameter, counted from 0.
pub fn param_reg(param: usize) -> Reg
    ensures { result ≡ areas.param_reg param }
{
    match PARAM_REGS.get(param) {
        Some(reg) => *reg,
        None => Reg::Rdi,
    }
}

/// The parameter that the register with this number passes.
fn param_in(reg: u8) -> Option<usize>
    ensures { result ≡ cells.param_in reg }
{
    PARAM_REGS.iter().position(|r| r.number() == reg)
}

/// The register whose start a node is.
fn start_reg(kind: &NodeKind) -> Option<u8>
    ensures { result ≡ cells.start_reg kind.now }
{
    match kind {
        NodeKind::Start(reg) => Some(*reg),
        _ => None,
    }
}

/// The register whose start is the only term.
fn only_start<T: Nodes>(store: &T, terms: &[Term]) -> Option<u8>
    requires { AreTermsBelow (length (T.nodes store.now)) terms.now }
    ensures { result ≡ cells.only_start (T.nodes store.now) terms.now }
{
    let [term] = terms else {
        return None;
    };
    if term.times != 1 {
        return None;
    }
    start_reg(&store.node(term.node).kind)
}

/// The node's word as a register's start and a constant, where it is one.
pub fn base_of<T: Nodes>(store: &T, number: u32) -> Option<Base>
    requires { number < length (T.nodes store.now) }
    ensures { result ≡ cells.base_of (T.nodes store.now) number }
{
    let _count = store.count();
    match &store.node(number).kind {
        NodeKind::Start(reg) => Some(Base {
            reg: *reg,
            offset: 0,
        }),
        NodeKind::Sum { k, terms } => {
            let reg = only_start(store, terms.items())?;
            Some(Base { reg, offset: *k })
        }
        _ => None,
    }
}

/// The word of an area with so many words at a multiple of 8 from its start.
fn word_at(offset: u64, count: usize) -> Option<usize>
    ensures word { result ≡ cells.word_at offset count }
    ensures inside { IfSome result (λ word. word < count) }
{
    if offset % 8 != 0 {
        return None;
    }
    if offset / 8 >= count as u64 {
        return None;
    }
    Some((offset / 8) as usize)
}

impl SymState {
    fn array_cell(&self, base: &Base) -> Option<Cell>
        ensures cell { result ≡ cells.array_cell self.now base.now }
        ensures inside { IfSome result (cells.IsInside self.now) }
    {
        let param = param_in(base.reg)?;
        let count = self.array_words(param)?;
        let word = word_at(base.offset, count)?;
        Some(Cell {
            param: Some(param),
            word,
        })
    }

    fn frame_cell(&self, base: &Base) -> Option<Cell>
        ensures cell { result ≡ cells.frame_cell self.now base.now }
        ensures inside { IfSome result (cells.IsInside self.now) }
    {
        let count = self.frame_words();
        let offset = base.offset.wrapping_add(8 * count as u64);
        let word = word_at(offset, count)?;
        Some(Cell { param: None, word })
    }

    /// The cell at a base.
    fn cell_at(&self, base: &Base) -> Option<Cell>
        ensures cell { result ≡ cells.cell_at self.now base.now }
        ensures inside { IfSome result (cells.IsInside self.now) }
    {
        if base.reg == Reg::Rsp.number() {
            self.frame_cell(base)
        } else {
            self.array_cell(base)
        }
    }

    /// The cell that the word of the node names.
    #[tactic(auto, unfolding(crate::specs::Cells::cell_named))]
    pub fn cell_named<T: Nodes>(&self, store: &T, number: u32) -> Option<Cell>
        requires { number < length (T.nodes store.now) }
        ensures cell { result ≡ cells.cell_named (T.nodes store.now) self.now number }
        ensures inside { IfSome result (cells.IsInside self.now) }
    {
        let base = base_of(store, number)?;
        self.cell_at(&base)
    }

    /// The node that is known to stand in a cell.
    pub(crate) fn node_of(&self, cell: &Cell) -> Option<u32>
        ensures { result ≡ cells.node_of self.now cell.now.area cell.now.word }
    {
        match cell.param {
            Some(param) => self.array_word(param, cell.word),
            None => self.frame_word(cell.word),
        }
    }

    /// The access of a cell.
    pub fn touch_of(&self, write: bool, cell: &Cell) -> Touch
        ensures { result ≡ cells.touch_of write self.now cell.now }
    {
        let offset = 8 * cell.word as i64;
        match cell.param {
            Some(param) => Touch {
                write,
                reg: param_reg(param),
                offset,
            },
            None => Touch {
                write,
                reg: Reg::Rsp,
                offset: offset - 8 * self.frame_words() as i64,
            },
        }
    }

    /// Stores a node in a word of a parameter's array. False exactly where that is no output.
    fn store_in_array(&mut self, param: usize, word: usize, node: u32) -> bool
        requires { cells.IsInside self.now (record { area = areas.Array param; word = word }) }
        ensures { MatchBool result (cells.stored (areas.Array param) word node self.old ≡ Some self.new)
            ((cells.stored (areas.Array param) word node self.old ≡ None) × (self.new ≡ self.old)) }
    {
        if !self.is_output(param) {
            return false;
        }
        self.set_array_word(param, word, node);
        self.forget_inputs();
        true
    }

    /// Stores a node in a cell. False exactly where the cell is not to be written, with the state unchanged.
    pub fn store_node(&mut self, cell: &Cell, node: u32) -> bool
        requires { cells.IsInside self.now cell.now }
        ensures { MatchBool result (cells.stored cell.now.area cell.now.word node self.old ≡ Some self.new)
            ((cells.stored cell.now.area cell.now.word node self.old ≡ None) × (self.new ≡ self.old)) }
    {
        match cell.param {
            Some(param) => self.store_in_array(param, cell.word, node),
            None => {
                self.set_frame_word(cell.word, node);
                true
            }
        }
    }
}
