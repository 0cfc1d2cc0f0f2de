ghost use Rattle.std.specs.Prelude.{◌≡◌, ◌*◌, ◌<◌, ◌≤◌, length, slice_get, slice_set, option_map, Some, None};
ghost use Rattle.std.specs.List.{flat_map};
ghost use Rattle.symbolic_state.specs.Written.{output_words, words_written};
ghost use Rattle.std.specs.Prelude.{slice_index_or, IfSome, IsSomeAnd, false, map};
ghost use Rattle.std.specs.Option.{option_map_or};
ghost use Rattle.word_program.specs.Values as values;
ghost use Rattle.base.specs.declared.limits.TheConstants.{MAX_ARRAY_WORDS};
ghost use Rattle.x86_instr.specs.declared.listing.TheConstants.{MAX_FRAME_BYTES};
ghost use Rattle.x86_meaning.specs.Start as areas;
ghost use Rattle.symbolic_state.specs.Cells as cells;
ghost use Rattle.symbolic_state.specs.Symbols as symbols;

use crate::array::Array;
use crate::touch::Touch;
use std::alloc::Global;
use std::marker::Model;
use x86_instr::{Cond, Reg};

/// A symbolic state: which nodes stand in registers, flags and the memory, where that is known. Contracts see the
/// record of these.
#[derive(Drop)]
pub struct SymState {
    alloc: Global,
    regs: [u32; 16],
    cf: Option<u32>,
    of: Option<u32>,
    zf: Option<u32>,
    arrays: Vec<Array>,
    frame: Vec<Option<u32>>,
    overlap: bool,
    touch: Option<Touch>,
}

impl Model for SymState {
    ghost use Rattle.std.specs.Prelude.{◌*◌, ◌≤◌, length};
    ghost use Rattle.x86_instr.specs.declared.listing.TheConstants.{MAX_FRAME_BYTES};
    ghost use Rattle.symbolic_state.specs.Symbols.{Symbols};

    ghost Value = { Symbols };

    ghost view = { λ s. record {
      regs = s.regs;
      cf = s.cf;
      of = s.of;
      zf = s.zf;
      arrays = s.arrays.items;
      frame = s.frame.items;
      overlap = s.overlap;
      touch = s.touch;
    } };

    ghost invariant = { λ s. 8 * length s.frame.items ≤ MAX_FRAME_BYTES };
}

/// Forgets the words of all inputs.
fn forget_all(arrays: &mut [Array])
    ensures { arrays.new ≡ map cells.forgotten arrays.old }
{
    for array in arrays.iter_mut() {
        array.forget();
    }
}

/// The node of an output word, counted over all outputs, where it is known.
fn written_in(arrays: &[Array], word: usize) -> Option<u32>
    ensures { result ≡ slice_index_or (flat_map output_words arrays.now) word None }
{
    let mut left = word;
    for array in arrays {
        let words = array.output_words();
        if left < words.len() {
            return words[left];
        }
        left -= words.len();
    }
    None
}

impl SymState {
    /// The state with these registers and this memory, in which no flag is known.
    pub(crate) fn new(
        alloc: Global,
        regs: [u32; 16],
        arrays: Vec<Array>,
        frame: Vec<Option<u32>>,
        overlap: bool,
    ) -> SymState
        requires { 8 * length frame.items ≤ MAX_FRAME_BYTES }
        ensures { result ≡ record {
          regs = regs;
          cf = None;
          of = None;
          zf = None;
          arrays = arrays.items;
          frame = frame.items;
          overlap = overlap;
          touch = None;
        } }
    {
        SymState {
            alloc,
            regs,
            cf: None,
            of: None,
            zf: None,
            arrays,
            frame,
            overlap,
            touch: None,
        }
    }

    /// The allocator of the state's lists.
    pub fn alloc(&self) -> Global {
        self.alloc
    }

    /// The node of a register.
    pub fn register(&self, reg: Reg) -> u32
        ensures { result ≡ symbols.node_in self.now reg }
    {
        self.regs[usize::from(reg.number())]
    }

    /// The node of an output word, counted over all outputs in the order of the parameters, where a store to it is
    /// known. None also where there is no such word.
    pub fn written(&self, word: u32) -> Option<u32>
        ensures { result ≡ slice_index_or (words_written self.now) word None }
    {
        written_in(self.arrays.as_slice(), word as usize)
    }

    /// The cell that the last step accessed.
    pub fn last_touch(&self) -> Option<Touch>
        ensures { result ≡ self.now.touch }
    {
        self.touch
    }

    /// The node of the carry flag, where it is known.
    pub fn carry(&self) -> Option<u32>
        ensures { result ≡ self.now.cf }
    {
        self.cf
    }

    /// The node of a condition's flag, where it is known.
    pub fn condition(&self, cond: Cond) -> Option<u32>
        ensures { result ≡ symbols.condition_node self.now cond }
    {
        match cond {
            Cond::O | Cond::No => self.of,
            Cond::C | Cond::Nc => self.cf,
            Cond::Z | Cond::Nz => self.zf,
        }
    }

    /// Writes a register.
    pub fn set_register(&mut self, reg: Reg, node: u32)
        ensures { self.new ≡ symbols.with_node reg node self.old }
    {
        self.regs[usize::from(reg.number())] = node;
    }

    /// Writes a result, where there is a register for it.
    pub fn write(&mut self, dst: Option<Reg>, node: u32)
        ensures { self.new ≡ symbols.write dst node self.old }
    {
        if let Some(reg) = dst {
            self.set_register(reg, node);
        }
    }

    /// Writes the flags.
    pub fn set_flags(&mut self, cf: Option<u32>, of: Option<u32>, zf: Option<u32>)
        ensures { self.new ≡ symbols.with_flags cf of zf self.old }
    {
        self.cf = cf;
        self.of = of;
        self.zf = zf;
    }

    /// Writes the carry flag.
    pub fn set_carry(&mut self, cf: u32)
        ensures { self.new ≡ symbols.with_cf cf self.old }
    {
        self.cf = Some(cf);
    }

    /// Writes the overflow flag.
    pub fn set_overflow(&mut self, of: u32)
        ensures { self.new ≡ symbols.with_of of self.old }
    {
        self.of = Some(of);
    }

    /// Writes the last access.
    pub fn set_touch(&mut self, touch: Option<Touch>)
        ensures { self.new ≡ symbols.with_touch touch self.old }
    {
        self.touch = touch;
    }

    /// How many words the frame has.
    pub(crate) fn frame_words(&self) -> usize
        ensures count { result ≡ length self.now.frame }
        ensures most { 8 * result ≤ MAX_FRAME_BYTES }
    {
        self.frame.len()
    }

    /// How many words the array of a parameter has, where there is such a parameter.
    pub(crate) fn array_words(&self, param: usize) -> Option<usize>
        ensures count { result ≡ option_map (λ array. length array.words) (slice_get self.now.arrays param) }
        ensures most { IfSome result (λ count. count ≤ MAX_ARRAY_WORDS) }
    {
        Some(self.arrays.get(param)?.len())
    }

    /// The node that is known to stand in a word of the frame.
    pub(crate) fn frame_word(&self, word: usize) -> Option<u32>
        ensures { result ≡ cells.known self.now.frame word }
    {
        match self.frame.get(word) {
            Some(node) => *node,
            None => None,
        }
    }

    /// The node that is known to stand in a word of a parameter's array.
    pub(crate) fn array_word(&self, param: usize, word: usize) -> Option<u32>
        ensures { result ≡ cells.node_of self.now (areas.Array param) word }
    {
        match self.arrays.get(param) {
            Some(array) => array.known(word),
            None => None,
        }
    }

    /// Whether the array of a parameter is an output; false where there is no such parameter.
    pub(crate) fn is_output(&self, param: usize) -> bool
        ensures { result
            ≡ option_map_or (λ array. values.is_output array.role) (slice_get self.now.arrays param) false }
    {
        match self.arrays.get(param) {
            Some(array) => array.is_output(),
            None => false,
        }
    }

    /// Puts a node into a word of a parameter's array.
    pub(crate) fn set_array_word(&mut self, param: usize, word: usize, node: u32)
        requires { IsSomeAnd (slice_get self.now.arrays param) (λ array. word < length array.words) }
        ensures { IsSomeAnd (slice_get self.old.arrays param) (λ array.
            self.new ≡ record self.old { arrays = slice_set self.old.arrays param (cells.with_word array word node) }) }
    {
        let array = &mut self.arrays[param];
        array.set(word, node);
    }

    /// Forgets the words of inputs, where a store to an output may have changed them.
    pub(crate) fn forget_inputs(&mut self)
        ensures { self.new ≡ cells.after_output self.old }
    {
        if self.overlap {
            forget_all(self.arrays.as_mut_slice());
        }
    }

    /// Puts a node into a word of the frame.
    pub(crate) fn set_frame_word(&mut self, word: usize, node: u32)
        requires { word < length self.now.frame }
        ensures { self.new ≡ record self.old { frame = slice_set self.old.frame word (Some node) } }
    {
        self.frame[word] = Some(node);
    }
}
