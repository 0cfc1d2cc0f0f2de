//! The nodes of sources.

ghost use Rattle.std.specs.Prelude.{◌≡◌, ◌+◌, ◌-◌, ◌^◌, ◌<◌, ◌≤◌, length, IfOk, IfSome, OnErr};
ghost use Rattle.terms.specs.Tables.{Prefix};
ghost use Rattle.symbolic_state.specs.Fitting.{FitsTable};
ghost use Rattle.symbolic_state.specs.Fetching as fetches;

use crate::state::SymState;
use crate::touch::Touch;
use program_nodes::make;
use std::alloc::AllocError;
use std::marker::Model;
use term_store::Interner;
use terms::Form;
use x86_instr::{Mem, Rm, Src};

/// A source's node, and the access of memory by which it was read.
#[derive(Drop)]
pub struct Word {
    pub node: u32,
    pub touch: Option<Touch>,
}

impl Model for Word {
    ghost use Rattle.symbolic_state.specs.Fetching as fetches;

    ghost Value = { fetches.Word };

    ghost view = { λ w. record { node = w.node; touch = w.touch } };
}

impl SymState {
    /// The node of a word of the memory. None exactly where the address names no cell or its word is unknown.
    #[tactic(auto, unfolding(crate::specs::Fetching::fetched_cell), using(crate::proofs::FetchRules::fetching))]
    fn fetched_cell<T: Interner>(&self, store: &mut T, mem: Mem) -> Result<Option<Word>, AllocError>
        requires room { length (T.nodes store.now) ≤ 2 ^ 32 - 8 }
        requires fits { FitsTable (T.nodes store.now) self.now }
        ensures word { IfOk result (λ word. record { table = T.nodes store.new; word = word }
            ≡ fetches.fetched_cell (T.nodes store.old) self.now mem) }
        ensures part { OnErr result (Prefix (T.nodes store.new)
            (fetches.fetched_cell (T.nodes store.old) self.now mem).table) }
        ensures inside { IfOk result (λ word. IfSome word (λ w. w.node < length (T.nodes store.new))) }
        ensures grows { Prefix (T.nodes store.old) (T.nodes store.new) }
        ensures most { length (T.nodes store.new) ≤ length (T.nodes store.old) + 1 }
        ensures fixed { T.fixed store.new ≡ T.fixed store.old }
    {
        let address = make(store, self.address(mem)?)?;
        let Some(cell) = self.cell_named(store, address) else {
            return Ok(None);
        };
        let Some(node) = self.node_of(&cell) else {
            return Ok(None);
        };
        let touch = Some(self.touch_of(false, &cell));
        Ok(Some(Word { node, touch }))
    }

    /// The node of a register or memory source.
    #[tactic(auto, using(crate::proofs::FetchRules::fetching))]
    pub fn fetched_rm<T: Interner>(
        &self,
        store: &mut T,
        src: Rm,
    ) -> Result<Option<Word>, AllocError>
        requires room { length (T.nodes store.now) ≤ 2 ^ 32 - 8 }
        requires fits { FitsTable (T.nodes store.now) self.now }
        ensures word { IfOk result (λ word. record { table = T.nodes store.new; word = word }
            ≡ fetches.rm_fetched (T.nodes store.old) self.now src) }
        ensures part { OnErr result (Prefix (T.nodes store.new)
            (fetches.rm_fetched (T.nodes store.old) self.now src).table) }
        ensures inside { IfOk result (λ word. IfSome word (λ w. w.node < length (T.nodes store.new))) }
        ensures grows { Prefix (T.nodes store.old) (T.nodes store.new) }
        ensures most { length (T.nodes store.new) ≤ length (T.nodes store.old) + 1 }
        ensures fixed { T.fixed store.new ≡ T.fixed store.old }
    {
        match src {
            Rm::Reg(reg) => Ok(Some(Word {
                node: self.register(reg),
                touch: None,
            })),
            Rm::Mem(mem) => self.fetched_cell(store, mem),
        }
    }

    /// The node of a source.
    #[tactic(auto, unfolding(crate::specs::Fetching::fetched_const), using(crate::proofs::FetchRules::fetching))]
    pub fn fetched_src<T: Interner>(
        &self,
        store: &mut T,
        src: Src,
    ) -> Result<Option<Word>, AllocError>
        requires room { length (T.nodes store.now) ≤ 2 ^ 32 - 8 }
        requires fits { FitsTable (T.nodes store.now) self.now }
        ensures word { IfOk result (λ word. record { table = T.nodes store.new; word = word }
            ≡ fetches.src_fetched (T.nodes store.old) self.now src) }
        ensures part { OnErr result (Prefix (T.nodes store.new)
            (fetches.src_fetched (T.nodes store.old) self.now src).table) }
        ensures inside { IfOk result (λ word. IfSome word (λ w. w.node < length (T.nodes store.new))) }
        ensures grows { Prefix (T.nodes store.old) (T.nodes store.new) }
        ensures most { length (T.nodes store.new) ≤ length (T.nodes store.old) + 1 }
        ensures fixed { T.fixed store.new ≡ T.fixed store.old }
    {
        match src {
            Src::Reg(reg) => Ok(Some(Word {
                node: self.register(reg),
                touch: None,
            })),
            Src::Mem(mem) => self.fetched_cell(store, mem),
            Src::Imm(number) => {
                let node = make(store, Form::Const(i64::from(number).cast_unsigned()))?;
                Ok(Some(Word { node, touch: None }))
            }
        }
    }
}
