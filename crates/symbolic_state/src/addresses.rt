//! The addresses of memory operands.

ghost use Rattle.std.specs.Prelude.{◌≡◌, ◌∷◌, IfOk};
ghost use Rattle.symbolic_state.specs.Cells as cells;

use crate::state::SymState;
use program_nodes::{plus, times};
use std::alloc::AllocError;
use terms::{Form, Term, Terms};
use x86_instr::{Index, Mem};

impl SymState {
    /// A term, and that of an index.
    fn with_index(&self, base: Term, index: Option<Index>) -> Result<Terms, AllocError>
        ensures { IfOk result (λ terms. terms ≡ base ∷ cells.index_terms self.now index) }
    {
        let alloc = self.alloc();
        match index {
            None => Ok(Terms::from_vec(vec![in alloc; base]?)),
            Some(index) => {
                let scale = u64::from(index.scale.factor());
                let scaled = times(scale, self.register(index.reg.reg()));
                Ok(Terms::from_vec(vec![in alloc; base, scaled]?))
            }
        }
    }

    /// The address of a memory operand.
    pub fn address(&self, mem: Mem) -> Result<Form, AllocError>
        ensures { IfOk result (λ form. form ≡ cells.address_form self.now mem) }
    {
        let base = plus(self.register(mem.base));
        let terms = self.with_index(base, mem.index)?;
        Ok(Form::Lin {
            k: i64::from(mem.disp).cast_unsigned(),
            terms,
        })
    }
}
