ghost use Rattle.std.specs.Prelude.{◌≡◌, IfOk};
ghost use Rattle.std.specs.Arc.{arc_value};
ghost use Rattle.program_nodes.specs.Sources.{source_made, source_outputs};

use program_nodes::{SourceNodes, source};
use std::alloc::{AllocError, Global};
use std::marker::Model;
use std::sync::Arc;
use term_store::Store;
use word_program::Program;

/// A program that listings are checked against, with its nodes, which are made once. Contracts see the program.
#[derive(Drop)]
pub struct Prepared {
    program: Arc<Program>,
    base: Store,
    outputs: SourceNodes,
}

impl Model for Prepared {
    ghost use Rattle.std.specs.Arc.{arc_value};
    ghost use Rattle.word_program.specs.Program.{Source};
    ghost use Rattle.equiv_validator.specs.Preparing.{IsPrepared};

    ghost Value = { Source };

    ghost view = { λ p. arc_value p.program };

    ghost invariant = { λ p. IsPrepared (arc_value p.program) p.base p.outputs };
}

impl Prepared {
    /// Makes the nodes of a program. The one error is want of memory.
    pub fn new(alloc: Global, program: Arc<Program>) -> Result<Prepared, AllocError>
        ensures { IfOk result (λ prepared. prepared ≡ arc_value program) }
    {
        let mut base = Store::new(alloc);
        let outputs = source(alloc, &mut base, &program)?;
        Ok(Prepared {
            program,
            base,
            outputs,
        })
    }

    /// The program.
    pub fn program(&self) -> &Arc<Program>
        ensures { arc_value result.now ≡ self.now }
    {
        &self.program
    }

    /// The table of the program's nodes.
    pub fn base(&self) -> &Store
        ensures { result.now ≡ (source_made self.now).table }
    {
        &self.base
    }

    /// The nodes of the output words, in the order of the parameters.
    pub(crate) fn outputs(&self) -> &[u32]
        ensures { result.now ≡ source_outputs self.now }
    {
        self.outputs.outputs()
    }
}
