ghost use Rattle.std.specs.Prelude.{◌≡◌, [], ◌∷◌, ◌++◌, OnOk, OnErr};
ghost use Rattle.x86_instr.specs.Fits.{FitsLines};

use crate::instr::Instr;
use crate::owner::Owner;
use std::alloc::{AllocError, Global};
use std::marker::Model;

/// An instruction and the operation that owns it, where one does. An owner changes nothing of what the
/// line does. Contracts see the record of the fields.
#[derive(Clone, Copy)]
pub struct Line {
    pub instr: Instr,
    pub owner: Option<Owner>,
}

// With a model of its own a line may stand in a `Vec`, which one that holds an enum with models may not.
impl Model for Line {
    ghost use Rattle.x86_instr.specs.Owned.{OwnedInstr};

    ghost Value = { OwnedInstr };

    ghost view = { λ l. record { instr = l.instr; owner = l.owner } };

    ghost use Rattle.x86_instr.specs.Fits.{FitsInstr, FitsOwner};

    ghost invariant = { λ l. FitsInstr l.instr × FitsOwner l.owner };

    ghost inverse = { λ l. record { instr = l.instr; owner = l.owner } };
}

/// A list of lines, of which each fits its ranges. Contracts see the list.
#[derive(Drop)]
pub struct Lines {
    lines: Vec<Line>,
}

impl Model for Lines {
    ghost use Rattle.std.specs.Prelude.{List};
    ghost use Rattle.x86_instr.specs.declared.line.Line.{Line};

    ghost Value = { List Line };

    ghost view = { λ l. l.lines.items };

    ghost use Rattle.x86_instr.specs.Fits.{FitsLines};

    ghost invariant = { λ l. FitsLines l.lines.items };
}

impl Lines {
    /// The empty list, which takes no memory yet.
    pub fn new(alloc: Global) -> Lines
        ensures { result ≡ [] }
    {
        Lines {
            lines: Vec::new(alloc),
        }
    }

    /// Puts a line at the end. The one error is want of memory, which leaves the list as it was.
    #[tactic(auto, using(crate::proofs::FitsLemmas::fits_more))]
    pub fn push(&mut self, line: Line) -> Result<(), AllocError>
        ensures ok { OnOk result (self.new ≡ self.old ++ line ∷ []) }
        ensures err { OnErr result (self.new ≡ self.old) }
    {
        self.lines.push(line)?;
        Ok(())
    }

    /// The lines in order.
    pub fn items(&self) -> &[Line]
        ensures items { result.now ≡ self.now }
        ensures fits { FitsLines self.now }
    {
        self.lines.as_slice()
    }
}
