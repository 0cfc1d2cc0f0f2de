//! Laws of the definitions: functions that do nothing, whose contracts are the laws.

ghost use Rattle.std.specs.Prelude.{List};
ghost use Rattle.x86_instr.specs.declared.instr.Instr.{Instr};
ghost use Rattle.terms.specs.declared.nodes.Node.{Node};
ghost use Rattle.symbolic_state.specs.Symbols.{Symbols};
ghost use Rattle.symbolic_values.specs.Covering.{Covers};

/// The symbolic step of every instruction, over every table and from every state, covers the machine's step.
pub fn symbolic_steps_cover_steps()
    ensures { (i : Instr) (table : List Node) (y : Symbols) → Covers i table y }
{}
