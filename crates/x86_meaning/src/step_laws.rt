//! Laws of steps: functions that do nothing, whose contracts are the laws.

ghost use Rattle.std.specs.Prelude.{◌≡◌, ℕ, ◌&&◌, List, Some, is_some};
ghost use Rattle.x86_instr.specs.declared.instr.Instr.{Instr};
ghost use Rattle.x86_instr.specs.declared.line.Line.{Line};
ghost use Rattle.x86_instr.specs.Fits.{FitsInstr, FitsLines};
ghost use Rattle.x86_instr.specs.Flags.{flags_read};
ghost use Rattle.x86_meaning.specs.declared.state.State.{State};
ghost use Rattle.x86_meaning.specs.Machine.{IsState, step_of};
ghost use Rattle.x86_meaning.specs.Runs.{run_from};
ghost use Rattle.x86_meaning.specs.StepLaws.{Leaves, SameReads, StepsAlike, are_defined, is_there, last_state};
ghost use Rattle.x86_meaning.specs.Touches.{touched};

/// A step is stuck exactly where the cell that the instruction touches is not in the memory, or a flag that it reads
/// is undefined.
pub fn step_needs_its_cell_and_flags()
    ensures { (i : Instr) (s : State)
        → is_some (step_of i s) ≡ (is_there (touched i s) s && are_defined (flags_read i) s) }
{}

/// A step changes no cell but the one that it writes, no flag but those that it writes, and no register but those
/// that it writes.
pub fn step_leaves_the_rest()
    ensures { (i : Instr) (s t : State) → step_of i s ≡ Some t → Leaves i s t }
{}

/// A step depends on the registers, the flags that the instruction reads and the cell that it touches alone: from
/// states that agree on these, it is stuck in both, or writes the same registers, flags and cell in both.
pub fn step_depends_on_its_reads()
    ensures { (i : Instr) (s u : State) → SameReads i s u → StepsAlike i s u }
{}

/// A step of an instruction within its ranges leads from a state of sixteen words and of cells at multiples of 8 to
/// such a state, and so does a run.
pub fn steps_keep_states()
    ensures step { (i : Instr) (s t : State) → FitsInstr i → IsState s → step_of i s ≡ Some t → IsState t }
    ensures run { (lines : List Line) (number : ℕ) (s : State) → FitsLines lines → IsState s
        → IsState (last_state (run_from number lines s)) }
{}
