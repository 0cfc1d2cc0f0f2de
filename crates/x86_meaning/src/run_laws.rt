//! Laws of runs: functions that do nothing, whose contracts are the laws.

ghost use Rattle.std.specs.Prelude.{◌≡◌, ℕ, ◌+◌, List, Some, slice_get};
ghost use Rattle.x86_instr.specs.declared.line.Line.{Line};
ghost use Rattle.x86_meaning.specs.Laws.{FollowsStep, LastState};
ghost use Rattle.x86_meaning.specs.Runs.{run_from, state_left, states_of};
ghost use Rattle.x86_meaning.specs.declared.state.State.{State};

/// The states of a run begin with the state from which it runs, and end with the one in which it ends or is stuck.
/// Each of the others leads to the next one by the step of the line between them, which is not `ret`.
pub fn states_follow_by_steps()
    ensures first { (lines : List Line) (s : State) → slice_get (states_of lines s) 0 ≡ Some s }
    ensures last { (lines : List Line) (number : ℕ) (s : State)
        → LastState (states_of lines s) (state_left (run_from number lines s)) }
    ensures between { (lines : List Line) (s : State) (n : ℕ) (t : State)
        → slice_get (states_of lines s) (n + 1) ≡ Some t → FollowsStep lines s n t }
{}
