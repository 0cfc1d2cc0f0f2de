//! Laws of correct listings, of what is correct and of what is not: functions that do nothing, whose contracts are the
//! laws.

ghost use Rattle.std.specs.FinMap as map;
ghost use Rattle.std.specs.List.{AllByRecursion};
ghost use Rattle.std.specs.Prelude.{◌≡◌, ◌≢◌, ℕ, ◌+◌, ◌*◌, false, true, List, [], ◌∷◌, Some, is_some, slice_get};
ghost use Rattle.word_program.specs.Program.{Source};
ghost use Rattle.word_program.specs.Values.{is_output, output_word};
ghost use Rattle.x86_instr.specs.declared.line.Line.{Line};
ghost use Rattle.x86_instr.specs.declared.operand.Reg.TheVariants.{Rax, Rbx, Rsp, Rbp, Rsi, R12, R13, R14, R15};
ghost use Rattle.x86_meaning.specs.Correct.{IsCorrect};
ghost use Rattle.x86_meaning.specs.Laws.{EndsReturning};
ghost use Rattle.x86_meaning.specs.Machine.{reg};
ghost use Rattle.x86_meaning.specs.Refused.{IsToBeLeft, copied_word, copy_by, load, store, ret, copy_after_write};
ghost use Rattle.x86_meaning.specs.Refused.{copy_with_input_put_back, copy_with_stack_moved, copy_of_complement};
ghost use Rattle.x86_meaning.specs.Runs.{Ended, Stuck, run_from, states_of};
ghost use Rattle.x86_meaning.specs.Start.{param_reg, IsStart};
ghost use Rattle.x86_meaning.specs.StartLaws.{HasWord};
ghost use Rattle.x86_meaning.specs.declared.state.State.{State};

/// The run of a correct listing from a start state, computed line by line, ends at `ret` in a state
/// with the program's outputs and the preserved registers, in which no other cell has changed.
pub fn correct_listing_ends()
    ensures { (program : Source) (lines : List Line) → IsCorrect program lines → (inputs : List ℕ) (s : State)
        → IsStart program lines inputs s → EndsReturning program lines inputs s }
{}

/// A listing whose run from some start is stuck is not correct.
pub fn stuck_run_is_refused()
    ensures { (program : Source) (lines : List Line) (inputs : List ℕ) (s : State) → IsStart program lines inputs s
        → (number : ℕ) (t : State) → run_from 1 lines s ≡ Stuck number t → IsCorrect program lines → ⊥ }
{}

/// A listing whose run from some start ends with another word than the program's in a cell of an output is not
/// correct.
pub fn wrong_output_is_refused()
    ensures { (program : Source) (lines : List Line) (inputs : List ℕ) (s t : State) → IsStart program lines inputs s
        → run_from 1 lines s ≡ Ended t → (param word : ℕ) → HasWord is_output program.params param word
        → map.get t.cells (reg s (param_reg param) + 8 * word) ≢ Some (output_word program inputs param word)
        → IsCorrect program lines → ⊥ }
{}

/// A listing whose run from some start ends with another word than at the start in `rbx`, `rbp`, `r12`, `r13`,
/// `r14`, `r15` or `rsp` is not correct.
pub fn lost_register_is_refused()
    ensures { (program : Source) (lines : List Line) (inputs : List ℕ) (s t : State) → IsStart program lines inputs s
        → run_from 1 lines s ≡ Ended t
        → AllByRecursion (λ r. reg t r ≢ reg s r → IsCorrect program lines → ⊥)
        (Rbx ∷ Rbp ∷ R12 ∷ R13 ∷ R14 ∷ R15 ∷ Rsp ∷ []) }
{}

/// A listing is not correct where some state of a run from a start has another word than the start in a cell outside
/// the outputs and the frame, also where a later state has the old word again, or has other addresses.
pub fn changed_cell_is_refused()
    ensures words { (program : Source) (lines : List Line) (inputs : List ℕ) (s t : State)
        → IsStart program lines inputs s → (n : ℕ) → slice_get (states_of lines s) n ≡ Some t
        → (address : ℕ) → IsToBeLeft program lines s address
        → map.get t.cells address ≢ map.get s.cells address → IsCorrect program lines → ⊥ }
    ensures addresses { (program : Source) (lines : List Line) (inputs : List ℕ) (s t : State)
        → IsStart program lines inputs s → (n : ℕ) → slice_get (states_of lines s) n ≡ Some t
        → (address : ℕ) → is_some (map.get t.cells address) ≢ is_some (map.get s.cells address)
        → IsCorrect program lines → ⊥ }
{}

/// Of the copy of one word by a register: it is correct by `rax`, and it is not by a register that a function has to
/// give back, nor with the stack pointer 8 too low at the end.
pub fn copy_keeps_registers()
    ensures correct { IsCorrect (copied_word false) (copy_by Rax) }
    ensures lost { AllByRecursion (λ r. IsCorrect (copied_word false) (copy_by r) → ⊥)
        (Rbx ∷ Rbp ∷ R12 ∷ R13 ∷ R14 ∷ R15 ∷ Rsp ∷ []) }
    ensures stack { IsCorrect (copied_word false) copy_with_stack_moved → ⊥ }
{}

/// No listing is a correct copy of one word that begins with a read behind the input array, or with a store to it;
/// nor is one that puts the old word back.
pub fn copy_leaves_the_input()
    ensures behind { (lines : List Line) → IsCorrect (copied_word false) (load Rax Rsi 1 ∷ lines) → ⊥ }
    ensures stored { (lines : List Line) → IsCorrect (copied_word false) (store Rsi 0 Rax ∷ lines) → ⊥ }
    ensures put_back { IsCorrect (copied_word false) copy_with_input_put_back → ⊥ }
{}

/// A copy of one word that stores another word, or none, is not correct.
pub fn copy_stores_the_output()
    ensures other_word { IsCorrect (copied_word false) copy_of_complement → ⊥ }
    ensures no_word { IsCorrect (copied_word false) (ret ∷ []) → ⊥ }
{}

/// A copy of one word that writes the output before it reads the input is correct where the two do not overlap, and
/// is not where they may. One that reads first is correct in both cases.
pub fn copy_in_place_reads_first()
    ensures apart { IsCorrect (copied_word false) copy_after_write }
    ensures overlapping { IsCorrect (copied_word true) copy_after_write → ⊥ }
    ensures reads_first { IsCorrect (copied_word true) (copy_by Rax) }
{}
